//! The calls `run`, a run of a command over memory, and `read_all`.

use crate::call::Input;
use crate::engine::put_text;
use crate::lines::{Part, Reply, Row, Stream, engine_settings};
use serde_json::Value;
use yaml_round::{
    yaml_command_t, yaml_form_t, yaml_read_all, yaml_run, yaml_run_fault_t, yaml_std_input_t,
    yaml_std_output_t,
};

const COMMANDS: [Row<yaml_command_t>; 3] = [
    ("Fmt", yaml_command_t::Fmt),
    ("Docs", yaml_command_t::Docs),
    ("Events", yaml_command_t::Events),
];

// Puts why a run was refused.
fn put_refused(reply: &mut Reply, fault: yaml_run_fault_t) {
    let word = match fault {
        yaml_run_fault_t::Read => "Read",
        yaml_run_fault_t::TooLong => "TooLong",
        yaml_run_fault_t::Write { .. } => "Write",
        yaml_run_fault_t::Yaml(fault) => return reply.done(Some(fault)),
    };
    reply.field("refused", Part::Word(word));
}

/// The text that the line's command makes of its input, and the form that it has; `TooLong` where the input has more bytes
/// than `input_limit`.
pub fn run(reply: &mut Reply, line: &Value, input: &Input<'_>) {
    let command = reply.choice(line, "/command", &COMMANDS);
    let limit = reply.count(line, "/input_limit");
    let settings = engine_settings(reply, line);
    let mut text = Vec::new(reply.alloc);
    let source = &mut yaml_std_input_t::new(input.text);
    let output = &mut yaml_std_output_t::new(&mut text);
    let (from, alloc) = (input.from, reply.alloc);
    let ran = yaml_run(alloc, source, output, command, from, &settings, limit);
    match ran {
        Ok(form) => put_text(reply, line, text.as_slice(), form),
        Err(fault) => put_refused(reply, fault),
    }
}

/// What is read of the line's input, which comes as its steps say, under its limit; or why there are no bytes. And how many bytes the
/// reader was asked for, where the line asks for that.
pub fn read_all(reply: &mut Reply, line: &Value) {
    let limit = reply.count(line, "/input_limit");
    let bytes = reply.input(line, "/input");
    let mut reader = Stream::of(reply, line, "/reads", bytes);
    match yaml_read_all(reply.alloc, &mut yaml_std_input_t::new(&mut reader), limit) {
        Ok(text) => put_text(reply, line, text.as_slice(), None),
        Err(fault) => put_refused(reply, fault),
    }
    if line.get("sizes").is_some() {
        reply.field("sizes", Part::List);
        for size in reader.sizes.as_slice() {
            reply.put(Part::Count(*size as u64));
        }
        reply.put(Part::EndList);
    }
}
