//! A run over devices: it reads to the end, works, and then writes.

ghost use Rattle.std.specs.Prelude.{◌≡◌, true, IfErr, OnOk};
ghost use Rattle.yaml_round_device.specs.Run.{Runs, RunTakes, FailsBy, IsBeforeWriting};
ghost use Rattle.yaml_scan_model.specs.scan_types.Faults.{Answers};
ghost use Rattle.yaml_round_engine.specs.Answers.{text_and_maybe_form};
ghost use Rattle.yaml_round.specs.Commands.{IsRunAnswer, run_layers, EndsUnfinished};

use crate::engine::{yaml_events, yaml_reformat};
use crate::reload::yaml_reload;
use std::alloc::Global;
use yaml_round_device::{
    yaml_command_t, yaml_form_t, yaml_input_t, yaml_output_t, yaml_read_all, yaml_run_fault_t,
    yaml_settings_t, yaml_write_all,
};
use yaml_scan_model::{yaml_encoding_t, yaml_fault_t};

// The text that the command gives for the input, and its form where it has one.
fn answer_of(
    alloc: Global,
    input: &[u8],
    command: yaml_command_t,
    from: yaml_encoding_t,
    settings: &yaml_settings_t,
) -> Result<(Vec<u8>, Option<yaml_form_t>), yaml_fault_t>
    ensures { Answers (run_layers command) text_and_maybe_form
        (IsRunAnswer command from settings.now input.now) result }
{
    match command {
        yaml_command_t::Fmt => match yaml_reformat(alloc, input, from, settings) {
            Ok((text, form)) => Ok((text, Some(form))),
            Err(fault) => Err(fault),
        },
        yaml_command_t::Docs => match yaml_reload(alloc, input, from, settings) {
            Ok(text) => Ok((text, Some(yaml_form_t::Canonical))),
            Err(fault) => Err(fault),
        },
        yaml_command_t::Events => match yaml_events(alloc, input, from) {
            Ok(text) => Ok((text, None)),
            Err(fault) => Err(fault),
        },
    }
}

/// Reads the input to its end, `input_limit` bytes at most, works, and then writes the whole answer and finishes.
/// `Read`: the input has failed. `TooLong`: a byte past the limit came. `Yaml`: the input was refused, or memory was.
/// After these three nothing was written. `Write`: the output has failed, and has received the answer's first
/// `written` bytes. Its seven arguments are those of a rewriting, with two devices in place of one input, and a limit.
pub fn yaml_run<I: yaml_input_t, O: yaml_output_t>(
    alloc: Global,
    input: &mut I,
    output: &mut O,
    command: yaml_command_t,
    from: yaml_encoding_t,
    settings: &yaml_settings_t,
    input_limit: u64,
) -> Result<Option<yaml_form_t>, yaml_run_fault_t>
    ensures runs { Runs
        (record {
          limit = input_limit;
          layers = run_layers command;
          IsAnswer = IsRunAnswer command from settings.now;
        })
        (record { to_come = I.to_come input.old; received = O.received output.old })
        (record { to_come = I.to_come input.new; received = O.received output.new }) result }
    // No byte is taken after the one past the limit, whether or not the input's bytes are known.
    ensures taken { RunTakes (I.given input.old) (I.given input.new) input_limit result }
    // After a whole answer the output is finished, and after a failed write it isn't.
    ensures finished { OnOk result (O.is_finished output.new ≡ true) }
    ensures unfinished { IfErr result (λ fault. EndsUnfinished fault (O.is_finished output.new)) }
    ensures failures { FailsBy
        (record { input = I.has_failed input.old; output = O.has_failed output.old })
        (record { input = I.has_failed input.new; output = O.has_failed output.new }) result }

    // Before the writing the output isn't touched, whether or not its bytes are known.
    ensures untouched { IfErr result (λ fault. IsBeforeWriting fault → output.new ≡ output.old) }
{
    let bytes = match yaml_read_all(alloc, input, input_limit) {
        Ok(bytes) => bytes,
        Err(fault) => return Err(fault),
    };
    let (text, form) = match answer_of(alloc, bytes.as_slice(), command, from, settings) {
        Ok(answer) => answer,
        Err(fault) => return Err(yaml_run_fault_t::Yaml(fault)),
    };
    match yaml_write_all(output, text.as_slice()) {
        Ok(()) => Ok(form),
        Err(written) => Err(yaml_run_fault_t::Write { written }),
    }
}
