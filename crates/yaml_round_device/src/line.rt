//! The line that reports a fault.

ghost use Rattle.std.specs.Prelude.{◌≡◌, ◌++◌, IfOk, OnOk, string_bytes};
ghost use Rattle.yaml_scan_types.specs.Faults.{fault_of};
ghost use Rattle.yaml_round_device.specs.FaultLine.{headline, place, bytes_place, context_part, problem_place_of, fault_line};

use std::alloc::{AllocError, Global};
use yaml_scan_types::{yaml_error_type_t, yaml_fault_t, yaml_mark_t};

/// The kind's word, and `error`.
pub fn headline(kind: yaml_error_type_t) -> &'static str
    ensures { result.now ≡ headline kind }
{
    match kind {
        yaml_error_type_t::YAML_NO_ERROR => "no error",
        yaml_error_type_t::YAML_MEMORY_ERROR => "memory error",
        yaml_error_type_t::YAML_READER_ERROR => "reader error",
        yaml_error_type_t::YAML_SCANNER_ERROR => "scanner error",
        yaml_error_type_t::YAML_PARSER_ERROR => "parser error",
        yaml_error_type_t::YAML_COMPOSER_ERROR => "composer error",
        yaml_error_type_t::YAML_WRITER_ERROR => "writer error",
        yaml_error_type_t::YAML_EMITTER_ERROR => "emitter error",
    }
}

// Adds a place, counted from 1.
fn push_place(line: &mut String, mark: yaml_mark_t) -> Result<(), AllocError>
    ensures { OnOk result (string_bytes line.new ≡ string_bytes line.old ++ place mark) }
{
    let row = u128::from(mark.line) + 1;
    let column = u128::from(mark.column) + 1;
    write!(line, " (line {row}, column {column})")
}

// Adds the offset of a byte, and its value unless that is -1.
fn push_bytes_place(line: &mut String, offset: u64, value: i32) -> Result<(), AllocError>
    ensures { OnOk result (string_bytes line.new ≡ string_bytes line.old ++ bytes_place offset
        value) }
{
    if value == -1 {
        write!(line, " (byte {offset})")
    } else {
        write!(line, " (byte {offset}, value {value})")
    }
}

// Adds the context and its place, where there is one.
fn push_context(line: &mut String, fault: &yaml_fault_t) -> Result<(), AllocError>
    ensures { OnOk result (string_bytes line.new ≡ string_bytes line.old ++ context_part
        (fault_of fault.now).context fault.now.context_mark) }
{
    if let Some(context) = fault.context {
        write!(line, ": {context}")?;
        push_place(line, fault.context_mark)?;
    }
    Ok(())
}

// Adds where the problem is, as the kind says it.
fn push_problem_place(line: &mut String, fault: &yaml_fault_t) -> Result<(), AllocError>
    ensures { OnOk result (string_bytes line.new ≡ string_bytes line.old ++ problem_place_of
        fault.now.kind fault.now.offset fault.now.value fault.now.problem_mark) }
{
    match fault.kind {
        yaml_error_type_t::YAML_READER_ERROR => push_bytes_place(line, fault.offset, fault.value),
        yaml_error_type_t::YAML_SCANNER_ERROR
        | yaml_error_type_t::YAML_PARSER_ERROR
        | yaml_error_type_t::YAML_COMPOSER_ERROR => push_place(line, fault.problem_mark),
        _ => Ok(()),
    }
}

/// The line that reports a fault, without its end.
pub fn line_of(alloc: Global, fault: &yaml_fault_t) -> Result<String, AllocError>
    ensures { IfOk result (λ line. string_bytes line ≡ fault_line (fault_of fault.now)) }
{
    let word = headline(fault.kind);
    let mut line = format!(in alloc; "{word}")?;
    if fault.kind == yaml_error_type_t::YAML_MEMORY_ERROR {
        return Ok(line);
    }
    push_context(&mut line, fault)?;
    let problem = fault.problem;
    write!(line, ": {problem}")?;
    push_problem_place(&mut line, fault)?;
    Ok(line)
}
