//! What the program reports on standard error. Each call is made where the fault is found, so that no fault is handed up through
//! functions that own something.

use crate::order::WRONG_WORDS;
use std::alloc::{AllocError, Global};
use std::io::{Error as Failure, Write};
use thiserror::Error;
use yaml_cli_files::{Shown, Source, push_fault};
use yaml_round_device::{yaml_fault_line, yaml_run_fault_t};
use yaml_scan_types::{yaml_error_type_t, yaml_fault_t};

/// How many bytes an input may have.
pub const INPUT_LIMIT: u64 = 1_073_741_824;

/// The status where a command was refused or failed.
pub(crate) const FAILED: u8 = 1;

/// The status where a file couldn't be judged or compared: that of wrong arguments.
pub(crate) const UNJUDGED: u8 = WRONG_WORDS;

/// A fault that isn't one of a text. Its text is what is reported of it.
#[derive(Debug, Drop, Error)]
pub(crate) enum Fault<'a> {
    // Of a run.
    #[error("cannot read the input")]
    CannotRead,
    #[error("input is longer than 1073741824 bytes")]
    InputTooLong,
    #[error("write failed after {0} bytes")]
    WriteFailed(u64),
    // A note, of a text that was written.
    #[error("canonical form was written")]
    Canonical,
    #[error("standard output: {0}")]
    NotPassedOn(Failure),
    // Of a file, whose name is before it.
    #[error("{0}")]
    Failed(#[from] Failure),
    #[error("longer than 1073741824 bytes")]
    TooLong,
    #[error("out of memory")]
    Short,
    #[error("the name isn't UTF-8")]
    Unnamed,
    #[error("the list has no zero byte: is it from find -print0?")]
    Unlisted,
    #[error("no file to read below this folder")]
    Nothing,
    #[error("the text would pass --limit {0} bytes")]
    PastLimit(u64),
    #[error("has {0} names, which would no longer name the same file")]
    HasLinks(u64),
    #[error("standard input can't be written in place")]
    NoPlace,
    // Of the words.
    #[error("unknown {what}: {word}")]
    Unknown {
        what: &'static str,
        word: &'a str,
    },
    #[error("unknown {what}: {word} (known: {known})")]
    UnknownOf {
        what: &'static str,
        word: &'a str,
        known: &'static str,
    },
    #[error("{why}\n\nUsage: yaml_cli {command} [OPTIONS] [FILE]...")]
    Usage {
        command: &'a str,
        why: &'static str,
    },
    #[error("invalid value '{value}' for '--{option} <GLOB>': {why} (character {place})")]
    Pattern {
        option: &'static str,
        value: &'a str,
        why: &'static str,
        place: u64,
    },
    #[error("invalid value '{width}' for '--width <COLUMNS>': {width} is not in {least}..=2147483647")]
    Width {
        width: i32,
        least: i32,
    },
}

impl From<AllocError> for Fault<'_> {
    fn from(_: AllocError) -> Self {
        Fault::Short
    }
}

// Where a line can't be written, the status still reports the fault, so the result of writing is
// ignored.

/// Reports a fault, of that file where one is named.
pub(crate) fn told<E: Write>(errors: &mut E, name: &str, fault: &Fault<'_>) {
    let colon = if name.is_empty() { "" } else { ": " };
    let name = Shown(name);
    let _ = writeln!(errors, "yaml_cli: {name}{colon}{fault}");
}

// Reports a fault of a text, after the words that say of which input it is. Without memory for the
// line only the status reports it.
fn tell_fault<E: Write>(alloc: Global, errors: &mut E, input: &str, fault: &yaml_fault_t) {
    if let Ok(line) = yaml_fault_line(alloc, fault) {
        let line = str::from_utf8(line.as_slice()).unwrap_or("");
        let _ = writeln!(errors, "yaml_cli: {input}{line}");
    }
}

/// Reports why a run, or the reading of that input, was refused, a fault of a text after the words that say of which input it is;
/// answers the status.
pub(crate) fn run_failed<E: Write>(
    alloc: Global,
    errors: &mut E,
    input: &str,
    fault: &yaml_run_fault_t,
) -> u8 {
    let fault = match fault {
        yaml_run_fault_t::Read => Fault::CannotRead,
        yaml_run_fault_t::TooLong => Fault::InputTooLong,
        yaml_run_fault_t::Write { written } => Fault::WriteFailed(*written),
        yaml_run_fault_t::Yaml(fault) => {
            tell_fault(alloc, errors, input, fault);
            return FAILED;
        }
    };
    told(errors, "", &fault);
    FAILED
}

/// Shows the fault of a file, where there is room for it.
pub(crate) fn show<E: Write>(
    alloc: Global,
    errors: &mut E,
    source: Source<'_>,
    fault: &yaml_fault_t,
) {
    let mut text = String::new(alloc);
    if push_fault(&mut text, source, fault).is_ok() {
        let _ = write!(errors, "{text}");
    }
}

/// The status where a file is refused for that: of out of memory, that of a file that couldn't be judged.
pub(crate) fn refusal_status(fault: &yaml_fault_t) -> u8 {
    if fault.kind == yaml_error_type_t::YAML_MEMORY_ERROR {
        UNJUDGED
    } else {
        FAILED
    }
}

/// Reports what is wrong with the arguments of a command, in clap's words where clap has some; returns the status.
pub(crate) fn told_wrong<E: Write>(errors: &mut E, wrong: &Fault<'_>) -> u8 {
    match wrong {
        Fault::Unknown { .. } | Fault::UnknownOf { .. } => told(errors, "", wrong),
        _ => {
            let _ = writeln!(
                errors,
                "error: {wrong}\n\nFor more information, try '--help'."
            );
        }
    }
    WRONG_WORDS
}
