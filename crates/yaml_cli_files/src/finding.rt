//! Findings that programs read, a line each.

use crate::chars::Source;
use crate::names::bare;
use crate::place::place_of;
use crate::shown::Shown;
use serde::Serialize;
use std::alloc::{AllocError, Global};
use std::fmt::{Display, Formatter, Result as Formatted, Write};
use yaml_round_device::headline;
use yaml_scan_types::{yaml_fault_t, yaml_mark_t};

/// How findings are reported.
#[derive(Clone, Copy)]
pub enum Format {
    /// For people.
    Full,
    /// A line each.
    Line,
    /// The same, as commands of a workflow of GitHub.
    Github,
    /// The same, as JSON.
    Json,
}

/// What is wrong with a file. Lines and columns count from 1.
#[derive(Drop, Serialize)]
pub struct Finding<'a> {
    file: &'a str,
    line: Option<u64>,
    column: Option<u64>,
    kind: &'a str,
    problem: &'a str,
    context: Option<&'a str>,
    context_line: Option<u64>,
    context_column: Option<u64>,
}

// A line and a column, from 1.
fn numbers(place: Option<yaml_mark_t>) -> (Option<u64>, Option<u64>) {
    let line = place.map(|place| place.line.saturating_add(1));
    let column = place.map(|place| place.column.saturating_add(1));
    (line, column)
}

impl<'a> Finding<'a> {
    /// A problem of a file, its place, and what it is found in, with its place.
    pub fn new(
        name: &'a str,
        kind: &'a str,
        problem: &'a str,
        place: Option<yaml_mark_t>,
        context: Option<(&'a str, yaml_mark_t)>,
    ) -> Finding<'a> {
        let (line, column) = numbers(place);
        let (context_line, context_column) = numbers(context.map(|context| context.1));
        Finding {
            file: bare(name),
            line,
            column,
            kind,
            problem,
            context: context.map(|context| context.0),
            context_line,
            context_column,
        }
    }

    /// The fault of a text.
    pub fn of(source: Source<'a>, fault: &yaml_fault_t) -> Finding<'a> {
        let kind = headline(fault.kind);
        let kind = kind.strip_suffix(" error").unwrap_or(kind);
        let context = match fault.context {
            Some(context) => Some((context, fault.context_mark)),
            None => None,
        };
        let place = place_of(source, fault);
        Finding::new(source.name, kind, fault.problem, place, context)
    }
}

// A text in a command of a workflow, and whether it is in a property of one.
#[derive(Clone, Copy)]
struct Escaped<'a>(&'a str, bool);

impl Display for Escaped<'_> {
    fn fmt<W: Write>(&self, f: &mut Formatter<W>) -> Formatted {
        let Escaped(text, is_property) = *self;
        for c in text.chars() {
            match c {
                '%' => f.write_str("%25")?,
                '\r' => f.write_str("%0D")?,
                '\n' => f.write_str("%0A")?,
                ':' if is_property => f.write_str("%3A")?,
                ',' if is_property => f.write_str("%2C")?,
                c => f.write_char(c)?,
            }
        }
        Ok(())
    }
}

fn push_line(text: &mut String, finding: &Finding<'_>) -> Result<(), AllocError> {
    let Finding { kind, problem, .. } = finding;
    let name = Shown(finding.file);
    write!(text, "{name}:")?;
    if let (Some(line), Some(column)) = (finding.line, finding.column) {
        write!(text, "{line}:{column}:")?;
    }
    writeln!(text, " error: {problem} [{kind}]")
}

fn push_command(text: &mut String, finding: &Finding<'_>) -> Result<(), AllocError> {
    let kind = finding.kind;
    let name = Escaped(finding.file, true);
    let problem = Escaped(finding.problem, false);
    write!(text, "::error file={name}")?;
    if let (Some(line), Some(column)) = (finding.line, finding.column) {
        write!(text, ",line={line},col={column}")?;
    }
    writeln!(text, ",title=yaml_cli ({kind})::{problem}")
}

fn push_json(alloc: Global, text: &mut String, finding: &Finding<'_>) -> Result<(), AllocError> {
    match serde_json::to_string(alloc, finding) {
        Ok(object) => writeln!(text, "{object}"),
        Err(_) => Err(AllocError),
    }
}

/// Adds a finding's line; for `Full`, which isn't for programs, the one of `Line`.
pub fn push_finding(
    alloc: Global,
    text: &mut String,
    format: Format,
    finding: &Finding<'_>,
) -> Result<(), AllocError> {
    match format {
        Format::Github => push_command(text, finding),
        Format::Json => push_json(alloc, text, finding),
        _ => push_line(text, finding),
    }
}
