//! The lines that show where two texts differ.

use crate::engine::{Cause, Difference, Met};
use std::alloc::{AllocError, Global};
use yaml_cli_files::{Line, Source, Span, parted, push_line};
use yaml_scan_types::{yaml_event_type_t, yaml_mark_t};

// What people call the thing that begins or ends with such an event, or comes after it.
fn event_words(kind: yaml_event_type_t, is_behind: bool) -> &'static str {
    match kind {
        yaml_event_type_t::YAML_SCALAR_EVENT if is_behind => "the end of a scalar",
        yaml_event_type_t::YAML_SCALAR_EVENT => "an empty scalar",
        yaml_event_type_t::YAML_ALIAS_EVENT => "an alias",
        yaml_event_type_t::YAML_SEQUENCE_START_EVENT => "a sequence",
        yaml_event_type_t::YAML_SEQUENCE_END_EVENT => "the end of a sequence",
        yaml_event_type_t::YAML_MAPPING_START_EVENT => "a mapping",
        yaml_event_type_t::YAML_MAPPING_END_EVENT => "the end of a mapping",
        yaml_event_type_t::YAML_DOCUMENT_START_EVENT => "a document",
        yaml_event_type_t::YAML_DOCUMENT_END_EVENT => "the end of a document",
        _ => "the end of the text",
    }
}

fn cause_words(cause: Cause) -> &'static str {
    match cause {
        Cause::OnlyFirst => "only in A",
        Cause::OnlySecond => "only in B",
        Cause::Kind => "kind",
        Cause::Directives => "directives",
        Cause::Value => "value",
        Cause::Tag => "tag",
        Cause::Quotes => "quotes",
        Cause::Anchor => "anchor",
        Cause::KeyOrder => "order of keys",
    }
}

// Whether an event is shown as it is spelled: a node's tag and anchor are before it.
fn is_spelled(kind: yaml_event_type_t, cause: Cause) -> bool {
    match kind {
        yaml_event_type_t::YAML_SCALAR_EVENT | yaml_event_type_t::YAML_ALIAS_EVENT => true,
        yaml_event_type_t::YAML_DOCUMENT_START_EVENT => matches!(cause, Cause::Directives),
        yaml_event_type_t::YAML_SEQUENCE_START_EVENT
        | yaml_event_type_t::YAML_MAPPING_START_EVENT => {
            matches!(cause, Cause::Tag | Cause::Anchor | Cause::KeyOrder)
        }
        _ => false,
    }
}

fn span_of<'a>(source: Source<'a>, met: Met) -> Span<'a> {
    Span {
        source,
        start: met.start,
        end: met.end,
    }
}

// Whether what is spelled shows nothing: no characters, or a collection's bracket alone.
fn is_bare(kind: yaml_event_type_t, cause: Cause, text: &str) -> bool {
    match kind {
        _ if matches!(cause, Cause::KeyOrder) => text.is_empty(),
        yaml_event_type_t::YAML_SEQUENCE_START_EVENT
        | yaml_event_type_t::YAML_MAPPING_START_EVENT => {
            !matches!(text.as_bytes().first(), Some(b'&' | b'!'))
        }
        _ => text.is_empty(),
    }
}

// What is shown of an event: its line with that place, or how it is called, where that shows nothing.
fn line_of(
    alloc: Global,
    source: Source<'_>,
    met: Met,
    cause: Cause,
    at: yaml_mark_t,
) -> Result<Line, AllocError> {
    let mut line = if is_spelled(met.kind, cause) {
        span_of(source, met).line(alloc, at)?
    } else {
        Line {
            text: String::new(alloc),
            place: met.start,
        }
    };
    if is_bare(met.kind, cause, &line.text) {
        line.text.clear();
        let is_behind = at.line > met.start.line || at.column > met.start.column;
        line.text.push_str(event_words(met.kind, is_behind))?;
    }
    Ok(line)
}

// Adds what both texts have, or one has, at a difference.
fn push_both(
    text: &mut String,
    cause: Cause,
    names: (&str, &str),
    line: &Line,
    other: &Line,
) -> Result<(), AllocError> {
    let columns = line.columns().max(other.columns());
    match cause {
        Cause::OnlyFirst => push_line(text, "  - ", names.0, line, line.columns()),
        Cause::OnlySecond => push_line(text, "  + ", names.1, other, other.columns()),
        _ => {
            push_line(text, "  - ", names.0, line, columns)?;
            push_line(text, "  + ", names.1, other, columns)
        }
    }
}

/// Adds the lines that show where two texts differ: the path with the cause, and what each text has there, with its place. A value of
/// several lines is shown by the first one that differs.
pub(crate) fn push_difference(
    alloc: Global,
    text: &mut String,
    difference: &Difference,
    first: Source<'_>,
    second: Source<'_>,
) -> Result<(), AllocError> {
    let Some(path) = &difference.path else {
        return Err(AllocError);
    };
    let cause = difference.cause;
    let words = cause_words(cause);
    writeln!(text, "{path}: {words}")?;
    let (one, two) = (difference.first, difference.second);
    let (at, there) = match cause {
        Cause::OnlyFirst | Cause::OnlySecond => (one.start, two.start),
        _ => parted(span_of(first, one), span_of(second, two)),
    };
    let line = line_of(alloc, first, one, cause, at)?;
    let other = line_of(alloc, second, two, cause, there)?;
    push_both(text, cause, (first.name, second.name), &line, &other)
}
