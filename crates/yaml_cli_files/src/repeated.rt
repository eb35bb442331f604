//! Keys that are in a mapping more than once, as they are reported to people and programs.

use crate::chars::Source;
use crate::excerpt::{push_around, push_columns};
use crate::finding::{Finding, Format, push_finding};
use crate::place::before_place;
use crate::shown::At;
use std::alloc::{AllocError, Global};
use yaml_scan_types::yaml_mark_t;

// How many characters of a key are shown.
const MOST_OF_KEY: u64 = 40;

// How many characters of a line before a place are looked at, so that a long line isn't gone through once for each of its
// keys.
const NEAR: u64 = 320;

/// A key that is the same as an earlier one of its mapping: where it begins and ends, and where the first one begins. The places'
/// `index` counts bytes of the text.
#[derive(Clone, Copy)]
pub struct RepeatedKey {
    pub mark: yaml_mark_t,
    pub end_mark: yaml_mark_t,
    pub first_mark: yaml_mark_t,
}

// How many characters of its line a key has, where it ends there.
fn length_of(key: RepeatedKey) -> u64 {
    if key.mark.line == key.end_mark.line {
        key.end_mark.column.saturating_sub(key.mark.column)
    } else {
        u64::MAX
    }
}

// Adds the front of a key as it is written.
fn push_key(text: &mut String, source: Source<'_>, key: RepeatedKey) -> Result<(), AllocError> {
    let length = length_of(key);
    let columns = length.min(MOST_OF_KEY);
    push_columns(text, before_place(source, key.mark, 0), columns, true)?;
    match length {
        0 => text.push_str("(empty)"),
        1..=MOST_OF_KEY => Ok(()),
        _ => text.push_str("..."),
    }
}

// Adds a place, what is there, and its source line.
fn push_label(
    text: &mut String,
    source: Source<'_>,
    place: yaml_mark_t,
    what: &str,
) -> Result<(), AllocError> {
    let name = source.name;
    write!(text, "{}: {what}", At { name, place })?;
    let characters = place.column.min(NEAR);
    push_around(text, before_place(source, place, characters), characters)
}

const KIND: &'static str = "duplicate key";

const FIRST: &'static str = "the key stands here first";

/// Adds the lines that report a key: `NAME:LINE:COLUMN: duplicate key: KEY`, the source line with a
/// caret under the place, and the place of the first one in the same way; or the line of a finding.
/// Lines and columns count from 1, columns in characters.
pub fn push_repeated(
    alloc: Global,
    text: &mut String,
    format: Format,
    source: Source<'_>,
    key: RepeatedKey,
) -> Result<(), AllocError> {
    let mut problem = String::new(alloc);
    problem.push_str("duplicate key: ")?;
    push_key(&mut problem, source, key)?;
    match format {
        Format::Full => {
            let told = push_label(text, source, key.mark, problem.as_str());
            told.and(push_label(text, source, key.first_mark, FIRST))
        }
        _ => {
            let first = Some((FIRST, key.first_mark));
            let problem = problem.as_str();
            let finding = Finding::new(source.name, KIND, problem, Some(key.mark), first);
            push_finding(alloc, text, format, &finding)
        }
    }
}
