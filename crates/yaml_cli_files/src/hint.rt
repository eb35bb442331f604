//! What helps where a text is refused: what people write wrong most often.

use crate::chars::{Chars, Next, Source};
use crate::place::{from_place, is_at_end};
use crate::rows::row_of;
use yaml_scan_types::{yaml_fault_t, yaml_mark_t};

const TABS: &'static str = "indent with spaces";

const QUOTE: &'static str = "quote the value";

const TEMPLATE: &'static str = "a template? render it first, or quote it";

const CONFLICT: &'static str = "a merge conflict";

const JSON_LINES: &'static str = "JSON lines: each document needs ---";

// What is still open, by what was being read.
const OPEN: [(&'static str, &'static str); 4] = [
    ("while scanning a quoted scalar", "the quote isn't closed"),
    ("while parsing a flow sequence", "the [ isn't closed"),
    ("while parsing a flow mapping", "the { isn't closed"),
    ("while parsing a flow node", "a bracket isn't closed"),
];

// Whether a line begins with what git puts before the first of two texts.
fn has_conflict(input: &[u8]) -> bool {
    let mut lines = input.split(|byte| *byte == b'\n');
    lines.any(|line| line.starts_with(b"<<<<<<<"))
}

// Whether the two characters come one after the other among that many of the line.
fn has_pair(mut line: Chars<'_>, columns: u64, first: char, second: char) -> bool {
    let mut before = '\0';
    for _ in 0..columns {
        let Some(c) = line.next_in_line() else {
            return false;
        };
        if before == first && c == second {
            return true;
        }
        before = c;
    }
    false
}

// What helps where a character is wrong.
fn hint_at(problem: &str, c: char) -> Option<&'static str> {
    match (problem, c) {
        ("found character that cannot start any token", '\t') => Some(TABS),
        ("found character that cannot start any token", '@' | '`' | '%') => Some(QUOTE),
        ("did not find expected <document start>", '{') => Some(JSON_LINES),
        _ if problem.starts_with("found a tab character") => Some(TABS),
        _ => None,
    }
}

/// What helps against a fault at that place, where it is known.
pub(crate) fn hint_of(
    source: Source<'_>,
    place: yaml_mark_t,
    fault: &yaml_fault_t,
) -> Option<&'static str> {
    let line = from_place(source, yaml_mark_t { column: 0, ..place });
    if has_conflict(source.input) {
        return Some(CONFLICT);
    }
    if has_pair(line, source.input.len() as u64, '{', '{') {
        return Some(TEMPLATE);
    }
    if fault.problem == "mapping values are not allowed in this context" {
        return has_pair(line, place.column, ':', ' ').then_some(QUOTE);
    }
    match from_place(source, place).next_char() {
        Next::Char(c) => hint_at(fault.problem, c),
        _ if is_at_end(source, place) => row_of(&OPEN, fault.context.unwrap_or("")),
        _ => None,
    }
}
