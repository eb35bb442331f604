//! The lines that report a fault of a file, and those of a place.

use crate::chars::{Chars, Source};
use crate::excerpt::{push_excerpt, push_shown};
use crate::hint::hint_of;
use crate::place::{from_place, is_at_end, place_of, shown_place};
use crate::rows::row_of;
use crate::shown::{At, Shown};
use std::alloc::AllocError;
use yaml_round_device::headline;
use yaml_scan_types::{yaml_error_type_t, yaml_fault_t, yaml_mark_t};

// How many characters of a wrong word are shown.
const MOST_OF_WORD: usize = 40;

// Adds the character that comes next.
fn push_char(text: &mut String, mut chars: Chars<'_>) -> Result<(), AllocError> {
    let Some(c) = chars.next_in_line() else {
        return Ok(());
    };
    if c == '\t' {
        return text.push_str(": a tab");
    }
    let begun = text.push_str(": '");
    let shown = push_shown(text, c);
    begun.and(shown).and(text.push('\''))
}

// Adds the alias or the tag that comes next.
fn push_word(text: &mut String, mut chars: Chars<'_>) -> Result<(), AllocError> {
    text.push_str(": ")?;
    for _ in 0..MOST_OF_WORD {
        match chars.next_in_line() {
            None | Some(' ' | '\t' | ',' | '[' | ']' | '{' | '}') => return Ok(()),
            Some(c) => push_shown(text, c)?,
        }
    }
    text.push_str("...")
}

// What is wrong at a problem's place.
#[derive(Clone, Copy)]
enum Thing {
    Char,
    // An alias or a tag.
    Word,
    // The fault's value: a character, a byte, or a unit of UTF-16.
    Point,
    Byte,
    Unit,
}

const THINGS: [(&'static str, Thing); 10] = [
    ("found character that cannot start any token", Thing::Char),
    ("found undefined alias", Thing::Word),
    ("found undefined tag handle", Thing::Word),
    ("found a tag that is not UTF-8", Thing::Word),
    ("control characters are not allowed", Thing::Point),
    ("invalid Unicode character", Thing::Point),
    ("invalid leading UTF-8 octet", Thing::Byte),
    ("invalid trailing UTF-8 octet", Thing::Byte),
    ("unexpected low surrogate area", Thing::Unit),
    ("expected low surrogate area", Thing::Unit),
];

// Adds the character, the alias, the tag or the number that is wrong, where the problem is one of these; what is at its place
// is handed in.
fn push_wrong(text: &mut String, chars: Chars<'_>, fault: &yaml_fault_t) -> Result<(), AllocError> {
    let value = fault.value;
    match row_of(&THINGS, fault.problem) {
        Some(Thing::Char) => push_char(text, chars),
        Some(Thing::Word) => push_word(text, chars),
        Some(Thing::Point) => write!(text, ": U+{value:04X}"),
        Some(Thing::Byte) => write!(text, ": byte 0x{value:02X}"),
        Some(Thing::Unit) => write!(text, ": unit 0x{value:04X}"),
        None => Ok(()),
    }
}

// Adds a fault without a place.
fn push_placeless(text: &mut String, name: &str, fault: &yaml_fault_t) -> Result<(), AllocError> {
    let name = Shown(name);
    let kind = headline(fault.kind);
    let (colon, problem) = match fault.kind {
        yaml_error_type_t::YAML_MEMORY_ERROR => ("", ""),
        _ => (": ", fault.problem),
    };
    writeln!(text, "{name}: {kind}{colon}{problem}")
}

// Whether the context begins where the problem is.
fn is_one(fault: &yaml_fault_t, place: yaml_mark_t) -> bool {
    let context = fault.context_mark;
    context.line == place.line && context.column == place.column
}

// Adds where in the text the problem is, if that isn't seen, and what was being read, if that begins there.
fn push_around(
    text: &mut String,
    source: Source<'_>,
    place: yaml_mark_t,
    fault: &yaml_fault_t,
) -> Result<(), AllocError> {
    if is_at_end(source, place) {
        text.push_str(" at the end of the text")?;
    }
    match fault.context {
        Some(what) if is_one(fault, place) => write!(text, ", {what}"),
        _ => Ok(()),
    }
}

// Adds the problem at its place, and its source line.
fn push_problem(
    text: &mut String,
    source: Source<'_>,
    place: yaml_mark_t,
    fault: &yaml_fault_t,
) -> Result<(), AllocError> {
    let name = source.name;
    let kind = headline(fault.kind);
    let told = write!(text, "{}: {kind}: {}", At { name, place }, fault.problem);
    let wrong = push_wrong(text, from_place(source, place), fault);
    let around = push_around(text, source, place, fault);
    let excerpt = push_excerpt(text, source, shown_place(source, place));
    told.and(wrong).and(around).and(excerpt)
}

// Adds a place, what is there, and its source line.
fn push_label(
    text: &mut String,
    source: Source<'_>,
    place: yaml_mark_t,
    what: &str,
) -> Result<(), AllocError> {
    let name = source.name;
    write!(text, "{}: {what}", At { name, place })?;
    push_excerpt(text, source, shown_place(source, place))
}

// Adds what helps, where that is known.
fn push_hint(
    text: &mut String,
    source: Source<'_>,
    place: yaml_mark_t,
    fault: &yaml_fault_t,
) -> Result<(), AllocError> {
    match hint_of(source, place, fault) {
        Some(hint) => writeln!(text, "hint: {hint}"),
        None => Ok(()),
    }
}

/// Adds the lines that report a fault of a file's text: `NAME:LINE:COLUMN: K error: PROBLEM`, the source line with a caret under the
/// place, then the context's place in the same way, where there is another one, and a line that helps. Lines and columns count from
/// 1, columns in characters.
pub fn push_fault(
    text: &mut String,
    source: Source<'_>,
    fault: &yaml_fault_t,
) -> Result<(), AllocError> {
    let Some(place) = place_of(source, fault) else {
        return push_placeless(text, source.name, fault);
    };
    let problem = push_problem(text, source, place, fault);
    let context = match fault.context {
        Some(what) if !is_one(fault, place) => push_label(text, source, fault.context_mark, what),
        _ => Ok(()),
    };
    problem
        .and(context)
        .and(push_hint(text, source, place, fault))
}
