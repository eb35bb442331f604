//! A source line, and a caret under a place in it.

use crate::chars::{Chars, Source};
use crate::place::from_place;
use std::alloc::AllocError;
use unicode_width::UnicodeWidthChar;
use yaml_scan_types::yaml_mark_t;

// A line of no more columns is shown whole.
const WHOLE: u64 = 80;

// A longer line is shown from that many characters before the place on, where there are more than a few before these.
const BEFORE: u64 = 50;

const FEW: u64 = 10;

// And it is shown to that many characters after the place.
const BEHIND: u64 = 30;

// Stands for what isn't shown of a line.
const CUT: &'static str = "...";

/// A character that a terminal doesn't show in its place: a control character, one without width that says how others are
/// shown, or none at all.
pub(crate) fn is_hidden(c: char) -> bool {
    c.is_control()
        || matches!(c, '\u{200B}'..='\u{200F}' | '\u{2028}'..='\u{202E}' | '\u{2060}'..='\u{206F}')
        || matches!(
            c,
            '\u{FEFF}' | '\u{FFF9}'..='\u{FFFB}' | '\u{FFFE}' | '\u{FFFF}'
        )
}

/// Adds a character; a hidden one by its number, except for a tab.
pub(crate) fn push_shown(text: &mut String, c: char) -> Result<(), AllocError> {
    if c != '\t' && is_hidden(c) {
        let code = u32::from(c);
        write!(text, "<U+{code:04X}>")
    } else {
        text.push(c)
    }
}

// How many columns a character takes after that many.
fn width_of(c: char, columns: u64) -> u64 {
    if c == '\t' {
        8 - columns % 8
    } else if is_hidden(c) {
        8
    } else {
        c.width().unwrap_or(1) as u64
    }
}

/// How many columns a text of one line takes.
pub(crate) fn columns_in(text: &str) -> u64 {
    let mut columns = 0u64;
    for c in text.chars() {
        columns = columns.saturating_add(width_of(c, columns));
    }
    columns
}

// Whether the line is shown whole.
fn is_short(mut line: Chars<'_>) -> bool {
    let mut columns = 0u64;
    for _ in 0..4 * WHOLE {
        match line.next_in_line() {
            Some(c) => columns = columns.saturating_add(width_of(c, columns)),
            None => break,
        }
    }
    columns <= WHOLE
}

// Adds what takes as many columns as the character does.
fn push_blank(text: &mut String, c: char) -> Result<(), AllocError> {
    if c == '\t' {
        return text.push('\t');
    }
    for _ in 0..width_of(c, 0) {
        text.push(' ')?;
    }
    Ok(())
}

/// Adds up to that many characters of the line, or what takes as many columns; returns whether the line goes on after them.
pub(crate) fn push_columns(
    text: &mut String,
    mut line: Chars<'_>,
    columns: u64,
    is_shown: bool,
) -> Result<bool, AllocError> {
    for _ in 0..columns {
        let Some(c) = line.next_in_line() else {
            return Ok(false);
        };
        if is_shown {
            push_shown(text, c)?;
        } else {
            push_blank(text, c)?;
        }
    }
    Ok(line.next_in_line().is_some())
}

/// Ends a line, and adds the source line of a place, a long one cut around it, and a caret under the place.
pub(crate) fn push_excerpt(
    text: &mut String,
    source: Source<'_>,
    place: yaml_mark_t,
) -> Result<(), AllocError> {
    let start = from_place(source, yaml_mark_t { column: 0, ..place });
    push_around(text, start, place.column)
}

/// The same, where the line is handed in, or its end from that many characters before the place on.
pub(crate) fn push_around(
    text: &mut String,
    start: Chars<'_>,
    characters: u64,
) -> Result<(), AllocError> {
    let is_whole = is_short(start);
    // The first column that is shown.
    let column = if !is_whole && characters > BEFORE + FEW {
        characters - BEFORE
    } else {
        0
    };
    let before = characters.saturating_sub(column);
    let behind = if is_whole { 4 * WHOLE } else { BEHIND };
    let mut line = start;
    line.skip_columns(column);
    let (cut, blank) = if column > 0 { (CUT, "   ") } else { ("", "") };
    let begun = write!(text, "\n{cut}");
    let shown = push_columns(text, line, before.saturating_add(behind), true);
    let rest = if let Ok(true) = shown { CUT } else { "" };
    let ended = write!(text, "{rest}\n{blank}");
    let blanks = push_columns(text, line, before, false);
    let caret = text.push_str("^\n");
    begun.and(shown).and(ended).and(blanks).and(caret)
}
