//! Where a fault is.

use crate::chars::{Chars, Next, Source};
use yaml_scan_types::{yaml_error_type_t, yaml_fault_t, yaml_mark_t};

/// The place of the character that has that byte, or of the first bytes before it that spell none.
pub fn place_of_byte(source: Source<'_>, offset: u64) -> yaml_mark_t {
    let input = source.input.get(..offset as usize).unwrap_or(source.input);
    let before = Source { input, ..source };
    let line = u64::MAX - Chars::of(input, source.from).skip_lines(u64::MAX);
    let mut place = yaml_mark_t {
        index: offset,
        line,
        column: 0,
    };
    let mut chars = from_place(before, place);
    for _ in 0..input.len() {
        let Next::Char(_) = chars.next() else {
            break;
        };
        place.column = place.column.saturating_add(1);
    }
    place
}

/// The place of the problem, where it has one: a reader's is counted in what could be decoded.
pub(crate) fn place_of(source: Source<'_>, fault: &yaml_fault_t) -> Option<yaml_mark_t> {
    match fault.kind {
        yaml_error_type_t::YAML_READER_ERROR => Some(place_of_byte(source, fault.offset)),
        yaml_error_type_t::YAML_SCANNER_ERROR
        | yaml_error_type_t::YAML_PARSER_ERROR
        | yaml_error_type_t::YAML_COMPOSER_ERROR => Some(fault.problem_mark),
        _ => None,
    }
}

/// What is left of a text from a place on.
pub(crate) fn from_place(source: Source<'_>, place: yaml_mark_t) -> Chars<'_> {
    let mut chars = Chars::of(source.input, source.from);
    chars.skip_lines(place.line);
    chars.skip_columns(place.column);
    chars
}

/// The same from that many characters before it in that line on, where its `index` counts bytes of the text: then a text in UTF-8
/// isn't gone through.
pub(crate) fn before_place(source: Source<'_>, place: yaml_mark_t, characters: u64) -> Chars<'_> {
    match Chars::of(source.input, source.from).before(place.index, characters) {
        Some(chars) => chars,
        None => {
            let column = place.column.saturating_sub(characters);
            from_place(source, yaml_mark_t { column, ..place })
        }
    }
}

// How many characters the line has.
fn columns_of(mut line: Chars<'_>) -> u64 {
    let mut columns = 0u64;
    for _ in 0..line.left.len() {
        if line.next_in_line().is_none() {
            break;
        }
        columns = columns.saturating_add(1);
    }
    columns
}

/// Whether the text ends at a place.
pub(crate) fn is_at_end(source: Source<'_>, place: yaml_mark_t) -> bool {
    from_place(source, place).left.is_empty()
}

/// The place that is shown for one at the end of the text: the end of the last line that has a character, where there is one.
pub(crate) fn shown_place(source: Source<'_>, place: yaml_mark_t) -> yaml_mark_t {
    if place.column > 0 || !is_at_end(source, place) {
        return place;
    }
    let mut last = place;
    let mut chars = Chars::of(source.input, source.from);
    for line in 0..place.line {
        let mut ahead = chars;
        if ahead.next_in_line().is_some() {
            last.line = line;
        }
        chars.skip_lines(1);
    }
    last.column = columns_of(from_place(source, last));
    last
}
