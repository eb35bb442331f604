//! What two texts have where they differ.

use crate::chars::{Chars, Next, Source, ends_line};
use crate::excerpt::{columns_in, push_shown};
use crate::place::before_place;
use crate::shown::At;
use std::alloc::{AllocError, Global};
use yaml_scan_types::yaml_mark_t;

// How many characters of a value are shown.
const MOST: u64 = 60;

// One is shown from its beginning on where fewer are before the place of interest.
const SHORT: u64 = 40;

// Else it is shown from that many before it on.
const BEFORE: u64 = 20;

// Stands for what isn't shown of a value.
const CUT: &'static str = "...";

// How many columns are between the longer value and its place.
const GAP: u64 = 8;

/// A part of a text. The places' `index` counts bytes of the text.
#[derive(Clone, Copy)]
pub struct Span<'a> {
    pub source: Source<'a>,
    pub start: yaml_mark_t,
    pub end: yaml_mark_t,
}

/// What is shown of one text: a line of it, and where that begins.
#[derive(Drop)]
pub struct Line {
    pub text: String,
    pub place: yaml_mark_t,
}

// What is left of a text, and its place.
#[derive(Clone, Copy)]
struct Walk<'a> {
    left: Chars<'a>,
    place: yaml_mark_t,
}

impl Walk<'_> {
    fn next(&mut self) -> Next {
        let before = self.left.left.len();
        let next = self.left.next();
        let passed = before.saturating_sub(self.left.left.len());
        self.place.index = self.place.index.saturating_add(passed as u64);
        if ends_line(next) {
            self.place.line = self.place.line.saturating_add(1);
            self.place.column = 0;
        } else {
            self.place.column = self.place.column.saturating_add(1);
        }
        next
    }

    // Goes on after the spaces that a line begins with.
    fn skip_indent(&mut self) {
        if self.place.column > 0 {
            return;
        }
        for _ in 0..self.left.left.len() {
            let before = *self;
            if !matches!(self.next(), Next::Char(' ')) {
                *self = before;
                return;
            }
        }
    }
}

fn is_before(place: yaml_mark_t, other: yaml_mark_t) -> bool {
    place.line < other.line || (place.line == other.line && place.column < other.column)
}

impl<'a> Span<'a> {
    fn walk(&self) -> Walk<'a> {
        Walk {
            left: before_place(self.source, self.start, 0),
            place: self.start,
        }
    }

    // The place, or the end of the part, where it is after that.
    fn within(&self, place: yaml_mark_t) -> yaml_mark_t {
        if is_before(self.end, place) {
            self.end
        } else {
            place
        }
    }

    // The column at which what is shown of the line of a place begins: with the part, or after the spaces that the line begins with.
    fn first_column(&self, at: yaml_mark_t) -> u64 {
        if at.line == self.start.line {
            return self.start.column;
        }
        let mut line = before_place(self.source, at, at.column);
        for column in 0..at.column {
            if !matches!(line.next_char(), Next::Char(' ')) {
                return column;
            }
        }
        at.column
    }

    // How many characters of the line of a place from that column on are in the part.
    fn columns_from(&self, at: yaml_mark_t, column: u64) -> u64 {
        if at.line == self.end.line {
            self.end.column.saturating_sub(column)
        } else {
            u64::MAX
        }
    }

    /// The line of the part that has a place, a long one cut round it.
    pub fn line(&self, alloc: Global, at: yaml_mark_t) -> Result<Line, AllocError> {
        let column = self.first_column(at);
        let before = at.column.saturating_sub(column);
        let (cut, shown) = if before < SHORT {
            ("", before)
        } else {
            (CUT, BEFORE)
        };
        let chars = before_place(self.source, at, shown);
        let columns = self.columns_from(at, at.column.saturating_sub(shown));
        let mut text = String::from_str(alloc, cut)?;
        push_front(&mut text, chars, columns)?;
        let place = yaml_mark_t { column, ..at };
        Ok(Line { text, place })
    }
}

// Adds that many characters of a line, or fewer, without blanks at their end.
fn push_front(text: &mut String, chars: Chars<'_>, columns: u64) -> Result<(), AllocError> {
    let mut line = chars;
    // Blanks that were met since.
    let mut blanks = 0u64;
    for shown in 0..columns {
        let Some(c) = line.next_in_line() else {
            return Ok(());
        };
        if c == ' ' || c == '\t' {
            blanks = blanks.saturating_add(1);
            continue;
        }
        if shown >= MOST {
            return text.push_str(CUT);
        }
        for _ in 0..blanks {
            text.push(' ')?;
        }
        blanks = 0;
        push_shown(text, c)?;
    }
    Ok(())
}

/// Where two parts of texts first differ, spaces that lines begin with aside; where they begin, if
/// they don't.
pub fn parted(first: Span<'_>, second: Span<'_>) -> (yaml_mark_t, yaml_mark_t) {
    let mut one = first.walk();
    let mut two = second.walk();
    for _ in 0..first.source.input.len() {
        one.skip_indent();
        two.skip_indent();
        if is_before(first.end, one.place) && is_before(second.end, two.place) {
            break;
        }
        let places = (first.within(one.place), second.within(two.place));
        match (one.next(), two.next()) {
            (Next::Char(a), Next::Char(b)) if a == b => {}
            _ => return places,
        }
    }
    (first.start, second.start)
}

impl Line {
    /// How many columns are between the line's start and a place.
    pub fn columns(&self) -> u64 {
        columns_in(&self.text).saturating_add(GAP)
    }
}

/// Adds a line, and its place after that many columns.
pub fn push_line(
    text: &mut String,
    sign: &str,
    name: &str,
    line: &Line,
    columns: u64,
) -> Result<(), AllocError> {
    text.push_str(sign)?;
    text.push_str(&line.text)?;
    for _ in columns_in(&line.text)..columns {
        text.push(' ')?;
    }
    let place = line.place;
    writeln!(text, "{}", At { name, place })
}
