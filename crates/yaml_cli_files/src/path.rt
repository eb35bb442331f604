//! Paths from a stream's documents inwards, as people are shown them: `[0].service.ports[1]`, the document's number first.

use crate::chars::{Chars, Next};
use crate::excerpt::{is_hidden, push_shown};
use std::alloc::AllocError;
use yaml_scan_types::yaml_encoding_t;

// How many characters of a key are shown.
const MOST_OF_KEY: usize = 40;

/// A step inwards.
#[derive(Clone, Copy)]
pub enum Step<'k> {
    /// To a document or an item, by its number from 0.
    Item(u64),
    /// To the key itself of a pair, by the pair's number from 0.
    Key(u64),
    /// To the value of a pair whose key is no scalar, by the pair's number from 0.
    Value(u64),
    /// To the value of a pair whose key is a scalar of this text.
    Named(&'k [u8]),
}

/// Adds a step.
pub fn push_step(path: &mut String, step: Step<'_>) -> Result<(), AllocError> {
    let (open, number, close) = match step {
        Step::Item(number) => ("[", number, "]"),
        Step::Key(pair) => (".<key ", pair, ">"),
        Step::Value(pair) => (".<value ", pair, ">"),
        Step::Named(key) => {
            return push_named(path, Chars::of(key, yaml_encoding_t::YAML_UTF8_ENCODING));
        }
    };
    write!(path, "{open}{number}{close}")
}

// A key that is no more than a word is shown as it is.
fn push_named(path: &mut String, key: Chars<'_>) -> Result<(), AllocError> {
    let (open, close) = if is_word(key) {
        (".", "")
    } else {
        ("[\"", "\"]")
    };
    let begun = path.push_str(open);
    let front = push_front(path, key);
    begun.and(front).and(path.push_str(close))
}

// Whether a key has some characters, and none but letters, digits, `_`, `-` and what isn't ASCII and can be seen.
fn is_word(mut key: Chars<'_>) -> bool {
    if key.left.is_empty() {
        return false;
    }
    for _ in 0..MOST_OF_KEY {
        match key.next_char() {
            Next::Char('_' | '-' | '0'..='9' | 'A'..='Z' | 'a'..='z') => {}
            Next::Char(c) if !c.is_ascii() && !c.is_whitespace() && !is_hidden(c) => {}
            next => return matches!(next, Next::End),
        }
    }
    key.left.is_empty()
}

// Adds a key, a long one cut, with `\` before what would end it.
fn push_front(path: &mut String, mut key: Chars<'_>) -> Result<(), AllocError> {
    for _ in 0..MOST_OF_KEY {
        let c = match key.next_char() {
            Next::Char(c) => c,
            Next::Broken => '\u{FFFD}',
            Next::End => return Ok(()),
        };
        if c == '"' || c == '\\' {
            path.push('\\')?;
        }
        push_shown(path, c)?;
    }
    path.push_str(if key.left.is_empty() { "" } else { "..." })
}
