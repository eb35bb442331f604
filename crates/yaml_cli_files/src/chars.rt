//! The characters of a text, as far as its bytes spell any.

use bstr::{decode_last_utf8, decode_utf8};
use yaml_scan_types::yaml_encoding_t;

// How many bytes are looked at in a row.
const ROW: usize = 32;

/// The text of a file: how the file is called, its bytes, and how they are encoded.
#[derive(Clone, Copy)]
pub struct Source<'a> {
    pub name: &'a str,
    pub input: &'a [u8],
    pub from: yaml_encoding_t,
}

/// What comes next in a text.
#[derive(Clone, Copy)]
pub(crate) enum Next {
    Char(char),
    // Bytes that spell no character.
    Broken,
    End,
}

/// What is left of a text.
#[derive(Clone, Copy)]
pub(crate) struct Chars<'a> {
    pub(crate) left: &'a [u8],
    form: yaml_encoding_t,
}

// The first unit of a UTF-16 text.
fn unit_of(bytes: &[u8], form: yaml_encoding_t) -> Option<u16> {
    match bytes {
        [high, low, ..] if form == yaml_encoding_t::YAML_UTF16BE_ENCODING => {
            Some(u16::from_be_bytes([*high, *low]))
        }
        [low, high, ..] => Some(u16::from_le_bytes([*low, *high])),
        _ => None,
    }
}

// The first character of a UTF-16 text, and how many bytes it has.
fn decode_utf16(bytes: &[u8], form: yaml_encoding_t) -> (Option<char>, usize) {
    let Some(unit) = unit_of(bytes, form) else {
        return (None, 1);
    };
    let Some(low) = unit_of(bytes.get(2..).unwrap_or(b""), form) else {
        return (char::from_u32(u32::from(unit)), 2);
    };
    match char::decode_utf16([unit, low]).next() {
        Some(Ok(c)) if c <= '\u{FFFF}' => (Some(c), 2),
        Some(Ok(c)) => (Some(c), 4),
        _ => (None, 4),
    }
}

/// Whether that ends a line.
pub(crate) fn ends_line(next: Next) -> bool {
    matches!(
        next,
        Next::Char('\n' | '\r' | '\u{85}' | '\u{2028}' | '\u{2029}')
    )
}

// What is after the byte order mark of a text, and the encoding that the mark shows.
fn detected(input: &[u8]) -> (&[u8], yaml_encoding_t) {
    if let Some(left) = input.strip_prefix(b"\xFF\xFE") {
        return (left, yaml_encoding_t::YAML_UTF16LE_ENCODING);
    }
    if let Some(left) = input.strip_prefix(b"\xFE\xFF") {
        return (left, yaml_encoding_t::YAML_UTF16BE_ENCODING);
    }
    let left = input.strip_prefix(b"\xEF\xBB\xBF").unwrap_or(input);
    (left, yaml_encoding_t::YAML_UTF8_ENCODING)
}

impl<'a> Chars<'a> {
    /// All of them, after a byte order mark that shows their encoding.
    pub(crate) fn of(input: &'a [u8], from: yaml_encoding_t) -> Chars<'a> {
        let (left, form) = match from {
            yaml_encoding_t::YAML_ANY_ENCODING => detected(input),
            form => (input, form),
        };
        Chars { left, form }
    }

    /// What is left from that many characters before a byte of a text in UTF-8 on; nothing where it is in another encoding.
    pub(crate) fn before(self, index: u64, characters: u64) -> Option<Chars<'a>> {
        if self.form != yaml_encoding_t::YAML_UTF8_ENCODING {
            return None;
        }
        let mut at = index as usize;
        for _ in 0..characters {
            let (_, size) = decode_last_utf8(self.left.get(..at)?);
            at = at.saturating_sub(size);
        }
        let left = self.left.get(at..)?;
        Some(Chars { left, ..self })
    }

    /// The next character, whatever it is.
    pub(crate) fn next_char(&mut self) -> Next {
        if self.left.is_empty() {
            return Next::End;
        }
        let (found, size) = match self.form {
            yaml_encoding_t::YAML_UTF8_ENCODING => decode_utf8(self.left),
            form => decode_utf16(self.left, form),
        };
        self.left = self.left.get(size..).unwrap_or(b"");
        match found {
            Some(c) => Next::Char(c),
            None => Next::Broken,
        }
    }

    /// The next character; a CR and a LF after it are one line feed.
    pub(crate) fn next(&mut self) -> Next {
        let next = self.next_char();
        if let Next::Char('\r') = next {
            let mut ahead = *self;
            if let Next::Char('\n') = ahead.next_char() {
                *self = ahead;
            }
            return Next::Char('\n');
        }
        next
    }

    /// The next character of the line, U+FFFD for bytes that spell none; none at its end.
    pub(crate) fn next_in_line(&mut self) -> Option<char> {
        let next = self.next();
        match next {
            Next::Char(c) if !ends_line(next) => Some(c),
            Next::Broken => Some('\u{FFFD}'),
            _ => None,
        }
    }

    // Goes on after the row of bytes that comes next and says how many lines end in it, where these are fewer than `most`,
    // each ends by a LF or a CR LF and, if not `wide`, each byte is a character. A NEL begins with C2, a LS and a PS with E2,
    // which occur only at the beginning of a character or of bytes that spell none.
    // Inlined, and without an early exit, so that the bytes are looked at side by side.
    #[inline(always)]
    fn skip_row(&mut self, most: u64, wide: bool) -> Option<u64> {
        let row = match self.form {
            yaml_encoding_t::YAML_UTF8_ENCODING => self.left.get(..ROW)?,
            _ => return None,
        };
        let mut plain = true;
        let mut lines = 0u8;
        let mut before = b'\n';
        for byte in row {
            let begins_none = wide & (*byte != 0xC2) & (*byte != 0xE2);
            plain = plain & ((*byte < 0x80) | begins_none) & ((before != b'\r') | (*byte == b'\n'));
            lines = lines.wrapping_add(u8::from(*byte == b'\n'));
            before = *byte;
        }
        let lines = u64::from(lines);
        if !plain || before == b'\r' || lines >= most {
            return None;
        }
        self.left = self.left.get(ROW..).unwrap_or(b"");
        Some(lines)
    }

    /// Goes on after that many ends of lines, or to the text's end; answers how many are missing.
    pub(crate) fn skip_lines(&mut self, lines: u64) -> u64 {
        let mut missing = lines;
        for _ in 0..self.left.len() {
            if let Some(ended) = self.skip_row(missing, true) {
                missing = missing.saturating_sub(ended);
                continue;
            }
            for _ in 0..ROW {
                if missing == 0 || self.left.is_empty() {
                    return missing;
                }
                if ends_line(self.next()) {
                    missing -= 1;
                }
            }
        }
        missing
    }

    /// Goes on by that many characters of the line, or after the line's end.
    pub(crate) fn skip_columns(&mut self, columns: u64) {
        let mut left = columns;
        for _ in 0..self.left.len() {
            if left >= ROW as u64 && self.skip_row(1, false).is_some() {
                left -= ROW as u64;
                continue;
            }
            for _ in 0..ROW {
                if left == 0 || self.next_in_line().is_none() {
                    return;
                }
                left -= 1;
            }
        }
    }
}
