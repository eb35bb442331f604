//! Double quoted scalars (YAML 1.1, 9.1.1), with escapes (5.6).

ghost use Rattle.std.specs.Prelude.{◌≡◌, ◌<◌, if◌then◌else◌};
ghost use Rattle.yaml_scan_types.specs.Ascii as ascii;
ghost use Rattle.std.specs.Str.{chars};
ghost use Rattle.yaml_emit_layout.specs.Hex.{hex_digit, hex_2};
ghost use Rattle.yaml_emit_layout.specs.Text.{is_break};
ghost use Rattle.yaml_emit_layout.specs.Layout.{◌▹◌, stay, choose, when, char, letters, gap, is_past};
ghost use Rattle.yaml_emit_layout.specs.Quoted.{is_printable, needs_escape, escape_letter, hex_4, hex_8, escape_text, fold, escaped, quoted_char, quoted_body, quoted_text};
ghost use Rattle.yaml_emit_output.specs.Draft.{Lays};
ghost use Rattle.yaml_emit_scalars.specs.On.{IsOn};

use crate::letters::{first, is_break, is_empty};
use crate::run::{put_run, quoted_in};
use yaml_emit_layout::Page;
use yaml_emit_output::{Draft, split_first};

/// A digit of `0-9 A-F`.
#[tactic(auto, unfolding(yaml_emit_layout::specs::Hex::hex_digit))]
pub fn hex(d: u32) -> u8
    requires { d < 16 }
    ensures digit { result ≡ hex_digit d }
    ensures ascii { result < 0x80 }
{
    if d < 10 { 48 + d as u8 } else { 55 + d as u8 }
}

fn put_hex_2(draft: &mut Draft, n: u32)
    requires { n < 0x100 }
    ensures { Lays draft.old draft.new (letters (hex_2 n)) stay }
{
    draft.put_text(&[hex(n / 16), hex(n % 16)]);
}

fn put_hex_4(draft: &mut Draft, n: u32)
    requires { n < 0x1_0000 }
    ensures { Lays draft.old draft.new (letters (hex_4 n)) stay }
{
    put_hex_2(draft, n / 0x100);
    put_hex_2(draft, n % 0x100);
}

fn put_hex_8(draft: &mut Draft, n: u32)
    ensures { Lays draft.old draft.new (letters (hex_8 n)) stay }
{
    put_hex_4(draft, n / 0x1_0000);
    put_hex_4(draft, n % 0x1_0000);
}

// The letter that spells the character after a backslash, or 0.
#[tactic(auto, unfolding(yaml_emit_layout::specs::Quoted::escape_letter))]
fn letter_of(c: char) -> u8
    ensures letter { result ≡ escape_letter c }
    ensures ascii { result < 0x80 }
{
    match c {
        '\0' => b'0',
        '\x07' => b'a',
        '\x08' => b'b',
        '\x09' => b't',
        '\x0A' => b'n',
        '\x0B' => b'v',
        '\x0C' => b'f',
        '\x0D' => b'r',
        '\x1B' => b'e',
        '"' => b'"',
        '\\' => b'\\',
        '\u{85}' => b'N',
        '\u{A0}' => b'_',
        '\u{2028}' => b'L',
        '\u{2029}' => b'P',
        _ => 0,
    }
}

/// Whether a character may be in a text as it is.
pub(crate) fn is_printable(c: char) -> bool
    ensures { result ≡ is_printable c }
{
    let n = c as u32;
    n == 0x0A
        || (0x20 <= n && n <= 0x7E)
        || (0xA0 <= n && n <= 0xD7FF)
        || (0xE000 <= n && n <= 0xFFFD && n != 0xFEFF)
        || (0x1_0000 <= n && n <= 0x10_FFFF)
}

#[tactic(auto, unfolding(yaml_emit_layout::specs::Quoted::needs_escape))]
fn needs_escape(unicode: bool, c: char) -> bool
    ensures { result ≡ needs_escape unicode c }
{
    let n = c as u32;
    !is_printable(c) || (!unicode && 0x80 <= n) || is_break(c) || n == 34 || n == 92
}

// A backslash, and a letter or a number.
fn put_escape(draft: &mut Draft, c: char)
    ensures { Lays draft.old draft.new (letters (escape_text c)) stay }
{
    let letter = letter_of(c);
    let n = c as u32;
    if letter != 0 {
        draft.put_text(&[b'\\', letter]);
    } else if n < 0x100 {
        draft.put_text(b"\\x");
        put_hex_2(draft, n);
    } else if n < 0x1_0000 {
        draft.put_text(b"\\u");
        put_hex_4(draft, n);
    } else {
        draft.put_text(b"\\U");
        put_hex_8(draft, n);
    }
}

fn put_escaped(draft: &mut Draft, unicode: bool, c: char)
    ensures { Lays draft.old draft.new (escaped unicode c) stay }
{
    if needs_escape(unicode, c) {
        put_escape(draft, c);
    } else {
        draft.put_char(c);
    }
}

// The backslash before a space that begins a line, or 0.
fn fold_mark(spaced: bool) -> u8
    ensures mark { result ≡ (if spaced then ascii.backslash else 0) }
    ensures ascii { result < 0x80 }
{
    if spaced { b'\\' } else { 0 }
}

// A break and the indentation, and a backslash where a space follows.
fn put_fold(draft: &mut Draft, page: Page, rest: &str)
    requires { IsOn page draft.old }
    ensures { Lays draft.old draft.new (fold page (chars rest.now)) stay }
{
    let mark = fold_mark(first(rest) == ' ');
    draft.put_new_line();
    draft.put_line(false, page.indentation as usize, mark, false);
}

fn put_fold_or(draft: &mut Draft, page: Page, c: char, rest: &str)
    requires { IsOn page draft.old }
    ensures { Lays draft.old draft.new
        (choose (is_past page.width) (fold page (chars rest.now)) (char c)) stay }
{
    if draft.is_past() {
        put_fold(draft, page, rest);
    } else {
        draft.put_char(c);
    }
}

// A character of a value, after another one and before the rest.
#[tactic(auto, unfolding(yaml_emit_layout::specs::Quoted::quoted_char))]
fn put_quoted_char(draft: &mut Draft, page: Page, before: char, c: char, rest: &str)
    requires { IsOn page draft.old }
    ensures { Lays draft.old draft.new (quoted_char page before c (chars rest.now)) stay }
{
    if page.cuts && c == ' ' && before != ' ' && !is_empty(rest) {
        put_fold_or(draft, page, c, rest);
    } else {
        put_escaped(draft, page.unicode, c);
    }
}

fn put_quoted_body(draft: &mut Draft, page: Page, value: &str)
    requires { IsOn page draft.old }
    ensures { Lays draft.old draft.new (quoted_body page ascii.space (chars value.now)) stay }
{
    let body = quoted_in(page.unicode);
    let (mut last, mut left) = put_run(draft, body, page.cuts, ' ', value);
    while let Some((c, rest)) = split_first(left) {
        put_quoted_char(draft, page, last, c, rest);
        let (latest, behind) = put_run(draft, body, page.cuts, c, rest);
        last = latest;
        left = behind;
    }
}

/// A double quoted scalar, after a space where one is due. Characters that are not printable, breaks, `"`, `\` and,
/// with unicode off, what is not ASCII are escaped. After the width a space becomes a break and the indentation, unless the
/// scalar is a simple key, a space goes before, or the space is first or last.
pub fn put_double_quoted(draft: &mut Draft, page: Page, value: &str)
    requires { IsOn page draft.old }
    ensures { Lays draft.old draft.new (quoted_text page (chars value.now)) stay }
{
    draft.put_gap();
    draft.put_text(b"\"");
    put_quoted_body(draft, page, value);
    draft.put_text(b"\"");
}
