//! Looks at a text. After its end is a byte 0, which it doesn't hold.

ghost use Rattle.std.specs.Prelude.{◌≡◌, ◌≤◌, ◌<◌, ◌+◌, ◌-◌, ◌&&◌, ◌==◌, nat_lt, ℕ, true, false, length};
ghost use Rattle.yaml_scan_types.specs.Ascii as ascii;
ghost use Rattle.yaml_scan_types.specs.Marks.{byte, break_width, column_at, is_blank, is_blank_or_end};
ghost use Rattle.yaml_scan_types.specs.Classes.{is_digit_byte};
ghost use Rattle.yaml_scan_model.specs.Breaks.{feed_at, is_document_indicator};
ghost use Rattle.yaml_scan_model.specs.Runs as runs;
ghost use Rattle.yaml_scan_text.specs.White as white;

use yaml_scan_runs::{LINE, run_end};

/// The byte that is there, or 0 at the end.
// In line: asked at each step.
#[inline(always)]
pub fn byte(text: &[u8], at: usize) -> u8
    ensures { result ≡ byte text.now at }
{
    if at < text.len() { text[at] } else { 0 }
}

/// How many bytes the break has that is there, or 0.
#[tactic(auto, using(crate::proofs::Words::within), unfolding(yaml_scan_types::specs::Marks::break_of))]
pub fn break_width(text: &[u8], at: usize) -> usize
    ensures { result ≡ break_width text.now at }
{
    match byte(text, at) {
        b'\n' => 1,
        b'\r' => if byte(text, at + 1) == b'\n' { 2 } else { 1 },
        0xC2 => if byte(text, at + 1) == 0x85 { 2 } else { 0 },
        0xE2 => {
            let wide = byte(text, at + 1) == 0x80 && matches!(byte(text, at + 2), 0xA8 | 0xA9);
            if wide { 3 } else { 0 }
        }
        _ => 0,
    }
}

/// What the break there reads as: LS and PS as themselves, others as a line feed; nothing where
/// there is no break.
#[tactic(auto, using(crate::proofs::TextLemmas::three_inside, crate::proofs::TextLemmas::three_value, crate::proofs::Words::feed_other))]
pub fn feed(text: &[u8], at: usize) -> &[u8]
    ensures { result.now ≡ feed_at text.now at }
{
    match break_width(text, at) {
        0 => &[],
        3 => &text[at..at + 3],
        _ => b"\n",
    }
}

/// Whether it is a space or a tab.
pub fn is_blank(byte: u8) -> bool
    ensures { result ≡ is_blank byte }
{
    byte == b' ' || byte == b'\t'
}

/// Whether a blank, a break or the end is there.
#[tactic(auto, unfolding(yaml_scan_types::specs::Marks::break_of))]
pub fn is_blank_or_end(text: &[u8], at: usize) -> bool
    ensures { result ≡ is_blank_or_end text.now at }
{
    match byte(text, at) {
        b' ' | b'\t' | b'\n' | b'\r' | 0 => true,
        0xC2 | 0xE2 => break_width(text, at) > 0,
        _ => false,
    }
}

/// The place after the spaces there.
#[tactic(auto, using(crate::proofs::RunLemmas::spaces_run, crate::proofs::RunLemmas::spaces_none, crate::proofs::Words::within))]
pub fn skip_spaces(text: &[u8], from: usize) -> usize
    ensures { result ≡ runs.past_spaces text.now from }
{
    if byte(text, from) != b' ' {
        return from;
    }
    yaml_scan_runs::skip_spaces(text, from)
}

/// The place after the blanks there.
#[tactic(auto, using(crate::proofs::RunLemmas::blanks_none, crate::proofs::Words::within))]
pub fn skip_blanks(text: &[u8], from: usize) -> usize
    ensures { result ≡ runs.past_blanks text.now from }
{
    if !is_blank(byte(text, from)) {
        return from;
    }
    yaml_scan_runs::skip_blanks(text, from)
}

/// The place before the blanks that end there, but not before `least`.
pub fn trim_blanks(text: &[u8], least: usize, end: usize) -> usize
    requires order { least ≤ end }
    requires inside { end ≤ length text.now }
    ensures { white.IsTrimmed text.now least end result }
{
    let mut at = end;
    'bytes: while least < at && is_blank(text[at - 1]) {
        at -= 1;
    }
    at
}

/// Whether neither a break nor the end is there.
pub fn is_text(text: &[u8], at: usize) -> bool
    ensures { result ≡ runs.is_text text.now at }
{
    byte(text, at) != 0 && break_width(text, at) == 0
}

/// The place of the break that ends the line there, or the end.
pub fn line_end(text: &[u8], from: usize) -> usize
    requires { from ≤ length text.now }
    ensures { result ≡ runs.line_end text.now from }
{
    let mut at = from;
    'runs: loop {
        at = run_end(text, at, text.len(), &LINE);
        if !is_text(text, at) {
            return at;
        }
        at += 1;
    }
}

/// Whether `---` or `...`, of three such bytes, is there before a blank, a break or the end.
pub fn is_thrice(text: &[u8], at: usize, mark: u8) -> bool
    requires { 0 < mark }
    ensures { result ≡ white.is_thrice mark text.now at }
{
    byte(text, at) == mark
        && byte(text, at + 1) == mark
        && byte(text, at + 2) == mark
        && is_blank_or_end(text, at + 3)
}

/// Whether `---` or `...` is there, where a line starts.
#[tactic(auto, using(crate::proofs::TextLemmas::is_mark))]
pub fn is_document_mark(text: &[u8], at: usize) -> bool
    ensures { column_at text.now at ≡ 0 → result ≡ is_document_indicator text.now at }
{
    is_thrice(text, at, b'-') || is_thrice(text, at, b'.')
}

/// Whether a tab is there, in a line that starts at the other place, that is left of the margin.
pub fn is_bad_tab(text: &[u8], at: usize, line: usize, margin: usize) -> bool
    requires { line ≤ at }
    ensures { result ≡ (byte text.now at == ascii.tab && nat_lt (at - line) margin) }
{
    byte(text, at) == b'\t' && at - line < margin
}

/// One of `0-9`.
#[tactic(auto, unfolding(yaml_scan_types::specs::Classes::is_digit_byte))]
pub fn is_digit(byte: u8) -> bool
    ensures { result ≡ is_digit_byte byte }
{
    byte >= b'0' && byte <= b'9'
}
