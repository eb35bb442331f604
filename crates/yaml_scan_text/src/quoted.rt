//! Quoted scalars.

ghost use Rattle.std.specs.Prelude.{◌≡◌, ◌<◌, ◌≤◌, ◌+◌, ◌-◌, ◌++◌, ◌&&◌, ◌⊎◌, ◌==◌, ◌^◌, ℕ, true, false, not, length, slice_range, option_map, IfSome, OnOk, if◌then◌else◌};
ghost use Rattle.yaml_scan_types.specs.Ascii as ascii;
ghost use Rattle.yaml_scan_types.specs.Marks.{byte, break_width, splits_break};
ghost use Rattle.yaml_scan_history.specs.Quoted as quoted;
ghost use Rattle.yaml_scan_history.specs.Uris as uris;
ghost use Rattle.yaml_scan_runs.specs.Runs.{RunsTo};
ghost use Rattle.yaml_scan_runs.specs.Runs as runs;
ghost use Rattle.yaml_scan_text.specs.Lines.{IsSpelled, line_start};
ghost use Rattle.yaml_scan_text.specs.PlainRead.{IsHead};
ghost use Rattle.yaml_scan_text.specs.QuotedRead as spec;
ghost use Rattle.yaml_scan_text.specs.Refused.{Keeps};

use crate::fold::{Head, is_marked, push_breaks, take_line};
use crate::refusal::{Refusal, Wrong, wrong_at};
use crate::text::{break_width, byte, skip_blanks, trim_blanks};
use yaml_scan_model::{Context, Problem};
use yaml_scan_runs::{DOUBLE, Run, SINGLE, run_to};

/// A quoted scalar in the reading: from where on bytes aren't taken, the place that is reached, where its line starts, and whether
/// characters beyond ASCII are among it.
#[derive(Clone, Copy)]
pub(crate) struct Quoted {
    pub from: usize,
    pub at: usize,
    pub line: usize,
    pub wide: bool,
}

/// A quoted scalar: the place after it, where that line starts, whether characters beyond ASCII are among it, and whether its value
/// was joined.
#[derive(Clone, Copy, Drop)]
pub struct QuotedScalar {
    pub end: usize,
    pub line: usize,
    pub wide: bool,
    pub joined: bool,
}

/// The scalar whose opening quote is there, in a line that starts at the other place. Its value is what is between the
/// quotes, or joined, where that has an escape or a break.
// Inlined: most scalars end with their first run.
#[inline(always)]
pub fn quoted_scalar(
    arena: &mut Vec<u8>,
    text: &[u8],
    start: usize,
    line: usize,
) -> Result<QuotedScalar, Refusal>
    requires text { IsSpelled text.now }
    requires quote { spec.IsQuote (byte text.now start) }
    requires whole { splits_break text.now start ≡ false }
    requires line { line ≡ line_start text.now start }
    ensures value { spec.ReadsQuoted text.now start arena.old.items arena.new.items result
        (quoted.quoted_at (byte text.now start) text.now start) }
    ensures kept { Keeps arena.old.items arena.new.items }
{
    let quote = byte(text, start);
    let from = start + 1;
    let first = quoted_run(text, from, quote);
    if closes(text, first.end, quote) {
        return Ok(QuotedScalar {
            end: first.end + 1,
            line,
            wide: first.wide,
            joined: false,
        });
    }
    let read = Quoted {
        from,
        at: first.end,
        line,
        wide: first.wide,
    };
    quoted_pieces(arena, text, start, read)
}

/// The scalar that starts there, of which a run is read that doesn't end it.
// Out of line: it is rare, and callers stay small.
#[inline(never)]
fn quoted_pieces(
    arena: &mut Vec<u8>,
    text: &[u8],
    start: usize,
    first: Quoted,
) -> Result<QuotedScalar, Refusal>
    requires text { IsSpelled text.now }
    requires quote { spec.IsQuote (byte text.now start) }
    requires read { spec.IsRead (byte text.now start) text.now start arena.old.items
        arena.old.items first }
    requires goes_on { spec.closes (byte text.now start) text.now first.at ≡ false }
    ensures value { spec.ReadsQuoted text.now start arena.old.items arena.new.items result
        (quoted.quoted_at (byte text.now start) text.now start) }
    ensures kept { Keeps arena.old.items arena.new.items }
{
    let quote = byte(text, start);
    let mut read = first;
    'pieces: loop {
        let taken = piece(arena, text, quote, read)?;
        read = behind_run(text, quote, taken);
        if closes(text, read.at, quote) {
            return closed(arena, text, start, read);
        }
    }
}

/// A scalar in the reading after the run that is there.
fn behind_run(text: &[u8], quote: u8, read: Quoted) -> Quoted
    requires { read.at ≤ length text.now }
    ensures run { RunsTo (spec.may_stop quote) text.now read.at (length text.now) result.at }
    ensures narrow { result.wide ≡ false
        → (read.wide ≡ false) × runs.IsNarrow text.now read.at result.at }
    ensures same { result ≡ record read { at = result.at; wide = result.wide } }
{
    let part = quoted_run(text, read.at, quote);
    Quoted {
        at: part.end,
        wide: read.wide | part.wide,
        ..read
    }
}

/// The bytes there that stand for themselves between those quotes, whatever follows.
// In line: called for each part of a scalar, with its quote known.
#[inline(always)]
fn quoted_run(text: &[u8], from: usize, quote: u8) -> Run
    requires { from ≤ length text.now }
    ensures run { RunsTo (spec.may_stop quote) text.now from (length text.now) result.end }
    ensures narrow { result.wide ≡ false → runs.IsNarrow text.now from result.end }
{
    if quote == b'"' {
        run_to(text, from, text.len(), &DOUBLE)
    } else {
        run_to(text, from, text.len(), &SINGLE)
    }
}

/// Whether the quote that closes the scalar is there.
fn closes(text: &[u8], at: usize, quote: u8) -> bool
    requires { at ≤ length text.now }
    ensures { result ≡ spec.closes quote text.now at }
{
    byte(text, at) == quote && !(quote == b'\'' && byte(text, at + 1) == b'\'')
}

/// The scalar that starts there, and whose closing quote is reached.
fn closed(
    arena: &mut Vec<u8>,
    text: &[u8],
    start: usize,
    read: Quoted,
) -> Result<QuotedScalar, Refusal>
    requires order { read.from ≤ read.at }
    requires inside { read.at < length text.now }
    requires start { start < length text.now }
    ensures value { OnOk result (arena.new.items ≡ (if read.from == start + 1 then arena.old.items
        else arena.old.items ++ slice_range text.now read.from read.at)) }
    ensures scalar { spec.IsClosed start read result }
    ensures kept { Keeps arena.old.items arena.new.items }
{
    let joined = read.from != start + 1;
    if joined {
        arena.extend_from_slice(&text[read.from..read.at])?;
    }
    Ok(QuotedScalar {
        end: read.at + 1,
        line: read.line,
        wide: read.wide,
        joined,
    })
}

/// Takes what is after a run between those quotes, which isn't the closing one.
fn piece(arena: &mut Vec<u8>, text: &[u8], quote: u8, read: Quoted) -> Result<Quoted, Refusal>
    requires text { IsSpelled text.now }
    requires quote { spec.IsQuote quote }
    requires goes_on { spec.closes quote text.now read.at ≡ false }
    requires seat { spec.InQuotes text.now read.line read.at }
    requires order { read.from ≤ read.at }
    ensures value { spec.ReadsPiece quote text.now arena.old.items arena.new.items read result }
    ensures kept { Keeps arena.old.items arena.new.items }
{
    let first = byte(text, read.at);
    if first == 0 {
        return Err(Refusal::Wrong(wrong_at(Problem::EndOfStream, Context::QuotedScalar, read.at)));
    }
    if first == quote {
        return doubled(arena, text, quote, read);
    }
    if break_width(text, read.at) > 0 {
        return fold_lines(arena, text, quote, read);
    }
    if quote == b'"' && first == b'\\' {
        return escape(arena, text, read);
    }
    Ok(Quoted {
        at: read.at + 1,
        wide: true,
        ..read
    })
}

/// Takes the first of the two single quotes there, and what is before it.
fn doubled(arena: &mut Vec<u8>, text: &[u8], quote: u8, read: Quoted) -> Result<Quoted, Refusal>
    requires quote { spec.IsQuote quote }
    requires first { byte text.now read.at ≡ quote }
    requires goes_on { spec.closes quote text.now read.at ≡ false }
    requires seat { spec.InQuotes text.now read.line read.at }
    requires order { read.from ≤ read.at }
    ensures value { spec.ReadsPiece quote text.now arena.old.items arena.new.items read result }
    ensures kept { Keeps arena.old.items arena.new.items }
{
    let next = read.at + 2;
    arena.extend_from_slice(&text[read.from..read.at + 1])?;
    Ok(Quoted {
        from: next,
        at: next,
        ..read
    })
}

/// Takes the break there with the breaks and blanks around it, which are folded, and what is before them.
fn fold_lines(arena: &mut Vec<u8>, text: &[u8], quote: u8, read: Quoted) -> Result<Quoted, Refusal>
    requires text { IsSpelled text.now }
    requires quote { spec.IsQuote quote }
    requires broke { 0 < break_width text.now read.at }
    requires seat { spec.InQuotes text.now read.line read.at }
    requires order { read.from ≤ read.at }
    ensures value { spec.ReadsPiece quote text.now arena.old.items arena.new.items read result }
    ensures kept { Keeps arena.old.items arena.new.items }
{
    let end = trim_blanks(text, read.from, read.at);
    let head = pass_lines(text, read.at)?;
    take_line(arena, text, read.from, end, head.at)?;
    Ok(Quoted {
        from: head.at,
        at: head.at,
        line: head.line,
        wide: read.wide,
    })
}

/// The place after the breaks and blanks there, and where that line starts.
fn pass_lines(text: &[u8], from: usize) -> Result<Head, Wrong>
    requires text { IsSpelled text.now }
    requires broke { 0 < break_width text.now from }
    ensures { spec.PassesLines text.now from result }
{
    let head = skip_lines(text, from);
    if is_marked(text, head) {
        return Err(wrong_at(Problem::DocumentIndicator, Context::QuotedScalar, head.at));
    }
    Ok(head)
}

/// The place after the breaks and blanks there, and where that line starts, whatever is there.
fn skip_lines(text: &[u8], from: usize) -> Head
    requires text { IsSpelled text.now }
    requires broke { 0 < break_width text.now from }
    ensures { IsHead 0 text.now from result }
{
    let mut line = from + break_width(text, from);
    'lines: loop {
        let at = skip_blanks(text, line);
        let width = break_width(text, at);
        if width == 0 {
            return Head { at, line };
        }
        line = at + width;
    }
}

/// Takes what begins with the backslash there, and what is before it.
fn escape(arena: &mut Vec<u8>, text: &[u8], read: Quoted) -> Result<Quoted, Refusal>
    requires text { IsSpelled text.now }
    requires first { byte text.now read.at ≡ ascii.backslash }
    requires seat { spec.InQuotes text.now read.line read.at }
    requires order { read.from ≤ read.at }
    ensures value { spec.ReadsPiece ascii.quote text.now arena.old.items arena.new.items read
        result }
    ensures kept { Keeps arena.old.items arena.new.items }
{
    if break_width(text, read.at + 1) > 0 {
        return escape_line(arena, text, read);
    }
    escape_character(arena, text, read)
}

/// Takes the escaped break there, with the breaks and blanks after it, and what is before it.
fn escape_line(arena: &mut Vec<u8>, text: &[u8], read: Quoted) -> Result<Quoted, Refusal>
    requires text { IsSpelled text.now }
    requires first { byte text.now read.at ≡ ascii.backslash }
    requires broke { 0 < break_width text.now (read.at + 1) }
    requires seat { spec.InQuotes text.now read.line read.at }
    requires order { read.from ≤ read.at }
    ensures value { spec.ReadsPiece ascii.quote text.now arena.old.items arena.new.items read
        result }
    ensures kept { Keeps arena.old.items arena.new.items }
{
    let broken = read.at + 1;
    let head = pass_lines(text, broken)?;
    arena.extend_from_slice(&text[read.from..read.at])?;
    push_breaks(arena, text, broken + break_width(text, broken), head.at)?;
    Ok(Quoted {
        from: head.at,
        at: head.at,
        line: head.line,
        wide: read.wide,
    })
}

/// Takes the escaped character there, and what is before it.
fn escape_character(arena: &mut Vec<u8>, text: &[u8], read: Quoted) -> Result<Quoted, Refusal>
    requires first { byte text.now read.at ≡ ascii.backslash }
    requires none { break_width text.now (read.at + 1) ≡ 0 }
    requires seat { spec.InQuotes text.now read.line read.at }
    requires order { read.from ≤ read.at }
    ensures value { spec.ReadsPiece ascii.quote text.now arena.old.items arena.new.items read
        result }
    ensures kept { Keeps arena.old.items arena.new.items }
{
    arena.extend_from_slice(&text[read.from..read.at])?;
    let next = put_escaped(arena, text, read.at)?;
    Ok(Quoted {
        from: next,
        at: next,
        ..read
    })
}

/// Appends the character that the backslash there begins, and answers the place after.
fn put_escaped(arena: &mut Vec<u8>, text: &[u8], at: usize) -> Result<usize, Refusal>
    requires first { byte text.now at ≡ ascii.backslash }
    requires none { break_width text.now (at + 1) ≡ 0 }
    ensures value { spec.Escapes text.now at arena.old.items arena.new.items result
        (quoted.escape_at text.now at) }
    ensures kept { Keeps arena.old.items arena.new.items }
{
    let letter = byte(text, at + 1);
    let digits = hex_len(letter);
    if digits > 0 {
        return put_coded(arena, text, at + 2, digits);
    }
    let Some(bytes) = simple_escape(letter) else {
        return Err(Refusal::Wrong(wrong_at(
            Problem::UnknownEscape,
            Context::QuotedScalarEscape,
            at,
        )));
    };
    arena.extend_from_slice(bytes)?;
    Ok(at + 2)
}

/// Appends the character whose number that many hexadecimal digits spell there, and answers the place after.
fn put_coded(arena: &mut Vec<u8>, text: &[u8], from: usize, digits: usize) -> Result<usize, Refusal>
    requires few { digits ≤ 8 }
    requires inside { from ≤ length text.now }
    ensures value { spec.Codes text.now from arena.old.items arena.new.items result
        (quoted.coded from (from + digits) (quoted.hex_value text.now from digits)) }
    ensures kept { Keeps arena.old.items arena.new.items }
{
    let Some(value) = hex_value(text, from, digits) else {
        return Err(Refusal::Wrong(wrong_at(
            Problem::NoHexNumber,
            Context::QuotedScalarEscape,
            from,
        )));
    };
    let Some(c) = char::from_u32(value) else {
        return Err(Refusal::Wrong(wrong_at(
            Problem::InvalidCode,
            Context::QuotedScalarEscape,
            from,
        )));
    };
    let mut bytes = [0; 4];
    arena.extend_from_slice(c.encode_utf8(&mut bytes).as_bytes())?;
    Ok(from + digits)
}

/// How many hexadecimal digits follow the letter.
#[tactic(auto, unfolding(yaml_scan_history::specs::Quoted::hex_len))]
fn hex_len(letter: u8) -> usize
    ensures value { result ≡ quoted.hex_len letter }
    ensures few { result ≤ 8 }
{
    match letter {
        b'x' => 2,
        b'u' => 4,
        b'U' => 8,
        _ => 0,
    }
}

/// The value of a hexadecimal digit.
#[tactic(auto, unfolding(yaml_scan_history::specs::Quoted::hex_digit, yaml_scan_history::specs::Uris::hex_digit))]
pub(crate) fn hex_digit(byte: u8) -> Option<u8>
    ensures value { result ≡ quoted.hex_digit byte }
    ensures octet { result ≡ uris.hex_digit byte }
    ensures small { IfSome result (λ d. d < 16) }
{
    match byte {
        b'0'..=b'9' => Some(byte - b'0'),
        b'A'..=b'F' => Some(byte - b'A' + 10),
        b'a'..=b'f' => Some(byte - b'a' + 10),
        _ => None,
    }
}

/// The number that as many hexadecimal digits spell there, eight at most.
#[tactic(auto, using(yaml_scan_history::proofs::EscapeLemmas::hex_refused))]
fn hex_value(text: &[u8], from: usize, digits: usize) -> Option<u32>
    requires few { digits ≤ 8 }
    requires inside { from ≤ length text.now }
    ensures { result ≡ quoted.hex_value text.now from digits }
{
    let mut value = 0;
    'digits: for count in 0..digits {
        let digit = hex_digit(byte(text, from + count))?;
        value = value * 16 + digit as u32;
    }
    Some(value)
}

/// The bytes that a letter stands for after a backslash.
#[tactic(auto, unfolding(yaml_scan_history::specs::Quoted::simple_escape))]
fn simple_escape(letter: u8) -> Option<&'static [u8]>
    ensures { option_map (λ b. b.now) result ≡ quoted.simple_escape letter }
{
    match letter {
        b'0' => Some(&[0]),
        b'a' => Some(&[7]),
        b'b' => Some(&[8]),
        b't' | b'\t' => Some(&[9]),
        b'n' => Some(&[10]),
        b'v' => Some(&[11]),
        b'f' => Some(&[12]),
        b'r' => Some(&[13]),
        b'e' => Some(&[27]),
        b' ' => Some(b" "),
        b'"' => Some(b"\""),
        b'/' => Some(b"/"),
        b'\\' => Some(b"\\"),
        b'N' => Some(&[0xC2, 0x85]),
        b'_' => Some(&[0xC2, 0xA0]),
        b'L' => Some(&[0xE2, 0x80, 0xA8]),
        b'P' => Some(&[0xE2, 0x80, 0xA9]),
        _ => None,
    }
}
