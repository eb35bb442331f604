//! UTF-8.

ghost use Rattle.std.specs.Prelude.{◌≡◌, ◌+◌, ◌<◌, ◌≤◌, ◌^◌, ℕ, true, IfOk, length};
ghost use Rattle.yaml_scan_model.specs.declared.name.yaml_encoding_t.TheVariants.{YAML_UTF8_ENCODING};
ghost use Rattle.yaml_scan_types.specs.Marks.{byte};
ghost use Rattle.yaml_scan_types.specs.Classes.{width_of};
ghost use Rattle.yaml_scan_decode.specs.Characters.{utf8_at, valued_at, sequence_of, least_code, leading_bits, is_trailing};
ghost use Rattle.yaml_scan_decode.specs.Steps.{is_plain, trailing_bits, outcome, GoesTo, HasCharacter};
ghost use Rattle.yaml_scan_decode.specs.Decoding.{characters};

use crate::offence::{Character, Offence, ReaderProblem, allowed_character};
use yaml_scan_runs::plain_end;
use yaml_scan_types::WIDTH;

// What the character's byte that many places on adds to its code: 0 where the character has no such byte.
#[tactic(auto, unfolding(crate::specs::Steps::trailing_bits))]
fn trailing_bits(bytes: &[u8], at: usize, width: usize, ahead: usize) -> Result<u32, Offence>
    requires few { width ≤ 4 }
    requires near { ahead < 4 }
    requires inside { at + width ≤ length bytes.now }
    ensures value { result ≡ trailing_bits at width ahead (byte bytes.now (at + ahead)) }
    ensures small { IfOk result (λ v. v < 64) }
{
    if ahead >= width {
        return Ok(0);
    }
    let place = at + ahead;
    let byte = bytes[place];
    if byte >= 0x80 && byte < 0xC0 {
        Ok(u32::from(byte - 0x80))
    } else {
        Err(Offence::of(ReaderProblem::InvalidTrailingOctet, place, i32::from(byte)))
    }
}

// What the first byte of a character of that many bytes adds to its code.
#[tactic(auto, unfolding(crate::specs::Characters::leading_bits, yaml_scan_types::specs::Classes::width_of))]
fn leading_bits(byte: u8, width: usize) -> u32
    requires some { 0 < width }
    requires width { width_of byte ≡ width }
    ensures value { result ≡ leading_bits width byte }
    ensures small { result < 128 }
{
    match width {
        1 => u32::from(byte),
        2 => u32::from(byte - 0xC0),
        3 => u32::from(byte - 0xE0),
        _ => u32::from(byte - 0xF0),
    }
}

// The least code that needs that many bytes.
#[tactic(auto, unfolding(crate::specs::Characters::least_code))]
fn least_code(width: usize) -> u32
    ensures { result ≡ least_code width }
{
    match width {
        1 => 0,
        2 => 0x80,
        3 => 0x800,
        _ => 0x1_0000,
    }
}

// The character of that code, which that many bytes there spell, if they are its shortest form and it is one.
#[tactic(auto, unfolding(crate::specs::Characters::valued_at))]
fn valued_character(at: usize, width: usize, code: u32) -> Result<Character, Offence>
    requires { code < 2 ^ 31 }
    ensures { result ≡ valued_at at width code }
{
    if code < least_code(width) {
        return Err(Offence::of(ReaderProblem::InvalidLength, at, -1));
    }
    if code >= 0xD800 && code < 0xE000 || code > 0x10_FFFF {
        return Err(Offence::of(ReaderProblem::InvalidCharacter, at, code as i32));
    }
    allowed_character(at, width, code)
}

// What that many bytes there spell.
#[tactic(auto, unfolding(crate::specs::Characters::sequence_of, crate::specs::Characters::utf8_code, crate::specs::Steps::trailing_bits))]
fn sequence(bytes: &[u8], at: usize, width: usize) -> Result<Character, Offence>
    requires some { 0 < width }
    requires width { width_of (byte bytes.now at) ≡ width }
    requires few { width ≤ 4 }
    requires inside { at + width ≤ length bytes.now }
    ensures { result ≡ sequence_of width at (byte bytes.now at) (byte bytes.now (at + 1))
        (byte bytes.now (at + 2)) (byte bytes.now (at + 3)) }
{
    let second = trailing_bits(bytes, at, width, 1)?;
    let third = trailing_bits(bytes, at, width, 2)?;
    let fourth = trailing_bits(bytes, at, width, 3)?;
    let lead = leading_bits(bytes[at], width);
    let code = match width {
        1 => lead,
        2 => lead * 64 + second,
        3 => (lead * 64 + second) * 64 + third,
        _ => ((lead * 64 + second) * 64 + third) * 64 + fourth,
    };
    valued_character(at, width, code)
}

/// The character that is there, or what is wrong.
#[tactic(auto, using(crate::proofs::DecodeLemmas::width_small), unfolding(crate::specs::Characters::utf8_of))]
fn utf8_character(bytes: &[u8], at: usize) -> Result<Character, Offence>
    requires { at < length bytes.now }
    ensures { result ≡ utf8_at bytes.now at }
{
    let width = WIDTH(bytes, at);
    if width == 0 {
        return Err(Offence::of(ReaderProblem::InvalidLeadingOctet, at, i32::from(bytes[at])));
    }
    if bytes.len() - at < width {
        return Err(Offence::of(ReaderProblem::IncompleteSequence, at, -1));
    }
    sequence(bytes, at, width)
}

// Whether the byte is an ASCII character that a stream may hold.
#[tactic(auto, unfolding(crate::specs::Steps::is_plain, crate::specs::Characters::is_allowed))]
fn is_plain(byte: u8) -> bool
    ensures { result ≡ is_plain byte }
{
    byte >= 0x20 && byte < 0x7F || byte == b'\n' || byte == b'\r' || byte == b'\t'
}

// Whether it is a byte of a character after its first.
fn continues(byte: u8) -> bool
    ensures { result ≡ is_trailing byte }
{
    byte >= 0x80 && byte < 0xC0
}

// How many bytes the character there has, if it is one of U+00C0 to U+07FF or of U+1000 to U+CFFF, which a stream may hold; else 0.
#[tactic(auto, using(crate::proofs::CommonLemmas::common_two, crate::proofs::CommonLemmas::common_three))]
fn common_width(bytes: &[u8], at: usize) -> usize
    requires { at < length bytes.now }
    ensures { 0 < result → HasCharacter bytes.now at result }
{
    let left = bytes.len() - at;
    match bytes[at] {
        0xC3..=0xDF if left >= 2 && continues(bytes[at + 1]) => 2,
        0xE1..=0xEC if left >= 3 && continues(bytes[at + 1]) && continues(bytes[at + 2]) => 3,
        _ => 0,
    }
}

// The place after the character there.
#[tactic(auto, using(crate::proofs::SpellingLemmas::checks_none))]
fn past_character(bytes: &[u8], at: usize) -> Result<usize, Offence>
    requires { at < length bytes.now }
    ensures { GoesTo bytes.now at result }
{
    let width = common_width(bytes, at);
    if width > 0 {
        return Ok(at + width);
    }
    Ok(at + utf8_character(bytes, at)?.width)
}

/// Checks the characters from that place on.
#[tactic(auto, using(crate::proofs::SpellingLemmas::ended), unfolding(crate::specs::Steps::outcome_at))]
pub fn check_utf8(bytes: &[u8], start: usize) -> Result<(), Offence>
    ensures { result ≡ outcome (characters (length bytes.now) YAML_UTF8_ENCODING bytes.now start) }
{
    let mut at = start;
    'runs: while at < bytes.len() {
        at = plain_end(bytes, at);
        'others: while at < bytes.len() && !is_plain(bytes[at]) {
            at = past_character(bytes, at)?;
        }
    }
    Ok(())
}
