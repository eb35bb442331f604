//! UTF-16.

ghost use Rattle.std.specs.Prelude.{◌≡◌, ◌+◌, ◌<◌, ◌≤◌, ◌^◌, ◌++◌, length, true, OnOk, string_bytes, encode_utf8};
ghost use Rattle.std.specs.Char.{IsScalar};
ghost use Rattle.yaml_scan_decode.specs.declared.utf16.DecodeError.TheVariants.{Memory, Offends};
ghost use Rattle.yaml_scan_decode.specs.Characters.{utf16_at, unit_at, encoding_by, is_low_surrogate, is_high_surrogate};
ghost use Rattle.yaml_scan_decode.specs.Decoding.{characters, in_utf8};
ghost use Rattle.yaml_scan_decode.specs.Steps.{DecodesTo};

use crate::offence::{Character, Offence, ReaderProblem, allowed_character};
use std::alloc::{AllocError, Global};

/// Which byte of a 16-bit unit comes first.
#[derive(Clone, Copy)]
pub enum ByteOrder {
    LowFirst,
    HighFirst,
}

/// Why a text can't be decoded.
#[derive(Drop)]
pub enum DecodeError {
    /// A growth was refused.
    Memory,
    Offends(Offence),
}

impl From<AllocError> for DecodeError {
    ghost from_gives = { λ _ e. e ≡ Memory };

    fn from(_e: AllocError) -> DecodeError {
        DecodeError::Memory
    }
}

impl From<Offence> for DecodeError {
    ghost from_gives = { λ o e. e ≡ Offends o };

    fn from(offence: Offence) -> DecodeError {
        DecodeError::Offends(offence)
    }
}

// The unit that is there.
#[tactic(auto, unfolding(crate::specs::Characters::unit_at))]
fn unit(bytes: &[u8], at: usize, order: ByteOrder) -> u32
    requires { at + 1 < length bytes.now }
    ensures value { result ≡ unit_at order bytes.now at }
    ensures small { result < 2 ^ 16 }
{
    let first = u32::from(bytes[at]);
    let second = u32::from(bytes[at + 1]);
    match order {
        ByteOrder::LowFirst => first + second * 256,
        ByteOrder::HighFirst => first * 256 + second,
    }
}

fn is_low_surrogate(unit: u32) -> bool
    ensures { result ≡ is_low_surrogate unit }
{
    unit >= 0xDC00 && unit < 0xE000
}

// The character whose first unit, a high surrogate, is there.
#[tactic(auto, unfolding(crate::specs::Characters::utf16_of))]
fn pair(bytes: &[u8], at: usize, order: ByteOrder, high: u32) -> Result<Character, Offence>
    requires inside { at + 1 < length bytes.now }
    requires unit { high ≡ unit_at order bytes.now at }
    requires high { is_high_surrogate high ≡ true }
    ensures { result ≡ utf16_at order bytes.now at }
{
    if bytes.len() - at < 4 {
        return Err(Offence::of(ReaderProblem::IncompletePair, at, -1));
    }
    let low = unit(bytes, at + 2, order);
    if !is_low_surrogate(low) {
        return Err(Offence::of(ReaderProblem::ExpectedLowSurrogate, at + 2, low as i32));
    }
    allowed_character(at, 4, 0x1_0000 + (high - 0xD800) * 0x400 + (low - 0xDC00))
}

/// The character that is there, or what is wrong.
#[tactic(auto, unfolding(crate::specs::Characters::utf16_of))]
fn utf16_character(bytes: &[u8], at: usize, order: ByteOrder) -> Result<Character, Offence>
    requires { at < length bytes.now }
    ensures { result ≡ utf16_at order bytes.now at }
{
    if bytes.len() - at < 2 {
        return Err(Offence::of(ReaderProblem::IncompleteCharacter, at, -1));
    }
    let first = unit(bytes, at, order);
    if is_low_surrogate(first) {
        return Err(Offence::of(ReaderProblem::UnexpectedLowSurrogate, at, first as i32));
    }
    if first >= 0xD800 && first < 0xDC00 {
        return pair(bytes, at, order, first);
    }
    allowed_character(at, 2, first)
}

// Puts the character after the text, in UTF-8.
fn push(text: &mut String, code: u32) -> Result<(), AllocError>
    requires { IsScalar code }
    ensures { OnOk result (string_bytes text.new ≡ string_bytes text.old ++ encode_utf8 code) }
{
    if let Some(character) = char::from_u32(code) {
        text.push(character)?;
    }
    Ok(())
}

/// The text that the units from that place on spell, in UTF-8.
#[tactic(auto, using(crate::proofs::DecodeLemmas::utf16_stands, crate::proofs::SpellingLemmas::character_by, crate::proofs::SpellingLemmas::writes_none, crate::proofs::SpellingLemmas::writes_more, crate::proofs::SpellingLemmas::writes_done))]
pub fn decode_utf16(
    alloc: Global,
    bytes: &[u8],
    start: usize,
    order: ByteOrder,
) -> Result<Vec<u8>, DecodeError>
    requires { start ≤ length bytes.now }
    ensures { DecodesTo result (in_utf8 (characters (length bytes.now) (encoding_by order) bytes.now
        start)) }
{
    // Each unit takes a byte at least.
    let mut text = String::with_capacity(alloc, (bytes.len() - start) / 2)?;
    let mut at = start;
    'characters: while at < bytes.len() {
        let character = utf16_character(bytes, at, order)?;
        push(&mut text, character.code)?;
        at += character.width;
    }
    Ok(text.into_bytes())
}
