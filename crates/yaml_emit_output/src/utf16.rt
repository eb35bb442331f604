//! Characters in UTF-16.

ghost use Rattle.std.specs.Prelude.{◌≡◌, ◌≢◌, ◌≤◌, ◌<◌, ◌++◌, ◌∷◌, [], take, length, IsUtf8, MatchOption, IfSome};
ghost use Rattle.std.specs.Str.{chars};
ghost use Rattle.yaml_emit_layout.specs.Text.{char_bytes};
ghost use Rattle.yaml_emit_output.specs.Sheet.{Spells};

use std::alloc::AllocError;
use yaml_emit_layout::Encoding;

// The bytes of a character, and how many they are.
#[tactic(auto, unfolding(yaml_emit_layout::specs::Text::char_bytes))]
fn utf16_of(encoding: Encoding, c: char) -> ([u8; 4], usize)
    requires { encoding ≢ Encoding.Utf8 }
    ensures bytes { take result.1 result.0 ≡ char_bytes encoding c }
    ensures count { (1 ≤ result.1) × (result.1 ≤ 4) }
{
    let n = c as u32;
    if n < 0x1_0000 {
        let high = (n / 0x100) as u8;
        let low = (n % 0x100) as u8;
        match encoding {
            Encoding::Utf16Be => ([high, low, 0, 0], 2),
            _ => ([low, high, 0, 0], 2),
        }
    } else {
        let first = 0xD800 + (n - 0x1_0000) / 0x400;
        let second = 0xDC00 + (n - 0x1_0000) % 0x400;
        let high = (first / 0x100) as u8;
        let low = (first % 0x100) as u8;
        let second_high = (second / 0x100) as u8;
        let second_low = (second % 0x100) as u8;
        match encoding {
            Encoding::Utf16Be => ([high, low, second_high, second_low], 4),
            _ => ([low, high, second_low, second_high], 4),
        }
    }
}

/// The first character of a text and what follows it.
pub fn split_first(text: &str) -> Option<(char, &str)>
    ensures letters { MatchOption result (chars text.now ≡ [])
        (λ p. chars text.now ≡ p.0 ∷ chars p.1.now) }
    ensures utf8 { IfSome result (λ p. IsUtf8 p.1.now) }
    ensures shorter { IfSome result (λ p. length p.1.now < length text.now) }
{
    let mut letters = text.chars();
    match letters.next() {
        None => None,
        Some(c) => Some((c, letters.as_str())),
    }
}

/// The characters of a text are appended, until there are more bytes than the limit; fails only when out of memory.
pub(crate) fn put_utf16(
    bytes: &mut Vec<u8>,
    encoding: Encoding,
    limit: u64,
    text: &str,
) -> Result<(), AllocError>
    requires { encoding ≢ Encoding.Utf8 }
    ensures { Spells result encoding limit bytes.old.items bytes.new.items (chars text.now) }
{
    let mut left = text;
    while let Some((c, rest)) = split_first(left) {
        if limit < bytes.len() as u64 {
            return Ok(());
        }
        let (units, count) = utf16_of(encoding, c);
        bytes.extend_from_slice(&units[..count])?;
        left = rest;
    }
    Ok(())
}
