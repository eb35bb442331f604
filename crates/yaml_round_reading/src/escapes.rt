//! The bytes of tags and values: runs that are pushed as they are, and those that are escaped.

ghost use Rattle.std.specs.Prelude.{◌≡◌, ◌++◌, ◌∷◌, [], OnOk};
ghost use Rattle.yaml_scan_model.specs.scan_types.Ascii as ascii;
ghost use Rattle.yaml_round_reading.specs.EventLine.{escaped_byte, escaped};
ghost use Rattle.yaml_round_reading.specs.Escapes.{may_escape, IsPlainTo};

use std::alloc::AllocError;

// Pushes a backslash and a letter.
fn push_escape(line: &mut Vec<u8>, letter: u8) -> Result<(), AllocError>
    ensures { OnOk result (line.new.items ≡ line.old.items ++ (ascii.backslash ∷ letter ∷ [])) }
{
    line.push(b'\\')?;
    line.push(letter)?;
    Ok(())
}

// Pushes a byte, escaped where it is one of those.
#[tactic(auto, unfolding(crate::specs::EventLine::escaped_byte))]
fn push_byte(line: &mut Vec<u8>, byte: u8) -> Result<(), AllocError>
    ensures { OnOk result (line.new.items ≡ line.old.items ++ escaped_byte byte) }
{
    match byte {
        b'\\' => push_escape(line, b'\\'),
        0 => push_escape(line, b'0'),
        8 => push_escape(line, b'b'),
        b'\t' => push_escape(line, b't'),
        b'\n' => push_escape(line, b'n'),
        b'\r' => push_escape(line, b'r'),
        _ => {
            line.push(byte)?;
            Ok(())
        }
    }
}

// Whether a byte may be escaped.
#[tactic(auto, unfolding(crate::specs::Escapes::may_escape))]
fn may_escape(byte: u8) -> bool
    ensures { result ≡ may_escape byte }
{
    byte <= b'\r' || byte == b'\\'
}

// How many bytes at the front are pushed as they are.
fn plain_end(text: &[u8]) -> usize
    ensures { IsPlainTo text.now result }
{
    let mut end = 0;
    'bytes: while end < text.len() && !may_escape(text[end]) {
        end += 1;
    }
    end
}

/// Pushes a tag or a value.
// Inlined: 5 in 100 of `events` on short words.
#[inline(always)]
pub(crate) fn push_escaped(line: &mut Vec<u8>, text: &[u8]) -> Result<(), AllocError>
    ensures { OnOk result (line.new.items ≡ line.old.items ++ escaped text.now) }
{
    let mut left = text;
    'runs: while !left.is_empty() {
        let end = plain_end(left);
        line.extend_from_slice(&left[..end])?;
        left = &left[end..];
        if let Some((byte, rest)) = left.split_first() {
            push_byte(line, *byte)?;
            left = rest;
        }
    }
    Ok(())
}
