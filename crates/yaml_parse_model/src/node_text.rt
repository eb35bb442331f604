//! The texts of scalars' nodes.

ghost use Rattle.std.specs.Prelude.{◌≡◌, ◌+◌, ◌≤◌, List, ℕ, length, take, IsOk, MatchResult};
ghost use Rattle.yaml_parse_model.specs.NodeTexts.{bytes_of, IsKept};

use crate::prefix::yaml_text_fault_t;
use std::alloc::Global;
use std::marker::Model;

// A text of at most that many bytes lies in its node: as many as a longer one's place takes there.
const WITHIN: usize = 24;

/// Where the bytes of a text are kept.
#[derive(Drop)]
enum Kept {
    Short { count: u32, bytes: [u8; 24] },
    Long { text: Vec<u8> },
}

/// The text of a scalar's node. One of up to 24 bytes lies in the node and takes no memory of its own.
#[derive(Drop)]
pub struct yaml_node_text_t {
    kept: Kept,
}

impl Model for yaml_node_text_t {
    ghost use Rattle.std.specs.Prelude.{List, ℕ};

    ghost Value = { List ℕ };

    ghost use Rattle.yaml_parse_model.specs.TextView.{text_view, IsNodeText};

    ghost view = { text_view };

    ghost invariant = { IsNodeText };
}

// The front and the end of a text, which may have bytes in common.
// Inlined: two loads and two stores, where their length is known.
#[inline(always)]
fn put_ends(bytes: &mut [u8], text: &[u8], size: usize)
    requires sized { (size ≤ length text.now) × (length text.now ≤ size + size) }
    requires room { length text.now ≤ length bytes.old }
    ensures is { take (length text.now) bytes.new ≡ text.now }
    ensures room { length bytes.new ≡ length bytes.old }
{
    let from = text.len() - size;
    bytes[..size].copy_from_slice(&text[..size]);
    bytes[from..from + size].copy_from_slice(&text[from..]);
}

// One byte, if there is one.
// Inlined: a load and a store.
#[inline(always)]
fn put_one(bytes: &mut [u8], text: &[u8])
    requires one { length text.now ≤ 1 }
    requires room { length text.now ≤ length bytes.old }
    ensures is { take (length text.now) bytes.new ≡ text.now }
    ensures room { length bytes.new ≡ length bytes.old }
{
    if let Some(byte) = text.first() {
        bytes[0] = *byte;
    }
}

// A text before what is there.
// Inlined into its one caller, so that the bytes lie where they are to stay.
#[inline(always)]
fn put_front(bytes: &mut [u8], text: &[u8])
    requires short { length text.now ≤ WITHIN }
    requires room { length text.now ≤ length bytes.old }
    ensures is { take (length text.now) bytes.new ≡ text.now }
    ensures room { length bytes.new ≡ length bytes.old }
{
    let count = text.len();
    if count < 4 {
        if count < 2 {
            put_one(bytes, text);
        } else {
            put_ends(bytes, text, 2);
        }
    } else if count < 8 {
        put_ends(bytes, text, 4);
    } else if count < 16 {
        put_ends(bytes, text, 8);
    } else {
        put_ends(bytes, text, 12);
    }
}

// A text of up to 24 bytes.
// Inlined: it is built in its place.
#[inline(always)]
fn kept_short(text: &[u8]) -> yaml_node_text_t
    requires { length text.now ≤ WITHIN }
    ensures { result ≡ text.now }
{
    let count = text.len() as u32;
    let mut bytes = [0; 24];
    put_front(&mut bytes, text);
    yaml_node_text_t {
        kept: Kept::Short { count, bytes },
    }
}

impl yaml_node_text_t {
    /// The bytes of the text.
    pub fn as_slice(&self) -> &[u8]
        ensures { result.now ≡ self.now }
    {
        match &self.kept {
            Kept::Short { count, bytes } => &bytes[..*count as usize],
            Kept::Long { text } => text.as_slice(),
        }
    }

    /// A copy of a text. One of up to 24 bytes takes no memory.
    pub fn copied(alloc: Global, text: &[u8]) -> Result<yaml_node_text_t, yaml_text_fault_t>
        ensures is { MatchResult result (λ copy. copy ≡ text.now)
            (λ f. f ≡ yaml_text_fault_t.Memory) }
        ensures short { length text.now ≤ 24 → IsOk result }
    {
        if text.len() <= WITHIN {
            return Ok(kept_short(text));
        }
        let text = Vec::from_slice(alloc, text)?;
        Ok(yaml_node_text_t {
            kept: Kept::Long { text },
        })
    }
}
