//! Names and tags of nodes.

ghost use Rattle.std.specs.Prelude.{◌≡◌, ◌<◌, ◌+◌, ◌∷◌, [], length, nat_le};
ghost use Rattle.std.specs.Str.{IsAscii};
ghost use Rattle.yaml_scan_types.specs.Ascii as ascii;
ghost use Rattle.yaml_emit_layout.specs.Layout.{stay, letters, word, gap};
ghost use Rattle.yaml_emit_layout.specs.Tags.{uri_byte, uri_text, shorthand, verbatim, spelled, split_of, split_size};
ghost use Rattle.yaml_emit_layout.specs.Nodes.{anchor_text, text_size, simple_key_bytes};
ghost use Rattle.yaml_emit_output.specs.Draft.{Lays};
ghost use Rattle.yaml_emit_core.specs.Names.{split_text, cut_size, name_in, tag_in, names_text, names_size, IsName};

use crate::alphas::keeps_byte;
use yaml_emit_layout::SplitTag;
use yaml_emit_output::Draft;
use yaml_emit_scalars::hex;

/// How many bytes of anchor, tag and value a simple key may have.
pub const SIMPLE_KEY_BYTES: usize = 128;

/// What a node has besides its content: its anchor, and its tag where it is written.
#[derive(Clone, Copy)]
pub struct Properties<'a> {
    pub anchor: Option<&'a [u8]>,
    pub tag: Option<SplitTag<'a>>,
}

// A byte as it is, or `%` and its number.
fn put_uri_byte(draft: &mut Draft, flow: bool, byte: u8)
    ensures { Lays draft.old draft.new (letters (uri_byte flow byte)) stay }
{
    if keeps_byte(flow, byte) {
        draft.put_text(&[byte]);
    } else {
        draft.put_text(&[b'%', hex(byte as u32 / 16), hex(byte as u32 % 16)]);
    }
}

/// A text in which some bytes are written as `%` and their numbers.
pub fn put_uri(draft: &mut Draft, flow: bool, text: &[u8])
    ensures { Lays draft.old draft.new (letters (uri_text flow text.now)) stay }
{
    for byte in text {
        put_uri_byte(draft, flow, *byte);
    }
}

/// A word in ASCII, or the front of one.
pub fn put_front(draft: &mut Draft, front: &[u8])
    requires some { 0 < length front.now }
    requires ascii { IsAscii front.now }
    ensures { Lays draft.old draft.new (word front.now) stay }
{
    draft.put_word(false, 0, front, 0);
}

// A handle that no document could have had: each byte as a character.
#[cold]
fn put_odd_handle(draft: &mut Draft, handle: &[u8])
    ensures { Lays draft.old draft.new (word handle.now) stay }
{
    draft.put_gap();
    for byte in handle {
        draft.put_char(*byte as char);
    }
}

/// The handle of a directive. Those that an emitter goes on with weren't judged: they may have any bytes.
pub fn put_handle(draft: &mut Draft, handle: &[u8])
    ensures { Lays draft.old draft.new (word handle.now) stay }
{
    if handle.is_empty() || !handle.is_ascii() {
        put_odd_handle(draft, handle);
    } else {
        put_front(draft, handle);
    }
}

fn put_shorthand(draft: &mut Draft, handle: &[u8], rest: &[u8])
    ensures { Lays draft.old draft.new (word (spelled (shorthand handle.now rest.now))) stay }
{
    put_handle(draft, handle);
    put_uri(draft, false, rest);
}

fn put_verbatim(draft: &mut Draft, tag: &[u8])
    ensures { Lays draft.old draft.new (word (spelled (verbatim tag.now))) stay }
{
    put_front(draft, b"!<");
    put_uri(draft, true, tag);
    draft.put_text(b">");
}

// Out of line: most nodes have no tag.
#[inline(never)]
fn put_tag(draft: &mut Draft, tag: SplitTag)
    ensures { Lays draft.old draft.new (word (spelled (split_of tag.entry))) stay }
{
    match tag {
        SplitTag::Primary(rest) => put_shorthand(draft, b"!", rest),
        SplitTag::Secondary(rest) => put_shorthand(draft, b"!!", rest),
        SplitTag::Shorthand(handle, rest) => put_shorthand(draft, handle, rest),
        SplitTag::Verbatim(tag) => put_verbatim(draft, tag),
    }
}

// Out of line: most nodes have no anchor.
#[inline(never)]
fn put_anchor(draft: &mut Draft, name: &[u8])
    requires { IsAscii name.now }
    ensures { Lays draft.old draft.new (word (ascii.ampersand ∷ name.now)) stay }
{
    draft.put_word(false, b'&', name, 0);
}

fn put_anchor_if(draft: &mut Draft, properties: &Properties)
    requires { IsName (name_in properties.now) }
    ensures { Lays draft.old draft.new (anchor_text (name_in properties.now)) stay }
{
    if let Some(name) = properties.anchor {
        put_anchor(draft, name);
    }
}

fn put_tag_if(draft: &mut Draft, properties: &Properties)
    ensures { Lays draft.old draft.new (split_text (tag_in properties.now)) stay }
{
    if let Some(tag) = properties.tag {
        put_tag(draft, tag);
    }
}

/// An anchor and a tag, each after a space where one is due.
pub fn put_properties(draft: &mut Draft, properties: &Properties)
    requires { IsName (name_in properties.now) }
    ensures { Lays draft.old draft.new (names_text properties.now) stay }
{
    put_anchor_if(draft, properties);
    put_tag_if(draft, properties);
}

fn anchor_size(properties: &Properties) -> usize
    ensures { result ≡ text_size (name_in properties.now) }
{
    match properties.anchor {
        None => 0,
        Some(name) => name.len(),
    }
}

fn cut_size(tag: SplitTag) -> usize
    ensures { result ≡ split_size (split_of tag.entry) }
{
    match tag {
        SplitTag::Primary(rest) => 1 + rest.len(),
        SplitTag::Secondary(rest) => 2 + rest.len(),
        SplitTag::Shorthand(handle, rest) => handle.len() + rest.len(),
        SplitTag::Verbatim(tag) => tag.len(),
    }
}

fn tag_size(properties: &Properties) -> usize
    ensures { result ≡ cut_size (tag_in properties.now) }
{
    match properties.tag {
        None => 0,
        Some(tag) => cut_size(tag),
    }
}

/// Whether an anchor, a tag and a value of that many bytes may be a simple key's.
pub fn are_short(properties: &Properties, size: usize) -> bool
    ensures { result ≡ nat_le (names_size properties.now + size) simple_key_bytes }
{
    anchor_size(properties)
        .saturating_add(tag_size(properties))
        .saturating_add(size)
        <= SIMPLE_KEY_BYTES
}
