//! Tags.

ghost use Rattle.std.specs.Prelude.{◌≡◌, ◌≤◌, ◌<◌, ◌+◌, ◌&&◌, ◌||◌, ◌==◌, length};
ghost use Rattle.yaml_scan_types.specs.Ascii as ascii;
ghost use Rattle.yaml_scan_types.specs.Marks.{byte};
ghost use Rattle.yaml_scan_history.specs.Tags as tags;
ghost use Rattle.yaml_scan_text.specs.Classes.{AreAlphas};
ghost use Rattle.yaml_scan_text.specs.TagsRead as spec;
ghost use Rattle.yaml_scan_text.specs.Refused.{Keeps};

use crate::class::alphas;
use crate::refusal::{Refusal, wrong_at};
use crate::text::{byte, is_blank_or_end};
use crate::uri::{some_uri, uri_at};
use yaml_scan_model::{Context, Problem};

/// A tag: where its handle ends, which starts with the tag; where its suffix is, unless that was spelled out; and the place
/// after it.
#[derive(Clone, Copy, Drop)]
pub struct Tag {
    pub handle: usize,
    pub from: usize,
    pub to: usize,
    pub joined: bool,
    pub end: usize,
}

/// The tag whose `!` is there: `!<uri>`, `!uri`, `!!uri`, `!name!uri` or `!`. It ends before a blank, a break or the end, in
/// brackets also before `,`.
pub fn read_tag(arena: &mut Vec<u8>, text: &[u8], start: usize, flow: bool) -> Result<Tag, Refusal>
    requires { byte text.now start ≡ ascii.exclamation }
    ensures value { spec.ReadsTag text.now start arena.old.items arena.new.items result
        (tags.tag_at flow text.now start) }
    ensures kept { Keeps arena.old.items arena.new.items }
{
    let tag = parts(arena, text, start)?;
    if !may_end_tag(text, tag.end, flow) {
        return Err(Refusal::Wrong(wrong_at(Problem::NoWhitespaceOrBreak, Context::Tag, tag.end)));
    }
    Ok(tag)
}

/// Whether a blank, a break, the end, or in brackets `,` is there.
fn may_end_tag(text: &[u8], at: usize, flow: bool) -> bool
    ensures { result ≡ tags.may_end_tag flow text.now at }
{
    is_blank_or_end(text, at) || flow && byte(text, at) == b','
}

/// The tag whose `!` is there, whatever follows it.
fn parts(arena: &mut Vec<u8>, text: &[u8], start: usize) -> Result<Tag, Refusal>
    requires { byte text.now start ≡ ascii.exclamation }
    ensures value { spec.ReadsTag text.now start arena.old.items arena.new.items result
        (tags.parts_at text.now start) }
    ensures kept { Keeps arena.old.items arena.new.items }
{
    if byte(text, start + 1) == b'<' {
        return verbatim(arena, text, start);
    }
    let name = alphas(text, start + 1);
    if byte(text, name) == b'!' {
        return named(arena, text, start, name);
    }
    bare(arena, text, start)
}

/// The tag `!<uri>` that is there, which has no handle.
fn verbatim(arena: &mut Vec<u8>, text: &[u8], start: usize) -> Result<Tag, Refusal>
    requires mark { byte text.now start ≡ ascii.exclamation }
    requires angle { byte text.now (start + 1) ≡ ascii.less }
    ensures value { spec.ReadsTag text.now start arena.old.items arena.new.items result
        (tags.verbatim_at text.now start) }
    ensures kept { Keeps arena.old.items arena.new.items }
{
    let suffix = some_uri(arena, text, start + 2, Context::TagUri, true)?;
    if byte(text, suffix.end) != b'>' {
        return Err(Refusal::Wrong(wrong_at(Problem::NoClosingBracket, Context::Tag, suffix.end)));
    }
    Ok(Tag {
        handle: start,
        from: start + 2,
        to: suffix.end,
        joined: suffix.joined,
        end: suffix.end + 1,
    })
}

/// The tag `!name!uri` that is there, whose name ends there.
fn named(arena: &mut Vec<u8>, text: &[u8], start: usize, name: usize) -> Result<Tag, Refusal>
    requires mark { byte text.now start ≡ ascii.exclamation }
    requires run { AreAlphas text.now (start + 1) name }
    requires second { byte text.now name ≡ ascii.exclamation }
    ensures value { spec.ReadsTag text.now start arena.old.items arena.new.items result
        (tags.named_at text.now start) }
    ensures kept { Keeps arena.old.items arena.new.items }
{
    let handle = name + 1;
    let suffix = some_uri(arena, text, handle, Context::TagUri, false)?;
    Ok(Tag {
        handle,
        from: handle,
        to: suffix.end,
        joined: suffix.joined,
        end: suffix.end,
    })
}

/// The tag `!uri` or `!` that is there; the latter is its own suffix.
fn bare(arena: &mut Vec<u8>, text: &[u8], start: usize) -> Result<Tag, Refusal>
    requires { byte text.now start ≡ ascii.exclamation }
    ensures value { spec.ReadsTag text.now start arena.old.items arena.new.items result
        (tags.bare_at text.now start) }
    ensures kept { Keeps arena.old.items arena.new.items }
{
    let behind = start + 1;
    let suffix = uri_at(arena, text, behind, Context::TagUri, false)?;
    if suffix.end == behind {
        return Ok(Tag {
            handle: start,
            from: start,
            to: behind,
            joined: false,
            end: behind,
        });
    }
    Ok(Tag {
        handle: behind,
        from: behind,
        to: suffix.end,
        joined: suffix.joined,
        end: suffix.end,
    })
}
