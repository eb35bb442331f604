//! The line of an event.

ghost use Rattle.std.specs.Prelude.{◌≡◌, ◌++◌, [], ◌∷◌, codes, option_map, OnOk};
ghost use Rattle.yaml_scan_model.specs.scan_types.Ascii as ascii;
ghost use Rattle.yaml_parse_model.specs.Events.{borrowed_body, event_of};
ghost use Rattle.yaml_round_reading.specs.EventLine.{escaped, anchor_part, tag_part, indicator_of, mark_part, event_line, event_text};

use crate::escapes::push_escaped;
use std::alloc::AllocError;
use yaml_parse_model::{EventRef, yaml_event_t};
use yaml_scan_model::yaml_scalar_style_t;

// The indicator of each style.
const INDICATORS: [u8; 6] = *b"::'\"|>";

fn style_indicator(style: yaml_scalar_style_t) -> u8
    ensures { result ≡ indicator_of style }
{
    INDICATORS[style as usize]
}

// Pushes an anchor, if there is one.
fn push_anchor(line: &mut Vec<u8>, anchor: Option<&[u8]>) -> Result<(), AllocError>
    ensures { OnOk result (line.new.items ≡ line.old.items
        ++ anchor_part (option_map (λ t. t.now) anchor.entry)) }
{
    match anchor {
        None => Ok(()),
        Some(anchor) => {
            line.extend_from_slice(b" &")?;
            line.extend_from_slice(anchor)
        }
    }
}

// Pushes a tag, if there is one.
fn push_tag(line: &mut Vec<u8>, tag: Option<&[u8]>) -> Result<(), AllocError>
    ensures { OnOk result (line.new.items ≡ line.old.items
        ++ tag_part (option_map (λ t. t.now) tag.entry)) }
{
    match tag {
        None => Ok(()),
        Some(tag) => {
            line.extend_from_slice(b" <")?;
            push_escaped(line, tag)?;
            line.push(b'>')?;
            Ok(())
        }
    }
}

// Pushes a node's word, its anchor and its tag.
// Inlined: 5 in 100 of `events` on short words.
#[inline(always)]
fn push_node(
    line: &mut Vec<u8>,
    word: &[u8],
    anchor: Option<&[u8]>,
    tag: Option<&[u8]>,
) -> Result<(), AllocError>
    ensures { OnOk result (line.new.items ≡ line.old.items ++ (word.now
        ++ (anchor_part (option_map (λ t. t.now) anchor.entry)
        ++ tag_part (option_map (λ t. t.now) tag.entry)))) }
{
    line.extend_from_slice(word)?;
    push_anchor(line, anchor)?;
    push_tag(line, tag)
}

// Pushes a scalar.
fn push_scalar(
    line: &mut Vec<u8>,
    anchor: Option<&[u8]>,
    tag: Option<&[u8]>,
    value: &[u8],
    style: yaml_scalar_style_t,
) -> Result<(), AllocError>
    ensures { OnOk result (line.new.items ≡ line.old.items ++ (codes "=VAL"
        ++ (anchor_part (option_map (λ t. t.now) anchor.entry)
        ++ tag_part (option_map (λ t. t.now) tag.entry))
        ++ (ascii.space ∷ indicator_of style ∷ []) ++ escaped value.now)) }
{
    push_node(line, b"=VAL", anchor, tag)?;
    line.push(b' ')?;
    line.push(style_indicator(style))?;
    push_escaped(line, value)
}

// Pushes an alias.
fn push_alias(line: &mut Vec<u8>, name: &[u8]) -> Result<(), AllocError>
    ensures { OnOk result (line.new.items ≡ line.old.items ++ (codes "=ALI *" ++ name.now)) }
{
    line.extend_from_slice(b"=ALI *")?;
    line.extend_from_slice(name)
}

// Pushes a document's start or end: a word, and a mark where it isn't left out.
fn push_document(
    line: &mut Vec<u8>,
    word: &[u8],
    implicit: bool,
    mark: &[u8],
) -> Result<(), AllocError>
    ensures { OnOk result (line.new.items ≡ line.old.items
        ++ (word.now ++ mark_part implicit mark.now)) }
{
    line.extend_from_slice(word)?;
    if implicit {
        Ok(())
    } else {
        line.extend_from_slice(mark)
    }
}

// Pushes the line of an event, without its end.
fn push_event(line: &mut Vec<u8>, event: EventRef<'_>) -> Result<(), AllocError>
    ensures { OnOk result (line.new.items ≡ line.old.items
        ++ event_text (borrowed_body event.entry)) }
{
    match event {
        EventRef::No => Ok(()),
        EventRef::StreamStart { .. } => line.extend_from_slice(b"+STR"),
        EventRef::StreamEnd => line.extend_from_slice(b"-STR"),
        EventRef::DocumentStart { implicit, .. } => push_document(line, b"+DOC", implicit, b" ---"),
        EventRef::DocumentEnd { implicit } => push_document(line, b"-DOC", implicit, b" ..."),
        EventRef::Alias { anchor } => push_alias(line, anchor),
        EventRef::Scalar {
            anchor,
            tag,
            value,
            style,
            ..
        } => push_scalar(line, anchor, tag, value, style),
        EventRef::SequenceStart { anchor, tag, .. } => push_node(line, b"+SEQ", anchor, tag),
        EventRef::SequenceEnd => line.extend_from_slice(b"-SEQ"),
        EventRef::MappingStart { anchor, tag, .. } => push_node(line, b"+MAP", anchor, tag),
        EventRef::MappingEnd => line.extend_from_slice(b"-MAP"),
    }
}

/// Pushes the line of an event, with a line feed at its end: `+STR`, `-STR`, `+DOC` (` ---` where it is explicit),
/// `-DOC` (` ...` where it is explicit), `=ALI *name`, `+SEQ`, `-SEQ`, `+MAP`, `-MAP`, `=VAL`; after a node's word its
/// ` &anchor` and ` <tag>`, after `=VAL` a space, the style's indicator (`: ' " | >`) and the value. In tags and values a
/// backslash, 00, 08, 09, 0A and 0D are escaped. After an error what is in the line counts for nothing.
pub fn yaml_push_event_line_ref(line: &mut Vec<u8>, event: EventRef<'_>) -> Result<(), AllocError>
    ensures { OnOk result (line.new.items ≡ line.old.items
        ++ event_line (borrowed_body event.entry)) }
{
    push_event(line, event)?;
    line.push(b'\n')?;
    Ok(())
}

/// Pushes the line of an event with texts of its own in the same form.
pub fn yaml_push_event_line(line: &mut Vec<u8>, event: &yaml_event_t) -> Result<(), AllocError>
    ensures { OnOk result (line.new.items ≡ line.old.items ++ event_line
        (event_of event.now).body) }
{
    yaml_push_event_line_ref(line, event.body.borrowed())
}
