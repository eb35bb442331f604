//! Events put into records, one after another.

ghost use Rattle.std.specs.Prelude.{◌≡◌, ◌++◌, [], length, IfOk, map, option_map};
ghost use Rattle.yaml_parse.specs.Events.{directive_of};
ghost use Rattle.yaml_parse.specs.Events.{borrowed_body};
ghost use Rattle.yaml_round_answers.specs.Records.{mark_told, plain};
ghost use Rattle.yaml_round_answers.specs.Blocks.{optional_text};
ghost use Rattle.yaml_round_answers.specs.Listing.{optional_span, with_properties, with_version, node_record, base_record, placed, PutsText, PutsTexts, PutsDirective, PutsDirectives, Records, AddsRecord};

use crate::number::{
    encoding_number, flag, mapping_style_number, scalar_style_number, sequence_style_number,
};
use crate::record::{mark_told, yaml_c_directive, yaml_c_event, yaml_c_span};
use std::alloc::{AllocError, Global};
use yaml_parse::{EventRef, yaml_mark_t, yaml_tag_directive_t, yaml_version_directive_t};

/// Records, the directives that they name, and the bytes of their texts.
#[derive(Drop)]
pub struct Listing {
    pub events: Vec<yaml_c_event>,
    pub directives: Vec<yaml_c_directive>,
    pub bytes: Vec<u8>,
}

// A record of that kind and those marks, with nothing else.
fn plain(kind: i32, start: yaml_mark_t, end: yaml_mark_t) -> yaml_c_event
    ensures { result ≡ plain kind (mark_told start) (mark_told end) }
{
    yaml_c_event {
        kind,
        start: mark_told(start),
        end: mark_told(end),
        ..yaml_c_event::default()
    }
}

// Pushes a text after the others; returns its place.
pub(crate) fn push_text(bytes: &mut Vec<u8>, text: &[u8]) -> Result<yaml_c_span, AllocError>
    ensures { IfOk result (λ s. PutsText bytes.old.items text.now bytes.new.items s) }
{
    let at = bytes.len() as u64;
    bytes.extend_from_slice(text)?;
    Ok(yaml_c_span {
        at,
        len: text.len() as u64,
    })
}

// Pushes a text that may be left out.
fn push_optional(bytes: &mut Vec<u8>, text: Option<&[u8]>) -> Result<yaml_c_span, AllocError>
    ensures put { IfOk result (λ _. bytes.new.items ≡ bytes.old.items
        ++ optional_text (option_map (λ t. t.now) text.entry)) }
    ensures is { IfOk result (λ s. s ≡ optional_span (length bytes.old.items)
        (option_map (λ t. t.now) text.entry)) }
{
    match text {
        Some(text) => push_text(bytes, text),
        None => Ok(yaml_c_span::default()),
    }
}

// Pushes a node's properties after the other texts, and has them in its record.
fn with_properties(
    bytes: &mut Vec<u8>,
    base: yaml_c_event,
    anchor: Option<&[u8]>,
    tag: Option<&[u8]>,
) -> Result<yaml_c_event, AllocError>
    ensures put { IfOk result (λ _. bytes.new.items ≡ bytes.old.items
        ++ (optional_text (option_map (λ t. t.now) anchor.entry)
        ++ optional_text (option_map (λ t. t.now) tag.entry))) }
    ensures is { IfOk result (λ r. r ≡ with_properties (length bytes.old.items)
        (option_map (λ t. t.now) anchor.entry) (option_map (λ t. t.now) tag.entry) base) }
{
    let mut record = base;
    record.has_anchor = flag(anchor.is_some());
    record.anchor = push_optional(bytes, anchor)?;
    record.has_tag = flag(tag.is_some());
    record.tag = push_optional(bytes, tag)?;
    Ok(record)
}

// Pushes an event's texts after the others, and has them in its record.
fn with_texts(
    bytes: &mut Vec<u8>,
    base: yaml_c_event,
    event: EventRef<'_>,
) -> Result<yaml_c_event, AllocError>
    ensures { IfOk result (PutsTexts bytes.old.items (borrowed_body event.entry) base
        bytes.new.items) }
{
    match event {
        EventRef::Alias { anchor } => Ok(yaml_c_event {
            anchor: push_text(bytes, anchor)?,
            ..base
        }),
        EventRef::Scalar {
            anchor,
            tag,
            value,
            ..
        } => {
            let mut record = with_properties(bytes, base, anchor, tag)?;
            record.value = push_text(bytes, value)?;
            Ok(record)
        }
        EventRef::SequenceStart { anchor, tag, .. } | EventRef::MappingStart { anchor, tag, .. } =>
            { with_properties(bytes, base, anchor, tag) }
        _ => Ok(base),
    }
}

// Pushes a directive's texts after the others.
fn directive_record(
    bytes: &mut Vec<u8>,
    directive: &yaml_tag_directive_t,
) -> Result<yaml_c_directive, AllocError>
    ensures { IfOk result (PutsDirective bytes.old.items (directive_of directive.now)
        bytes.new.items) }
{
    let handle = push_text(bytes, &directive.handle)?;
    let prefix = push_text(bytes, &directive.prefix)?;
    Ok(yaml_c_directive { handle, prefix })
}

// Pushes directives after the others.
pub(crate) fn push_directives(
    listing: &mut Listing,
    directives: &[yaml_tag_directive_t],
) -> Result<yaml_c_span, AllocError>
    ensures { IfOk result (λ s. PutsDirectives listing.old (map directive_of directives.now)
        listing.new s) }
{
    let at = listing.directives.len() as u64;
    for directive in directives {
        let record = directive_record(&mut listing.bytes, directive)?;
        listing.directives.push(record)?;
    }
    Ok(yaml_c_span {
        at,
        len: directives.len() as u64,
    })
}

// The record of a scalar or a collection's start without its texts; of another event its marks
// alone.
fn node_base(event: EventRef<'_>, start: yaml_mark_t, end: yaml_mark_t) -> yaml_c_event
    ensures { result ≡ node_record (borrowed_body event.entry) (mark_told start) (mark_told end) }
{
    match event {
        EventRef::Scalar {
            plain_implicit,
            quoted_implicit,
            style,
            ..
        } => yaml_c_event {
            style: scalar_style_number(style),
            implicit: flag(plain_implicit),
            quoted_implicit: flag(quoted_implicit),
            ..plain(6, start, end)
        },
        EventRef::SequenceStart {
            implicit,
            style,
            ..
        } => yaml_c_event {
            style: sequence_style_number(style),
            implicit: flag(implicit),
            ..plain(7, start, end)
        },
        EventRef::MappingStart {
            implicit,
            style,
            ..
        } => yaml_c_event {
            style: mapping_style_number(style),
            implicit: flag(implicit),
            ..plain(9, start, end)
        },
        _ => plain(0, start, end),
    }
}

// What a record has of an event before its texts and directives are put.
fn base_of(event: EventRef<'_>, start: yaml_mark_t, end: yaml_mark_t) -> yaml_c_event
    ensures { result ≡ base_record (borrowed_body event.entry) (mark_told start) (mark_told end) }
{
    match event {
        EventRef::StreamStart { encoding } => yaml_c_event {
            encoding: encoding_number(encoding),
            ..plain(1, start, end)
        },
        EventRef::StreamEnd => plain(2, start, end),
        EventRef::DocumentStart {
            version_directive,
            implicit,
            ..
        } => with_version(
            version_directive,
            yaml_c_event {
                implicit: flag(implicit),
                ..plain(3, start, end)
            },
        ),
        EventRef::DocumentEnd { implicit } => yaml_c_event {
            implicit: flag(implicit),
            ..plain(4, start, end)
        },
        EventRef::Alias { .. } => plain(5, start, end),
        EventRef::SequenceEnd => plain(8, start, end),
        EventRef::MappingEnd => plain(10, start, end),
        EventRef::No
        | EventRef::Scalar { .. }
        | EventRef::SequenceStart { .. }
        | EventRef::MappingStart { .. } => node_base(event, start, end),
    }
}

// A record with a version, where there is one.
fn with_version(version: Option<yaml_version_directive_t>, base: yaml_c_event) -> yaml_c_event
    ensures { result ≡ with_version version base }
{
    match version {
        Some(version) => yaml_c_event {
            has_version: 1,
            major: version.major,
            minor: version.minor,
            ..base
        },
        None => base,
    }
}

// The record of an event, whose texts and directives are put after the others.
fn record_of(
    listing: &mut Listing,
    event: EventRef<'_>,
    start: yaml_mark_t,
    end: yaml_mark_t,
) -> Result<yaml_c_event, AllocError>
    ensures { IfOk result (Records listing.old (placed (borrowed_body event.entry) start end)
        listing.new) }
{
    let mut base = base_of(event, start, end);
    match event {
        EventRef::DocumentStart { tag_directives, .. } => {
            base.directives = push_directives(listing, tag_directives)?;
            Ok(base)
        }
        _ => with_texts(&mut listing.bytes, base, event),
    }
}

impl Listing {
    /// A listing of nothing.
    pub fn new(alloc: Global) -> Listing
        ensures { (result.events.items ≡ []) × (result.directives.items ≡ [])
            × (result.bytes.items ≡ []) }
    {
        Listing {
            events: Vec::new(alloc),
            directives: Vec::new(alloc),
            bytes: Vec::new(alloc),
        }
    }

    /// Pushes an event after the others.
    pub fn push(
        &mut self,
        event: EventRef<'_>,
        start: yaml_mark_t,
        end: yaml_mark_t,
    ) -> Result<(), AllocError>
        ensures { IfOk result (λ _. AddsRecord self.old (placed (borrowed_body event.entry) start
            end) self.new) }
    {
        let record = record_of(self, event, start, end)?;
        self.events.push(record)?;
        Ok(())
    }
}
