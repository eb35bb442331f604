//! Constructors of events, for callers who make events of their own. Every event that they make has zero marks.
//!
//! Those that take texts copy them. All texts are looked at before anything is copied: where one isn't UTF-8 the
//! answer is `NotUtf8`, else, where a growth was refused, `Memory`.

ghost use Rattle.std.specs.Prelude.{◌≡◌, ◌↔◌, IsTrue, map, option_map};
ghost use Rattle.yaml_parse_model.specs.Events.{borrowed_body, event_of, unplaced, directive_of};
ghost use Rattle.yaml_parse_model.specs.Events as event;
ghost use Rattle.yaml_parse_model.specs.Constructors.{HasUtf8, Constructs};

use crate::event::{yaml_event_body_t, yaml_event_t};
use crate::event_ref::EventRef;
use crate::prefix::yaml_text_fault_t;
use std::alloc::Global;
use yaml_scan_model::{
    yaml_encoding_t, yaml_mapping_style_t, yaml_scalar_style_t, yaml_sequence_style_t,
    yaml_tag_directive_t, yaml_version_directive_t,
};

impl EventRef<'_> {
    // The event with copies of its texts and zero marks.
    fn constructed(self, alloc: Global) -> Result<yaml_event_t, yaml_text_fault_t>
        ensures { Constructs (borrowed_body self.entry) result }
    {
        if !self.is_utf8() {
            return Err(yaml_text_fault_t::NotUtf8);
        }
        let body = self.copied(alloc)?;
        Ok(yaml_event_t::unplaced(body))
    }
}

/// A STREAM-START event.
pub fn yaml_stream_start_event_initialize(encoding: yaml_encoding_t) -> yaml_event_t
    ensures { event_of result ≡ unplaced (event.stream_start encoding) }
{
    yaml_event_t::unplaced(yaml_event_body_t::StreamStart { encoding })
}

/// A STREAM-END event.
pub fn yaml_stream_end_event_initialize() -> yaml_event_t
    ensures { event_of result ≡ unplaced event.stream_end }
{
    yaml_event_t::unplaced(yaml_event_body_t::StreamEnd)
}

/// A DOCUMENT-START event with copies of the directives; `implicit`: it has no `---`. `NotUtf8` where a text isn't
/// UTF-8, looked at before any growth; `Memory` where a growth was refused. The constructors below are refused in the same
/// way.
pub fn yaml_document_start_event_initialize(
    alloc: Global,
    version_directive: Option<yaml_version_directive_t>,
    tag_directives: &[yaml_tag_directive_t],
    implicit: bool,
) -> Result<yaml_event_t, yaml_text_fault_t>
    ensures { Constructs (event.document_start version_directive
        (map directive_of tag_directives.now) implicit) result }
{
    EventRef::DocumentStart {
        version_directive,
        tag_directives,
        implicit,
    }
    .constructed(alloc)
}

/// A DOCUMENT-END event; `implicit`: it has no `...`.
pub fn yaml_document_end_event_initialize(implicit: bool) -> yaml_event_t
    ensures { event_of result ≡ unplaced (event.document_end implicit) }
{
    yaml_event_t::unplaced(yaml_event_body_t::DocumentEnd { implicit })
}

/// An ALIAS event with a copy of the anchor's name.
pub fn yaml_alias_event_initialize(
    alloc: Global,
    anchor: &[u8],
) -> Result<yaml_event_t, yaml_text_fault_t>
    ensures { Constructs (event.alias anchor.now) result }
{
    EventRef::Alias { anchor }.constructed(alloc)
}

/// A SCALAR event with copies of the texts. The tag may be left out in plain style where `plain_implicit` holds, in
/// the other styles where `quoted_implicit` does. Its arguments are libyaml's, and the allocator.
pub fn yaml_scalar_event_initialize(
    alloc: Global,
    anchor: Option<&[u8]>,
    tag: Option<&[u8]>,
    value: &[u8],
    plain_implicit: bool,
    quoted_implicit: bool,
    style: yaml_scalar_style_t,
) -> Result<yaml_event_t, yaml_text_fault_t>
    ensures { Constructs (event.scalar (option_map (λ t. t.now) anchor.entry)
        (option_map (λ t. t.now) tag.entry) value.now plain_implicit quoted_implicit style) result }
{
    EventRef::Scalar {
        anchor,
        tag,
        value,
        plain_implicit,
        quoted_implicit,
        style,
    }
    .constructed(alloc)
}

/// A SEQUENCE-START event with copies of the texts; `implicit`: the tag may be left out.
pub fn yaml_sequence_start_event_initialize(
    alloc: Global,
    anchor: Option<&[u8]>,
    tag: Option<&[u8]>,
    implicit: bool,
    style: yaml_sequence_style_t,
) -> Result<yaml_event_t, yaml_text_fault_t>
    ensures { Constructs (event.sequence_start (option_map (λ t. t.now) anchor.entry)
        (option_map (λ t. t.now) tag.entry) implicit style) result }
{
    EventRef::SequenceStart {
        anchor,
        tag,
        implicit,
        style,
    }
    .constructed(alloc)
}

/// A SEQUENCE-END event.
pub fn yaml_sequence_end_event_initialize() -> yaml_event_t
    ensures { event_of result ≡ unplaced event.sequence_end }
{
    yaml_event_t::unplaced(yaml_event_body_t::SequenceEnd)
}

/// A MAPPING-START event with copies of the texts; `implicit`: the tag may be left out.
pub fn yaml_mapping_start_event_initialize(
    alloc: Global,
    anchor: Option<&[u8]>,
    tag: Option<&[u8]>,
    implicit: bool,
    style: yaml_mapping_style_t,
) -> Result<yaml_event_t, yaml_text_fault_t>
    ensures { Constructs (event.mapping_start (option_map (λ t. t.now) anchor.entry)
        (option_map (λ t. t.now) tag.entry) implicit style) result }
{
    EventRef::MappingStart {
        anchor,
        tag,
        implicit,
        style,
    }
    .constructed(alloc)
}

/// A MAPPING-END event.
pub fn yaml_mapping_end_event_initialize() -> yaml_event_t
    ensures { event_of result ≡ unplaced event.mapping_end }
{
    yaml_event_t::unplaced(yaml_event_body_t::MappingEnd)
}

/// Whether all texts of the event are UTF-8.
pub fn yaml_event_utf8(event: &yaml_event_t) -> bool
    ensures { IsTrue result ↔ HasUtf8 (event_of event.now).body }
{
    event.body.borrowed().is_utf8()
}
