//! Events.

ghost use Rattle.std.specs.Prelude.{◌≡◌};
ghost use Rattle.yaml_parse_model.specs.Events.{type_of, body_of, event_of, unplaced, no_event};

/// The mark of what is in no text.
pub const ZERO_MARK: yaml_mark_t = yaml_mark_t {
    index: 0,
    line: 0,
    column: 0,
};

/// What an event is, and what it carries. Texts are bytes with a length, a byte 0 like any other; those of a parser
/// are UTF-8.
#[derive(Drop)]
pub enum yaml_event_body_t {
    /// The empty event: what is answered after the end, or after a fault.
    No,
    StreamStart {
        encoding: yaml_encoding_t,
    },
    StreamEnd,
    DocumentStart {
        version_directive: Option<yaml_version_directive_t>,
        tag_directives: Vec<yaml_tag_directive_t>,
        /// It begins without `---`.
        implicit: bool,
    },
    DocumentEnd {
        /// It ends without `...`.
        implicit: bool,
    },
    Alias {
        anchor: Vec<u8>,
    },
    Scalar {
        anchor: Option<Vec<u8>>,
        tag: Option<Vec<u8>>,
        value: Vec<u8>,
        /// The tag may be left out in plain style.
        plain_implicit: bool,
        /// The tag may be left out in every other style.
        quoted_implicit: bool,
        style: yaml_scalar_style_t,
    },
    SequenceStart {
        anchor: Option<Vec<u8>>,
        tag: Option<Vec<u8>>,
        /// The tag may be left out.
        implicit: bool,
        style: yaml_sequence_style_t,
    },
    SequenceEnd,
    MappingStart {
        anchor: Option<Vec<u8>>,
        tag: Option<Vec<u8>>,
        /// The tag may be left out.
        implicit: bool,
        style: yaml_mapping_style_t,
    },
    MappingEnd,
}

/// An event, and the places of its tokens.
#[derive(Drop)]
pub struct yaml_event_t {
    pub body: yaml_event_body_t,
    pub start_mark: yaml_mark_t,
    pub end_mark: yaml_mark_t,
}

impl yaml_event_t {
    /// The kind of the event.
    pub fn type_(&self) -> yaml_event_type_t
        ensures { result ≡ type_of (event_of self.now).body }
    {
        match self.body {
            yaml_event_body_t::No => yaml_event_type_t::YAML_NO_EVENT,
            yaml_event_body_t::StreamStart { .. } => yaml_event_type_t::YAML_STREAM_START_EVENT,
            yaml_event_body_t::StreamEnd => yaml_event_type_t::YAML_STREAM_END_EVENT,
            yaml_event_body_t::DocumentStart { .. } => yaml_event_type_t::YAML_DOCUMENT_START_EVENT,
            yaml_event_body_t::DocumentEnd { .. } => yaml_event_type_t::YAML_DOCUMENT_END_EVENT,
            yaml_event_body_t::Alias { .. } => yaml_event_type_t::YAML_ALIAS_EVENT,
            yaml_event_body_t::Scalar { .. } => yaml_event_type_t::YAML_SCALAR_EVENT,
            yaml_event_body_t::SequenceStart { .. } => yaml_event_type_t::YAML_SEQUENCE_START_EVENT,
            yaml_event_body_t::SequenceEnd => yaml_event_type_t::YAML_SEQUENCE_END_EVENT,
            yaml_event_body_t::MappingStart { .. } => yaml_event_type_t::YAML_MAPPING_START_EVENT,
            yaml_event_body_t::MappingEnd => yaml_event_type_t::YAML_MAPPING_END_EVENT,
        }
    }

    /// An event of that body with zero marks.
    pub fn unplaced(body: yaml_event_body_t) -> yaml_event_t
        ensures { event_of result ≡ unplaced (body_of body) }
    {
        yaml_event_t {
            body,
            start_mark: ZERO_MARK,
            end_mark: ZERO_MARK,
        }
    }
}

/// Drops the event's texts, and leaves the empty event.
pub fn yaml_event_delete(event: &mut yaml_event_t)
    ensures { event_of event.new ≡ no_event }
{
    *event = yaml_event_t::unplaced(yaml_event_body_t::No);
}

use yaml_scan_model::{
    yaml_encoding_t, yaml_event_type_t, yaml_mapping_style_t, yaml_mark_t, yaml_scalar_style_t,
    yaml_sequence_style_t, yaml_tag_directive_t, yaml_version_directive_t,
};
