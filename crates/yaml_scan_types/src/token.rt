//! Tokens.

ghost use Rattle.std.specs.Prelude.{◌≡◌};
ghost use Rattle.yaml_scan_types.specs.Tokens.{type_of, token_of, no_token};

use crate::{yaml_encoding_t, yaml_mark_t, yaml_scalar_style_t, yaml_token_type_t};

/// What a token is, and what it carries. Texts are bytes of UTF-8, except for a tag's suffix or prefix, which may be
/// any bytes.
#[derive(Drop)]
pub enum yaml_token_body_t {
    /// The empty token: what is answered after the last token, or after a fault.
    No,
    StreamStart {
        encoding: yaml_encoding_t,
    },
    StreamEnd,
    VersionDirective {
        major: i32,
        minor: i32,
    },
    TagDirective {
        handle: Vec<u8>,
        prefix: Vec<u8>,
    },
    DocumentStart,
    DocumentEnd,
    BlockSequenceStart,
    BlockMappingStart,
    BlockEnd,
    FlowSequenceStart,
    FlowSequenceEnd,
    FlowMappingStart,
    FlowMappingEnd,
    BlockEntry,
    FlowEntry,
    Key,
    Value,
    Alias {
        value: Vec<u8>,
    },
    Anchor {
        value: Vec<u8>,
    },
    /// `!<suffix>` has an empty handle.
    Tag {
        handle: Vec<u8>,
        suffix: Vec<u8>,
    },
    Scalar {
        value: Vec<u8>,
        style: yaml_scalar_style_t,
    },
}

/// A token, and where it is.
#[derive(Drop)]
pub struct yaml_token_t {
    pub body: yaml_token_body_t,
    pub start_mark: yaml_mark_t,
    pub end_mark: yaml_mark_t,
}

impl yaml_token_t {
    /// The kind of the token.
    pub fn type_(&self) -> yaml_token_type_t
        ensures { result ≡ type_of (token_of self.now).body }
    {
        match self.body {
            yaml_token_body_t::No => yaml_token_type_t::YAML_NO_TOKEN,
            yaml_token_body_t::StreamStart { .. } => yaml_token_type_t::YAML_STREAM_START_TOKEN,
            yaml_token_body_t::StreamEnd => yaml_token_type_t::YAML_STREAM_END_TOKEN,
            yaml_token_body_t::VersionDirective { .. } =>
                yaml_token_type_t::YAML_VERSION_DIRECTIVE_TOKEN,
            yaml_token_body_t::TagDirective { .. } => yaml_token_type_t::YAML_TAG_DIRECTIVE_TOKEN,
            yaml_token_body_t::DocumentStart => yaml_token_type_t::YAML_DOCUMENT_START_TOKEN,
            yaml_token_body_t::DocumentEnd => yaml_token_type_t::YAML_DOCUMENT_END_TOKEN,
            yaml_token_body_t::BlockSequenceStart =>
                yaml_token_type_t::YAML_BLOCK_SEQUENCE_START_TOKEN,
            yaml_token_body_t::BlockMappingStart =>
                yaml_token_type_t::YAML_BLOCK_MAPPING_START_TOKEN,
            yaml_token_body_t::BlockEnd => yaml_token_type_t::YAML_BLOCK_END_TOKEN,
            yaml_token_body_t::FlowSequenceStart =>
                yaml_token_type_t::YAML_FLOW_SEQUENCE_START_TOKEN,
            yaml_token_body_t::FlowSequenceEnd => yaml_token_type_t::YAML_FLOW_SEQUENCE_END_TOKEN,
            yaml_token_body_t::FlowMappingStart => yaml_token_type_t::YAML_FLOW_MAPPING_START_TOKEN,
            yaml_token_body_t::FlowMappingEnd => yaml_token_type_t::YAML_FLOW_MAPPING_END_TOKEN,
            yaml_token_body_t::BlockEntry => yaml_token_type_t::YAML_BLOCK_ENTRY_TOKEN,
            yaml_token_body_t::FlowEntry => yaml_token_type_t::YAML_FLOW_ENTRY_TOKEN,
            yaml_token_body_t::Key => yaml_token_type_t::YAML_KEY_TOKEN,
            yaml_token_body_t::Value => yaml_token_type_t::YAML_VALUE_TOKEN,
            yaml_token_body_t::Alias { .. } => yaml_token_type_t::YAML_ALIAS_TOKEN,
            yaml_token_body_t::Anchor { .. } => yaml_token_type_t::YAML_ANCHOR_TOKEN,
            yaml_token_body_t::Tag { .. } => yaml_token_type_t::YAML_TAG_TOKEN,
            yaml_token_body_t::Scalar { .. } => yaml_token_type_t::YAML_SCALAR_TOKEN,
        }
    }

    /// The empty token: no kind, zero marks.
    pub fn empty() -> yaml_token_t
        ensures { token_of result ≡ no_token }
    {
        let zero = yaml_mark_t {
            index: 0,
            line: 0,
            column: 0,
        };
        yaml_token_t {
            body: yaml_token_body_t::No,
            start_mark: zero,
            end_mark: zero,
        }
    }
}

/// Drops the token's texts, and leaves the empty token.
pub fn yaml_token_delete(token: &mut yaml_token_t)
    ensures { token_of token.new ≡ no_token }
{
    *token = yaml_token_t::empty();
}
