//! Nodes of documents.

ghost use Rattle.std.specs.Prelude.{◌≡◌};
ghost use Rattle.yaml_parse_model.specs.Nodes.{type_of, node_of, tag_of};

use crate::node_text::yaml_node_text_t;
use crate::tags::{YAML_MAP_TAG, YAML_SEQ_TAG, YAML_STR_TAG};
use yaml_scan_model::{
    yaml_mapping_style_t, yaml_mark_t, yaml_node_type_t, yaml_scalar_style_t, yaml_sequence_style_t,
};

/// The id of a node of the same document. Ids count from 1.
pub type yaml_node_item_t = i32;

/// A pair of a mapping: the ids of its key and its value.
#[derive(Clone, Copy, PartialEq, Eq, Debug)]
pub struct yaml_node_pair_t {
    pub key: i32,
    pub value: i32,
}

/// What a node is, and what it holds.
#[derive(Drop)]
pub enum yaml_node_body_t {
    /// The empty node, which no document holds.
    No,
    Scalar {
        style: yaml_scalar_style_t,
        value: yaml_node_text_t,
    },
    Sequence {
        items: Vec<yaml_node_item_t>,
        style: yaml_sequence_style_t,
    },
    Mapping {
        pairs: Vec<yaml_node_pair_t>,
        style: yaml_mapping_style_t,
    },
}

/// The tag of a node. The three that nodes have by default take no room.
#[derive(Drop)]
pub enum yaml_node_tag_t {
    /// `YAML_STR_TAG`, by default a scalar's.
    Str,
    /// `YAML_SEQ_TAG`, by default a sequence's.
    Seq,
    /// `YAML_MAP_TAG`, by default a mapping's.
    Map,
    /// A tag that is spelled out, which may be one of these.
    Spelled { text: Vec<u8> },
}

impl yaml_node_tag_t {
    /// The bytes of the tag.
    pub fn as_slice(&self) -> &[u8]
        ensures { result.now ≡ tag_of self.now }
    {
        match self {
            yaml_node_tag_t::Str => YAML_STR_TAG,
            yaml_node_tag_t::Seq => YAML_SEQ_TAG,
            yaml_node_tag_t::Map => YAML_MAP_TAG,
            yaml_node_tag_t::Spelled { text } => text.as_slice(),
        }
    }
}

/// A node of a document.
#[derive(Drop)]
pub struct yaml_node_t {
    pub body: yaml_node_body_t,
    /// The resolved tag; a node always has one.
    pub tag: yaml_node_tag_t,
    pub start_mark: yaml_mark_t,
    pub end_mark: yaml_mark_t,
}

impl yaml_node_t {
    /// The kind of the node.
    pub fn type_(&self) -> yaml_node_type_t
        ensures { result ≡ type_of (node_of self.now).body }
    {
        match self.body {
            yaml_node_body_t::No => yaml_node_type_t::YAML_NO_NODE,
            yaml_node_body_t::Scalar { .. } => yaml_node_type_t::YAML_SCALAR_NODE,
            yaml_node_body_t::Sequence { .. } => yaml_node_type_t::YAML_SEQUENCE_NODE,
            yaml_node_body_t::Mapping { .. } => yaml_node_type_t::YAML_MAPPING_NODE,
        }
    }
}

/// An anchor of a document that is being loaded: its name, the id of its node, and where the node begins.
#[derive(Drop)]
pub struct yaml_alias_data_t {
    pub anchor: Vec<u8>,
    pub index: i32,
    pub mark: yaml_mark_t,
}
