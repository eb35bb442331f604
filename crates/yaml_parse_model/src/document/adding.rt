//! Adding nodes to a document, and items and pairs to its collections.

ghost use Rattle.std.specs.Prelude.{◌≡◌, ◌<◌, ◌≤◌, ◌++◌, ◌∷◌, [], pos, suc, length, option_map, IsSome, IsUtf8, MatchResult, OnOk};
ghost use Rattle.yaml_parse_model.specs.Constructors.{IsUtf8Option};
ghost use Rattle.yaml_parse_model.specs.Nodes.{node_of, body_of, tag_of};
ghost use Rattle.yaml_parse_model.specs.Documents.{node_at, unplaced, new_scalar, new_sequence, new_mapping, with_node, Adds, Appends, change_body, with_item, with_pair, tag_or, IsSequenceAt, IsMappingAt, HasRoomAt, most_entries, item_count, pair_count, IsSoundNode};
ghost use Rattle.yaml_parse_model.specs.Sizes.{IsSizedBody};

use super::{node_place, yaml_document_t};
use crate::{
    ZERO_MARK, is_utf8_option, yaml_mapping_style_t, yaml_node_body_t, yaml_node_item_t,
    yaml_node_pair_t, yaml_node_t, yaml_node_tag_t, yaml_node_text_t, yaml_scalar_style_t,
    yaml_sequence_style_t, yaml_text_fault_t,
};
use simdutf8::is_utf8;
use std::alloc::Global;

/// A list of a document has at most this many entries.
pub const MAX_ENTRIES: usize = 2_147_483_647;

/// One entry more at the end of a list of a document; `Memory` where a growth was refused or the list is full.
// Inlined: the entry is built in its place. Room is made first, so that it isn't handed back.
#[inline(always)]
pub fn push_entry<T: Drop>(entries: &mut Vec<T>, entry: T) -> Result<(), yaml_text_fault_t>
    ensures { MatchResult result
        (λ _. (entries.new.items ≡ entries.old.items ++ entry ∷ [])
        × (length entries.old.items < most_entries))
        (λ f. (entries.new.items ≡ entries.old.items) × (f ≡ yaml_text_fault_t.Memory)) }
{
    if entries.len() >= MAX_ENTRIES {
        return Err(yaml_text_fault_t::Memory);
    }
    entries.reserve(1)?;
    entries.push_reserved(entry);
    Ok(())
}

// A copy of the tag that is given, else the default tag.
fn copied_tag_or_default(
    alloc: Global,
    tag: Option<&[u8]>,
    default: yaml_node_tag_t,
) -> Result<yaml_node_tag_t, yaml_text_fault_t>
    ensures { MatchResult result (λ copy. tag_of copy ≡ tag_or (option_map (λ t. t.now) tag.entry)
        (tag_of default)) (λ f. f ≡ yaml_text_fault_t.Memory) }
{
    match tag {
        None => Ok(default),
        Some(tag) => {
            let text = Vec::from_slice(alloc, tag)?;
            Ok(yaml_node_tag_t::Spelled { text })
        }
    }
}

// One node more, with zero marks and under the next number.
fn add_node(
    document: &mut yaml_document_t,
    body: yaml_node_body_t,
    tag: yaml_node_tag_t,
) -> Result<i32, yaml_text_fault_t>
    requires sound { IsSoundNode (length document.old.nodes)
        (unplaced (body_of body) (tag_of tag)) }
    requires sized { IsSizedBody (body_of body) }
    ensures { MatchResult result
        (λ id. (document.new ≡ with_node document.old (unplaced (body_of body) (tag_of tag)))
        × (id ≡ pos (suc (length document.old.nodes))))
        (λ f. (document.new ≡ document.old) × (f ≡ yaml_text_fault_t.Memory)) }
{
    let node = yaml_node_t {
        body,
        tag,
        start_mark: ZERO_MARK,
        end_mark: ZERO_MARK,
    };
    let count = document.parts.nodes.len();
    push_entry(&mut document.parts.nodes, node)?;
    Ok((count + 1) as i32)
}

/// Adds a scalar with copies of the texts, and gives its number. Without a tag it has `tag:yaml.org,2002:str`. A
/// refused call leaves the document unchanged; that a text isn't UTF-8 is looked at before any growth.
pub fn yaml_document_add_scalar(
    document: &mut yaml_document_t,
    tag: Option<&[u8]>,
    value: &[u8],
    style: yaml_scalar_style_t,
) -> Result<i32, yaml_text_fault_t>
    ensures { Adds document.old (new_scalar (option_map (λ t. t.now) tag.entry) value.now style)
        (IsUtf8Option (option_map (λ t. t.now) tag.entry) × IsUtf8 value.now) result document.new }
{
    if !is_utf8_option(tag) || !is_utf8(value) {
        return Err(yaml_text_fault_t::NotUtf8);
    }
    let tag = copied_tag_or_default(document.parts.alloc, tag, yaml_node_tag_t::Str)?;
    let value = yaml_node_text_t::copied(document.parts.alloc, value)?;
    add_node(document, yaml_node_body_t::Scalar { value, style }, tag)
}

/// Adds an empty sequence with a copy of the tag, and gives its number. Without a tag it has
/// `tag:yaml.org,2002:seq`. A refused call leaves the document unchanged.
pub fn yaml_document_add_sequence(
    document: &mut yaml_document_t,
    tag: Option<&[u8]>,
    style: yaml_sequence_style_t,
) -> Result<i32, yaml_text_fault_t>
    ensures { Adds document.old (new_sequence (option_map (λ t. t.now) tag.entry) style)
        (IsUtf8Option (option_map (λ t. t.now) tag.entry)) result document.new }
{
    if !is_utf8_option(tag) {
        return Err(yaml_text_fault_t::NotUtf8);
    }
    let tag = copied_tag_or_default(document.parts.alloc, tag, yaml_node_tag_t::Seq)?;
    let items = Vec::new(document.parts.alloc);
    add_node(document, yaml_node_body_t::Sequence { items, style }, tag)
}

/// Adds an empty mapping with a copy of the tag, and gives its number. Without a tag it has
/// `tag:yaml.org,2002:map`. A refused call leaves the document unchanged.
pub fn yaml_document_add_mapping(
    document: &mut yaml_document_t,
    tag: Option<&[u8]>,
    style: yaml_mapping_style_t,
) -> Result<i32, yaml_text_fault_t>
    ensures { Adds document.old (new_mapping (option_map (λ t. t.now) tag.entry) style)
        (IsUtf8Option (option_map (λ t. t.now) tag.entry)) result document.new }
{
    if !is_utf8_option(tag) {
        return Err(yaml_text_fault_t::NotUtf8);
    }
    let tag = copied_tag_or_default(document.parts.alloc, tag, yaml_node_tag_t::Map)?;
    let pairs = Vec::new(document.parts.alloc);
    add_node(document, yaml_node_body_t::Mapping { pairs, style }, tag)
}

// One item more in a sequence.
fn push_item(node: &mut yaml_node_t, item: yaml_node_item_t) -> Result<(), yaml_text_fault_t>
    ensures { MatchResult result
        (λ _. (node_of node.new ≡ record (node_of node.old) {
          body = with_item item
              (node_of node.old).body;
        }) × (item_count (node_of node.old).body < most_entries))
        (λ f. (node_of node.new ≡ node_of node.old) × (f ≡ yaml_text_fault_t.Memory)) }
{
    match &mut node.body {
        yaml_node_body_t::Sequence { items, .. } => push_entry(items, item),
        _ => Ok(()),
    }
}

// One pair more in a mapping.
fn push_pair(node: &mut yaml_node_t, pair: yaml_node_pair_t) -> Result<(), yaml_text_fault_t>
    ensures { MatchResult result
        (λ _. (node_of node.new ≡ record (node_of node.old) {
          body = with_pair pair
              (node_of node.old).body;
        }) × (pair_count (node_of node.old).body < most_entries))
        (λ f. (node_of node.new ≡ node_of node.old) × (f ≡ yaml_text_fault_t.Memory)) }
{
    match &mut node.body {
        yaml_node_body_t::Mapping { pairs, .. } => push_entry(pairs, pair),
        _ => Ok(()),
    }
}

/// Appends an item to the sequence under a number. `yaml_document_get_node` says whether a number names a node, and
/// of which kind. The one refusal is `Memory`, and leaves the document unchanged.
pub fn yaml_document_append_sequence_item(
    document: &mut yaml_document_t,
    sequence: i32,
    item: i32,
) -> Result<(), yaml_text_fault_t>
    requires sequence { IsSequenceAt document.old sequence }
    requires item { IsSome (node_at document.old.nodes item) }
    ensures appends { Appends document.old (change_body (with_item item) sequence document.old)
        result document.new }
    // No sequence gets more than 2,147,483,647 items.
    ensures room { OnOk result (HasRoomAt item_count document.old sequence) }
{
    push_item(&mut document.parts.nodes[node_place(sequence)], item)
}

/// Appends a pair to the mapping under a number. `yaml_document_get_node` says whether a number names a node, and of which
/// kind. The one refusal is `Memory`, and leaves the document unchanged.
pub fn yaml_document_append_mapping_pair(
    document: &mut yaml_document_t,
    mapping: i32,
    key: i32,
    value: i32,
) -> Result<(), yaml_text_fault_t>
    requires mapping { IsMappingAt document.old mapping }
    requires key { IsSome (node_at document.old.nodes key) }
    requires value { IsSome (node_at document.old.nodes value) }
    ensures appends { Appends document.old
        (change_body (with_pair (record { key = key; value = value })) mapping document.old) result
        document.new }
    // No mapping gets more than 2,147,483,647 pairs.
    ensures room { OnOk result (HasRoomAt pair_count document.old mapping) }
{
    push_pair(
        &mut document.parts.nodes[node_place(mapping)],
        yaml_node_pair_t { key, value },
    )
}
