//! The shape of a node: what it looks like where those that it holds have ranks.

ghost use Rattle.std.specs.Prelude.{◌≡◌, ◌<◌, ◌++◌, ◌∷◌, ◌%◌, OnOk, IfOk, length, map, pos, suc};
ghost use Rattle.yaml_parse_model.specs.Nodes.{body_of};
ghost use Rattle.yaml_emit_graph.specs.Graph.{body_of_id, child_ids, number_at, tag_of_id};
ghost use Rattle.yaml_round_documents.specs.Same.{text_of};
ghost use Rattle.yaml_round_documents.specs.Ranks.{all_ranked, holds_ranked, kind_of, look, number_from, number_with, shape_of, with_held};
ghost use Rattle.yaml_round_documents.specs.Shapes.{list_of};
ghost use Rattle.yaml_round_documents.specs.Telling.{pair_keys};

use crate::shapes::Name;
use std::alloc::AllocError;
use yaml_emit_graph::{Open, Walkable, place_of};
use yaml_parse_model::{
    YAML_STR_TAG, yaml_document_get_node, yaml_document_t, yaml_node_body_t, yaml_node_pair_t,
};

/// The number of a node by its place, or 0.
pub fn rank_of(ranks: &[u32], id: i32) -> u32
    ensures { result ≡ number_at ranks.now id }
{
    match place_of(id) {
        Some(at) if at < ranks.len() => ranks[at],
        _ => 0,
    }
}

/// A number as it is in a shape. Larger ones are refused as memory is.
pub fn narrowed(number: usize) -> Result<u32, AllocError>
    ensures { IfOk result (λ n. n ≡ number) }
{
    if number <= 0xffff_ffff {
        Ok(number as u32)
    } else {
        Err(AllocError)
    }
}

// A number, with another one after it.
fn number_with(number: u64, more: u32) -> u64
    ensures { result ≡ number_with number more }
{
    number
        .wrapping_mul(0x100_0000_01b3)
        .wrapping_add(u64::from(more))
}

/// A number of a text. Texts with two numbers are two; two texts hardly ever have one.
#[tactic(auto, using(crate::proofs::Texts::number_next, crate::proofs::Texts::number_all))]
pub(crate) fn number_of(text: &[u8]) -> u64
    ensures { result ≡ number_from 0 text.now }
{
    let mut number = 0;
    for byte in text {
        number = number_with(number, u32::from(*byte));
    }
    number
}

/// Appends the bytes of a text to a room.
pub(crate) fn put_widened(room: &mut Vec<u32>, text: &[u8]) -> Result<(), AllocError>
    ensures { OnOk result (room.new.items ≡ room.old.items ++ text.now) }
{
    for byte in text {
        room.push(u32::from(*byte))?;
    }
    Ok(())
}

// A number of the text, by which most shapes differ, the kind, how long the two texts are, and these.
fn put_parts(room: &mut Name, kind: u32, text: &[u8], tag: &[u8]) -> Result<(), AllocError>
    ensures { OnOk result (list_of room.new ≡ number_from 0 text.now ∷ kind
        ∷ length text.now ∷ length tag.now ∷ (text.now ++ tag.now)) }
{
    let text_len = narrowed(text.len())?;
    let tag_len = narrowed(tag.len())?;
    room.0 = number_of(text);
    room.1 = kind;
    room.2.clear();
    room.2.push(text_len)?;
    room.2.push(tag_len)?;
    put_widened(&mut room.2, text)?;
    put_widened(&mut room.2, tag)
}

/// The number of a kind.
pub fn number_of_kind(body: &yaml_node_body_t) -> u32
    ensures { result ≡ kind_of (body_of body.now) }
{
    match body {
        yaml_node_body_t::No => 0,
        yaml_node_body_t::Scalar { .. } => 1,
        yaml_node_body_t::Sequence { .. } => 2,
        yaml_node_body_t::Mapping { .. } => 3,
    }
}

/// The text of a scalar.
pub fn scalar_text(body: &yaml_node_body_t) -> &[u8]
    ensures { result.now ≡ text_of (body_of body.now) }
{
    match body {
        yaml_node_body_t::Scalar { value, .. } => value.as_slice(),
        _ => b"",
    }
}

// What a node looks like, except for what it holds.
fn put_look(room: &mut Name, document: &yaml_document_t, id: i32) -> Result<(), AllocError>
    ensures { OnOk result (list_of room.new ≡ look (body_of_id document.now.nodes id)
        (tag_of_id document.now.nodes id)) }
{
    match yaml_document_get_node(document, id) {
        None => put_parts(room, 0, b"", YAML_STR_TAG),
        Some(node) => put_parts(
            room,
            number_of_kind(&node.body),
            scalar_text(&node.body),
            node.tag.as_slice(),
        ),
    }
}

// The ranks of what a node holds, which change the number.
#[tactic(auto, using(crate::proofs::KeysHolding::put_next, crate::proofs::KeysHolding::put_done, crate::proofs::KeysHolding::less_left))]
fn put_held(
    room: &mut Name,
    ranks: &[u32],
    document: &yaml_document_t,
    id: i32,
) -> Result<(), AllocError>
    ensures { OnOk result (list_of room.new ≡ with_held (list_of room.old)
        (map (number_at ranks.now) (child_ids (body_of_id document.now.nodes id)))) }
{
    let mut index = 0;
    'held: while let Some(child) = document.next_child(Open { node: id, index }) {
        let rank = rank_of(ranks, child);
        room.0 = number_with(room.0, rank);
        room.2.push(rank)?;
        index += 1;
    }
    Ok(())
}

// The shape of a node.
fn put_shape_of(
    room: &mut Name,
    ranks: &[u32],
    document: &yaml_document_t,
    id: i32,
) -> Result<(), AllocError>
    ensures { OnOk result (list_of room.new ≡ shape_of ranks.now document.now.nodes id) }
{
    put_look(room, document, id)?;
    put_held(room, ranks, document, id)
}

/// Whether all that a node holds have ranks.
#[tactic(auto, using(crate::proofs::KeysHolding::ranked_next, crate::proofs::KeysHolding::ranked_not, crate::proofs::KeysHolding::ranked_all, crate::proofs::KeysHolding::less_left))]
pub(crate) fn holds_ranked(ranks: &[u32], document: &yaml_document_t, id: i32) -> bool
    ensures { result ≡ holds_ranked ranks.now document.now.nodes id }
{
    let mut index = 0;
    'held: while let Some(child) = document.next_child(Open { node: id, index }) {
        if rank_of(ranks, child) == 0 {
            return false;
        }
        index += 1;
    }
    true
}

/// Whether the keys of pairs have ranks.
#[tactic(auto, using(crate::proofs::KeysHolding::have_next, crate::proofs::KeysHolding::have_not, crate::proofs::KeysHolding::have_all))]
pub(crate) fn all_ranked(ranks: &[u32], pairs: &[yaml_node_pair_t]) -> bool
    ensures { result ≡ all_ranked ranks.now (pair_keys pairs.now) }
{
    for at in 0..pairs.len() {
        if rank_of(ranks, pairs[at].key) == 0 {
            return false;
        }
    }
    true
}

/// The number of the node at a place.
pub(crate) fn id_of(at: usize) -> i32
    requires { at < 2147483647 }
    ensures { result ≡ pos (suc at) }
{
    (at + 1) as i32
}

/// Puts the shape of the node at a place into a room.
pub(crate) fn put_shape(
    room: &mut Name,
    ranks: &[u32],
    document: &yaml_document_t,
    at: usize,
) -> Result<(), AllocError>
    requires { at < 2147483647 }
    ensures { OnOk result (list_of room.new ≡ shape_of ranks.now document.now.nodes
        (pos (suc at))) }
{
    put_shape_of(room, ranks, document, id_of(at))
}
