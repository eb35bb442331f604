//! What is reported of two nodes.

ghost use Rattle.std.specs.Prelude.{◌≡◌, ◌==◌, ◌++◌, None, OnOk};
ghost use Rattle.yaml_emit_graph.specs.Graph.{body_of_id, tag_of_id};
ghost use Rattle.yaml_round_documents.specs.Same.{text_of};
ghost use Rattle.yaml_round_documents.specs.Ranks.{kind_of};
ghost use Rattle.yaml_round_documents.specs.declared.difference.yaml_node_cause_t.TheVariants.{OnlyFirst, OnlySecond};
ghost use Rattle.yaml_round_documents.specs.Matching.{in_order};
ghost use Rattle.yaml_round_documents.specs.Differences.{alone_at, order_cause, own_cause, told_alone, told_cause};

use crate::difference::{yaml_node_cause_t, yaml_node_difference_t};
use crate::matching::in_order;
use crate::shape::{number_of_kind, scalar_text};
use crate::walk::yaml_node_match_t;
use std::alloc::AllocError;
use yaml_parse_model::{YAML_STR_TAG, yaml_document_get_node, yaml_document_t};

// The kind of a node as a number.
fn node_kind(document: &yaml_document_t, id: i32) -> u32
    ensures { result ≡ kind_of (body_of_id document.now.nodes id) }
{
    yaml_document_get_node(document, id).map_or(0, |node| number_of_kind(&node.body))
}

// The text of a scalar.
fn node_text(document: &yaml_document_t, id: i32) -> &[u8]
    ensures { result.now ≡ text_of (body_of_id document.now.nodes id) }
{
    match yaml_document_get_node(document, id) {
        None => b"",
        Some(node) => scalar_text(&node.body),
    }
}

// The tag of a node.
fn node_tag(document: &yaml_document_t, id: i32) -> &[u8]
    ensures { result.now ≡ tag_of_id document.now.nodes id }
{
    match yaml_document_get_node(document, id) {
        None => YAML_STR_TAG,
        Some(node) => node.tag.as_slice(),
    }
}

/// Whether two nodes are of one kind.
pub(crate) fn same_kind(
    first: &yaml_document_t,
    second: &yaml_document_t,
    pair: yaml_node_match_t,
) -> bool
    ensures { result ≡ (kind_of (body_of_id first.now.nodes pair.first)
        == kind_of (body_of_id second.now.nodes pair.second)) }
{
    node_kind(first, pair.first) == node_kind(second, pair.second)
}

/// In what two nodes differ themselves.
pub(crate) fn own_cause(
    first: &yaml_document_t,
    second: &yaml_document_t,
    pair: yaml_node_match_t,
) -> Option<yaml_node_cause_t>
    ensures { result ≡ own_cause (body_of_id first.now.nodes pair.first)
        (body_of_id second.now.nodes pair.second) (tag_of_id first.now.nodes pair.first)
        (tag_of_id second.now.nodes pair.second) }
{
    if node_kind(first, pair.first) != node_kind(second, pair.second) {
        return Some(yaml_node_cause_t::Kind);
    }
    if node_text(first, pair.first) != node_text(second, pair.second) {
        return Some(yaml_node_cause_t::Value);
    }
    if node_tag(first, pair.first) != node_tag(second, pair.second) {
        return Some(yaml_node_cause_t::Tag);
    }
    None
}

// Tells a cause, at a place.
fn tell(
    told: &mut Vec<yaml_node_difference_t>,
    number: usize,
    pair: yaml_node_match_t,
    cause: yaml_node_cause_t,
    place: usize,
) -> Result<(), AllocError>
    ensures { OnOk result (told.new.items ≡ told.old.items
        ++ alone_at number pair cause place None) }
{
    told.push(yaml_node_difference_t {
        pair: number,
        first: pair.first,
        second: pair.second,
        cause,
        place,
    })?;
    Ok(())
}

/// Tells a cause, if there is one.
pub(crate) fn tell_cause(
    told: &mut Vec<yaml_node_difference_t>,
    number: usize,
    pair: yaml_node_match_t,
    cause: Option<yaml_node_cause_t>,
) -> Result<(), AllocError>
    ensures { OnOk result (told.new.items ≡ told.old.items ++ told_cause number pair cause) }
{
    match cause {
        None => Ok(()),
        Some(cause) => tell(told, number, pair, cause, 0),
    }
}

// Tells what is at a place, where it has no partner.
fn tell_alone_at(
    told: &mut Vec<yaml_node_difference_t>,
    number: usize,
    pair: yaml_node_match_t,
    cause: yaml_node_cause_t,
    at: usize,
    partner: Option<u32>,
) -> Result<(), AllocError>
    ensures { OnOk result (told.new.items ≡ told.old.items
        ++ alone_at number pair cause at partner) }
{
    match partner {
        Some(_) => Ok(()),
        None => tell(told, number, pair, cause, at),
    }
}

// Tells what has no partner.
#[tactic(auto, using(crate::proofs::Alone::alone_next, crate::proofs::Alone::all_alone))]
fn tell_alone(
    told: &mut Vec<yaml_node_difference_t>,
    number: usize,
    pair: yaml_node_match_t,
    cause: yaml_node_cause_t,
    partners: &[Option<u32>],
) -> Result<(), AllocError>
    ensures { OnOk result (told.new.items ≡ told.old.items
        ++ told_alone number pair cause 0 partners.now) }
{
    for at in 0..partners.len() {
        tell_alone_at(told, number, pair, cause, at, partners[at])?;
    }
    Ok(())
}

fn order_cause(is_in_order: bool) -> Option<yaml_node_cause_t>
    ensures { result ≡ order_cause is_in_order }
{
    if is_in_order {
        None
    } else {
        Some(yaml_node_cause_t::KeyOrder)
    }
}

/// Tells in what two nodes differ that they hold, by the partners of what each holds.
pub(crate) fn tell_held(
    told: &mut Vec<yaml_node_difference_t>,
    number: usize,
    pair: yaml_node_match_t,
    partners: &[Option<u32>],
    back: &[Option<u32>],
) -> Result<(), AllocError>
    ensures { OnOk result (told.new.items ≡ told.old.items
        ++ (told_cause number pair (order_cause (in_order 0 partners.now))
        ++ told_alone number pair OnlyFirst 0 partners.now
        ++ told_alone number pair OnlySecond 0 back.now)) }
{
    tell_cause(told, number, pair, order_cause(in_order(partners)))?;
    tell_alone(told, number, pair, yaml_node_cause_t::OnlyFirst, partners)?;
    tell_alone(told, number, pair, yaml_node_cause_t::OnlySecond, back)
}
