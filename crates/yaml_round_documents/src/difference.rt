//! The places at which two documents differ.

ghost use Rattle.std.specs.Prelude.{◌≡◌, ◌↔◌, ◌++◌, [], IfOk, OnOk, length};
ghost use Rattle.yaml_parse_model.specs.Documents.{AreSound};
ghost use Rattle.yaml_emit_graph.specs.Graph.{body_of_id};
ghost use Rattle.yaml_round_documents.specs.Ranks.{LabelsTell};
ghost use Rattle.yaml_round_documents.specs.Pairs.{held_values, key_labels, pairs_by};
ghost use Rattle.yaml_round_documents.specs.Matching.{matched};
ghost use Rattle.yaml_round_documents.specs.Differences.{AreDifferences, told_held};
ghost use Rattle.yaml_round_documents.specs.Equal.{AreEqual};
ghost use Rattle.yaml_round_documents.specs.Steps.{AreNumbers, Begins, ComparesAll, ComparesPair, IsWalk, PushesOn, first_of, second_of};

use crate::held::{Held, held_of};
use crate::matching::{Matched, match_labels};
use crate::ranks::{BothLabels, label_both};
use crate::telling::{own_cause, same_kind, tell_cause, tell_held};
use crate::walk::{Walk, yaml_node_match_t};
use std::alloc::{AllocError, Global};
use yaml_parse_model::{MAX_ENTRIES, document_is_sound, yaml_document_t};

/// In what two nodes differ.
#[derive(Clone, Copy, PartialEq, Eq, Debug)]
pub enum yaml_node_cause_t {
    /// Their kinds.
    Kind,
    /// The texts of scalars.
    Value,
    /// The tags.
    Tag,
    /// The order of the keys that both have.
    KeyOrder,
    /// The item or the pair at a place is in the first one alone.
    OnlyFirst,
    /// It is in the second one alone.
    OnlySecond,
}

/// A difference of two nodes.
#[derive(Clone, Copy, PartialEq, Eq, Debug)]
pub struct yaml_node_difference_t {
    /// The number of the pair that they are.
    pub pair: usize,
    /// The number of the first document's node.
    pub first: i32,
    /// The number of the second one's.
    pub second: i32,
    /// In what they differ.
    pub cause: yaml_node_cause_t,
    /// The place of what one has alone, from 0; 0 for other causes.
    pub place: usize,
}

/// The pairs of nodes that are compared, in order, and in what these differ.
#[derive(Drop)]
pub struct yaml_node_differences_t {
    pub pairs: Vec<yaml_node_match_t>,
    pub told: Vec<yaml_node_difference_t>,
}

// Compares what two nodes hold.
#[tactic(auto, using(crate::proofs::Comparing::matched_many))]
fn compare_held(
    labels: &BothLabels,
    walk: &mut Walk,
    told: &mut Vec<yaml_node_difference_t>,
    number: usize,
    pair: yaml_node_match_t,
    own: &Held,
    others: &Held,
) -> Result<(), AllocError>
    requires walk { IsWalk walk.old }
    requires own { AreNumbers own.now.values.items }
    requires others { AreNumbers others.now.values.items }
    requires sized { length own.now.labels.items ≡ length own.now.values.items }
    ensures told { OnOk result (told.new.items ≡ told.old.items
        ++ told_held number pair own.now.labels.items others.now.labels.items) }
    ensures pushes { OnOk result (PushesOn labels.now (pairs_by number 0 own.now.values.items
        others.now.values.items (matched own.now.labels.items others.now.labels.items)) walk.old
        walk.new) }
{
    let alloc = walk.alloc;
    let Matched { partners, back } = match_labels(alloc, &own.labels, &others.labels)?;
    tell_held(told, number, pair, &partners, &back)?;
    walk.push_held(labels, number, &own.values, &others.values, &partners)
}

// Compares what two nodes of one kind hold.
#[tactic(auto, using(crate::proofs::Holding::held_many, crate::proofs::Holding::held_numbers))]
fn compare_alike(
    first: &yaml_document_t,
    second: &yaml_document_t,
    labels: &BothLabels,
    walk: &mut Walk,
    told: &mut Vec<yaml_node_difference_t>,
    number: usize,
    pair: yaml_node_match_t,
) -> Result<(), AllocError>
    requires walk { IsWalk walk.old }
    requires first { AreSound (length first.now.nodes) first.now.nodes }
    requires second { AreSound (length second.now.nodes) second.now.nodes }
    ensures told { OnOk result (told.new.items ≡ told.old.items ++ told_held number pair
        (key_labels (first_of labels.now) (body_of_id first.now.nodes pair.first))
        (key_labels (second_of labels.now) (body_of_id second.now.nodes pair.second))) }
    ensures pushes { OnOk result (PushesOn labels.now (pairs_by number 0
        (held_values (body_of_id first.now.nodes pair.first))
        (held_values (body_of_id second.now.nodes pair.second))
        (matched (key_labels (first_of labels.now) (body_of_id first.now.nodes pair.first))
        (key_labels (second_of labels.now) (body_of_id second.now.nodes pair.second)))) walk.old
        walk.new) }
{
    let alloc = walk.alloc;
    let own = held_of(alloc, first, &labels.first, pair.first)?;
    let others = held_of(alloc, second, &labels.second, pair.second)?;
    compare_held(labels, walk, told, number, pair, &own, &others)
}

// Compares two nodes.
#[tactic(auto, using(crate::proofs::Comparing::alike_compared, crate::proofs::Comparing::unlike_compared))]
fn compare_pair(
    first: &yaml_document_t,
    second: &yaml_document_t,
    labels: &BothLabels,
    walk: &mut Walk,
    told: &mut Vec<yaml_node_difference_t>,
    number: usize,
    pair: yaml_node_match_t,
) -> Result<(), AllocError>
    requires walk { IsWalk walk.old }
    requires first { AreSound (length first.now.nodes) first.now.nodes }
    requires second { AreSound (length second.now.nodes) second.now.nodes }
    ensures { OnOk result (ComparesPair first.now.nodes second.now.nodes labels.now number pair
        walk.old walk.new told.old.items told.new.items) }
{
    tell_cause(told, number, pair, own_cause(first, second, pair))?;
    if same_kind(first, second, pair) {
        compare_alike(first, second, labels, walk, told, number, pair)
    } else {
        Ok(())
    }
}

// Compares pair after pair, until none is left.
#[tactic(auto, using(crate::proofs::Comparing::compared_next, crate::proofs::Comparing::compared_all))]
fn compare_all(
    first: &yaml_document_t,
    second: &yaml_document_t,
    labels: &BothLabels,
    walk: &mut Walk,
    told: &mut Vec<yaml_node_difference_t>,
) -> Result<(), AllocError>
    requires walk { IsWalk walk.old }
    requires start { Begins first.now.nodes second.now.nodes labels.now walk.old told.old.items }
    requires first { AreSound (length first.now.nodes) first.now.nodes }
    requires second { AreSound (length second.now.nodes) second.now.nodes }
    ensures { OnOk result (ComparesAll first.now.nodes second.now.nodes labels.now walk.new
        told.new.items) }
{
    for done in 0..usize::MAX {
        match walk.pair_at(done) {
            None => return Ok(()),
            Some(pair) => compare_pair(first, second, labels, walk, told, done, pair)?,
        }
    }
    Err(AllocError)
}

// The differences, by labels.
#[tactic(auto, using(crate::proofs::Comparing::roots_met, crate::proofs::Comparing::differences))]
fn walk_from_roots(
    alloc: Global,
    first: &yaml_document_t,
    second: &yaml_document_t,
    labels: &BothLabels,
) -> Result<yaml_node_differences_t, AllocError>
    requires first { AreSound (length first.now.nodes) first.now.nodes }
    requires second { AreSound (length second.now.nodes) second.now.nodes }
    requires tell { LabelsTell first.now.nodes second.now.nodes labels.now }
    ensures { IfOk result (λ d. AreDifferences first.now.nodes second.now.nodes d.pairs.items
        d.told.items) }
{
    let mut walk = Walk::new(alloc);
    let mut told = Vec::new(alloc);
    walk.meet(yaml_node_match_t {
        first: 1,
        second: 1,
        holder: 0,
        place: 0,
    })?;
    compare_all(first, second, labels, &mut walk, &mut told)?;
    let Walk {
        pairs,
        met,
        alloc: _,
    } = walk;
    drop(met);
    Ok(yaml_node_differences_t { pairs, told })
}

/// Every place where two documents differ. The roots are compared, and wherever nodes that are
/// compared aren't the same, what they hold at one place: items by their places, and values by
/// their keys, of which the k-th of equal ones in one is matched with the k-th in the other. Each
/// pair is compared once, and has the number of the one that first met it and the place there, so
/// that the way from the roots is known. What differs is listed with the pair's number and the
/// cause, and what one of them holds alone with its place; pairs that don't differ themselves
/// aren't listed. The list is empty exactly where the documents are equal.
#[tactic(auto, using(crate::proofs::Equality::none_told))]
pub fn yaml_document_differences(
    alloc: Global,
    first: &yaml_document_t,
    second: &yaml_document_t,
) -> Result<yaml_node_differences_t, AllocError>
    ensures differences { IfOk result (λ d. AreDifferences first.now.nodes second.now.nodes
        d.pairs.items d.told.items) }
    ensures equal { IfOk result (λ d. (d.told.items ≡ []) ↔ AreEqual first.now.nodes
        second.now.nodes) }
{
    // laws: what the nodes hold are nodes
    document_is_sound(first);
    document_is_sound(second);
    if first.node_count() > MAX_ENTRIES {
        return Err(AllocError);
    }
    if second.node_count() > MAX_ENTRIES {
        return Err(AllocError);
    }
    let labels = label_both(alloc, first, second)?;
    match walk_from_roots(alloc, first, second, &labels) {
        Ok(differences) => Ok(differences),
        Err(refusal) => Err(refusal),
    }
}
