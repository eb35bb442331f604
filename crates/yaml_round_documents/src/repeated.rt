//! The repeated keys.

ghost use Rattle.std.specs.Prelude.{◌≡◌, ◌↔◌, ◌<◌, ◌≤◌, ◌≤ℤ◌, ◌++◌, [], suc, pos, OnOk, IfOk, length};
ghost use Rattle.yaml_parse_model.specs.Documents.{ArePairs, IsId, node_at};
ghost use Rattle.yaml_emit_graph.specs.Graph.{body_of_id};
ghost use Rattle.yaml_round_documents.specs.Ranks.{Tells};
ghost use Rattle.yaml_round_documents.specs.Telling.{AreSameKeys, HaveDistinctKeys, IsTeller, Meets, TellsKey, TellsKeys, TellsMore, end_at, is_plain_merge, keys_of, label_by, mark_at, pair_keys, told_of};

use crate::apart::are_apart;
use crate::ranks::Ranks;
use crate::shape::id_of;
use crate::shapes::ShapeTable;
use std::alloc::{AllocError, Global};
use yaml_parse_model::{
    MAX_ENTRIES, ZERO_MARK, yaml_document_delete, yaml_document_get_node, yaml_document_t,
    yaml_mark_t, yaml_node_body_t, yaml_node_pair_t, yaml_scalar_style_t,
};

/// A key that is the same as an earlier key of its mapping.
#[derive(Clone, Copy, PartialEq, Eq, Debug)]
pub struct yaml_same_key_t {
    /// The number of its node.
    pub key: i32,
    /// The number of the first one's node.
    pub first: i32,
    /// Where its node begins.
    pub mark: yaml_mark_t,
    /// Where its node ends.
    pub end_mark: yaml_mark_t,
    /// Where the first one's node begins.
    pub first_mark: yaml_mark_t,
}

// Where a node begins.
fn mark_at(document: &yaml_document_t, id: i32) -> yaml_mark_t
    ensures { result ≡ mark_at (node_at document.now.nodes id) }
{
    yaml_document_get_node(document, id).map_or(ZERO_MARK, |node| node.start_mark)
}

// Where a node ends.
fn end_at(document: &yaml_document_t, id: i32) -> yaml_mark_t
    ensures { result ≡ end_at (node_at document.now.nodes id) }
{
    yaml_document_get_node(document, id).map_or(ZERO_MARK, |node| node.end_mark)
}

fn is_plain_merge(document: &yaml_document_t, id: i32) -> bool
    ensures { result ≡ is_plain_merge (body_of_id document.now.nodes id) }
{
    match yaml_document_get_node(document, id) {
        None => false,
        Some(node) => match &node.body {
            yaml_node_body_t::Scalar {
                value,
                style: yaml_scalar_style_t::YAML_PLAIN_SCALAR_STYLE,
            } => value.as_slice() == b"<<".as_slice(),
            _ => false,
        },
    }
}

// The number of a node, which is kept as a natural one. Larger ones are refused as memory is.
fn number_kept(number: u32) -> Result<i32, AllocError>
    ensures { IfOk result (λ n. n ≡ pos number) }
{
    if number <= 0x7fff_ffff {
        Ok(number as i32)
    } else {
        Err(AllocError)
    }
}

// The first key with that label that was met; where there is none, this one is it from now on.
fn meet(
    alloc: Global,
    met: &mut ShapeTable,
    label: usize,
    key: i32,
) -> Result<Option<i32>, AllocError>
    requires { pos 1 ≤ℤ key }
    ensures { Meets met.old label key result met.new }
{
    let name = (label as u64, 0, Vec::new(alloc));
    match met.get(&name) {
        Some(first) => Ok(Some(number_kept(first)?)),
        None => {
            met.insert(name, key as u32)?;
            Ok(None)
        }
    }
}

// A key is reported where one before it is the same.
fn tell(
    told: &mut Vec<yaml_same_key_t>,
    document: &yaml_document_t,
    key: i32,
    first: Option<i32>,
) -> Result<(), AllocError>
    ensures { OnOk result (told.new.items ≡ told.old.items
        ++ told_of document.now.nodes key first) }
{
    match first {
        None => Ok(()),
        Some(first) => {
            if is_plain_merge(document, key) {
                return Ok(());
            }
            told.push(yaml_same_key_t {
                key,
                first,
                mark: mark_at(document, key),
                end_mark: end_at(document, key),
                first_mark: mark_at(document, first),
            })?;
            Ok(())
        }
    }
}

// A pair's key is met, and reported where one before it is the same.
fn tell_key(
    alloc: Global,
    told: &mut Vec<yaml_same_key_t>,
    document: &yaml_document_t,
    ranks: &Ranks,
    met: &mut ShapeTable,
    pair: yaml_node_pair_t,
) -> Result<(), AllocError>
    requires id { IsId (length document.now.nodes) pair.key }
    ensures { OnOk result (TellsKey document.now.nodes (label_by ranks.now pair.key) pair.key
        met.old met.new told.old.items told.new.items) }
{
    let label = ranks.label_of(pair.key);
    let first = meet(alloc, met, label, pair.key)?;
    tell(told, document, pair.key, first)
}

// The keys of a mapping, by ranks that distinguish them.
#[tactic(auto, using(crate::proofs::Meeting::so_far_none))]
fn tell_ranked(
    alloc: Global,
    told: &mut Vec<yaml_same_key_t>,
    document: &yaml_document_t,
    ranks: &Ranks,
    pairs: &[yaml_node_pair_t],
) -> Result<(), AllocError>
    requires pairs { ArePairs (length document.now.nodes) pairs.now }
    requires tells { Tells (pair_keys pairs.now) document.now.nodes ranks.now }
    ensures { OnOk result (TellsKeys document.now.nodes (pair_keys pairs.now) told.old.items
        told.new.items) }
{
    let mut met = ShapeTable::new(alloc);
    for place in 0..pairs.len() {
        let pair = pairs[place];
        tell_key(alloc, told, document, ranks, &mut met, pair)?;
    }
    Ok(())
}

/// What says which keys of a document are equal: room for the numbers of texts, ranks of nodes, and whether all nodes were judged.
#[derive(Drop)]
struct Teller {
    numbers: Vec<u64>,
    ranks: Ranks,
    judged: bool,
    alloc: Global,
}

impl Teller {
    // The keys of a mapping. They get ranks only where two have one number of their texts.
    #[tactic(auto, using(crate::proofs::Meeting::none_told))]
    fn tell_pairs(
        &mut self,
        told: &mut Vec<yaml_same_key_t>,
        document: &yaml_document_t,
        pairs: &[yaml_node_pair_t],
    ) -> Result<(), AllocError>
        requires teller { IsTeller document.now.nodes self.old }
        requires pairs { ArePairs (length document.now.nodes) pairs.now }
        requires small { length document.now.nodes ≤ 2147483647 }
        ensures teller { OnOk result (IsTeller document.now.nodes self.new) }
        ensures tells { OnOk result (TellsKeys document.now.nodes (pair_keys pairs.now)
            told.old.items told.new.items) }
    {
        if are_apart(&mut self.numbers, document, pairs)? {
            return Ok(());
        }
        self.ranks.rank_keys(&mut self.judged, document, pairs)?;
        tell_ranked(self.alloc, told, document, &self.ranks, pairs)
    }

    // The keys of the node at a place, if it is a mapping.
    #[tactic(auto, using(crate::proofs::Meeting::no_keys))]
    fn tell_node(
        &mut self,
        told: &mut Vec<yaml_same_key_t>,
        document: &yaml_document_t,
        place: usize,
    ) -> Result<(), AllocError>
        requires teller { IsTeller document.now.nodes self.old }
        requires small { length document.now.nodes ≤ 2147483647 }
        requires within { place < 2147483647 }
        ensures teller { OnOk result (IsTeller document.now.nodes self.new) }
        ensures tells { OnOk result (TellsKeys document.now.nodes
            (keys_of (body_of_id document.now.nodes (pos (suc place)))) told.old.items
            told.new.items) }
    {
        match yaml_document_get_node(document, id_of(place)) {
            None => Ok(()),
            Some(node) => match &node.body {
                yaml_node_body_t::No => Ok(()),
                yaml_node_body_t::Scalar { .. } => Ok(()),
                yaml_node_body_t::Sequence { .. } => Ok(()),
                yaml_node_body_t::Mapping { pairs, .. } => self.tell_pairs(told, document, pairs),
            },
        }
    }
}

// The repeated keys.
#[tactic(auto, using(crate::proofs::Labels::not_judged, crate::proofs::Meeting::nodes_none, crate::proofs::Meeting::nodes_next, crate::proofs::Meeting::nodes_all))]
fn told_keys(alloc: Global, document: &yaml_document_t) -> Result<Vec<yaml_same_key_t>, AllocError>
    ensures { IfOk result (λ told. AreSameKeys document.now.nodes told.items) }
{
    if document.node_count() > MAX_ENTRIES {
        return Err(AllocError);
    }
    let mut teller = Teller {
        numbers: Vec::new(alloc),
        ranks: Ranks::none(alloc, document)?,
        judged: false,
        alloc,
    };
    let mut told = Vec::new(alloc);
    for place in 0..document.node_count() {
        teller.tell_node(&mut told, document, place)?;
    }
    Ok(told)
}

/// The keys of a document's mappings, in order, to which an earlier key of the same mapping is the
/// same, each with the first such one. Keys are the same where they are one node, as where one is
/// an alias of the other, or agree in kind, tag, text and all that they hold. A plain
/// `<<` may come again. Mappings follow their nodes' numbers. The list is empty exactly where the
/// keys of each mapping are distinct.
#[tactic(auto, using(crate::proofs::Distinct::distinct))]
pub fn yaml_document_check_keys(
    alloc: Global,
    document: &yaml_document_t,
) -> Result<Vec<yaml_same_key_t>, AllocError>
    ensures same { IfOk result (λ told. AreSameKeys document.now.nodes told.items) }
    ensures distinct { IfOk result (λ told. (told.items ≡ [])
        ↔ HaveDistinctKeys document.now.nodes) }
{
    match told_keys(alloc, document) {
        Ok(told) => Ok(told),
        Err(refusal) => Err(refusal),
    }
}

/// Appends the repeated keys of a document to those of the documents before, and consumes it.
pub fn tell_document(
    alloc: Global,
    told: &mut Vec<yaml_same_key_t>,
    document: yaml_document_t,
) -> Result<(), AllocError>
    ensures { OnOk result (TellsMore document.nodes told.old.items told.new.items) }
{
    let keys = yaml_document_check_keys(alloc, &document);
    yaml_document_delete(document);
    match keys {
        Ok(keys) => told.extend_from_slice(keys.as_slice()),
        Err(refusal) => Err(refusal),
    }
}
