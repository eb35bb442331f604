//! Ranks of nodes: one for all that agree, with all that they hold.

ghost use Rattle.std.specs.Prelude.{◌≡◌, ◌<◌, ◌≤◌, ◌+◌, ◌≤ℤ◌, ◌||◌, pos, suc, OnOk, IfOk, length, replicate};
ghost use Rattle.yaml_round_documents.specs.Telling.{pair_keys};
ghost use Rattle.yaml_round_documents.specs.Shapes.{list_of};
ghost use Rattle.yaml_round_documents.specs.Ranks.{label_of, AreBothRanked, AreJudgedFrom, GivesRank, IfJudged, IsDue, IsJudged, IsRanking, KeepShapes, Ranked, RanksOn, AreLabels, IsSettled, LabelsTell, Tells};

use crate::shape::{all_ranked, holds_ranked, id_of, narrowed, put_shape, rank_of};
use crate::shapes::{Name, ShapeTable};
use std::alloc::{AllocError, Global};
use std::mem;
use yaml_emit_graph::{Turn, Walked, place_of, walk_nodes};
use yaml_parse_model::{yaml_document_t, yaml_node_pair_t};

/// The rank of each node by its place, 0 where it has none; the ranks of shapes; and the last rank
/// that was given.
#[derive(Drop)]
pub struct Ranks {
    table: Vec<u32>,
    shapes: ShapeTable,
    given: u32,
    alloc: Global,
}

// Whether the node at a place is to get a rank: it has none, and all that it holds have ranks.
fn is_due(ranks: &[u32], document: &yaml_document_t, at: usize) -> bool
    requires table { at < length ranks.now }
    requires small { at < 2147483647 }
    ensures { IsDue document.now.nodes ranks.now at result }
{
    if ranks[at] == 0 {
        holds_ranked(ranks, document, id_of(at))
    } else {
        false
    }
}

impl Ranks {
    /// No node has a rank.
    #[tactic(auto, using(crate::proofs::Labels::no_ranks))]
    pub fn none(alloc: Global, document: &yaml_document_t) -> Result<Ranks, AllocError>
        ensures { IfOk result (λ r. IsRanking document.now.nodes r) }
    {
        Ok(Ranks {
            table: vec![in alloc; 0; document.node_count()]?,
            shapes: ShapeTable::new(alloc),
            given: 0,
            alloc,
        })
    }

    // The rank of a shape, or the next one.
    fn rank_of_shape(&mut self, shape: &Name) -> Result<u32, AllocError>
        ensures gives { GivesRank self.old (list_of shape.now) result self.new }
        ensures table { self.new.table ≡ self.old.table }
    {
        match self.shapes.get(shape) {
            Some(rank) => Ok(rank),
            None => {
                if self.given == u32::MAX {
                    return Err(AllocError);
                }
                let rank = self.given + 1;
                let rest = Vec::from_slice(self.alloc, &shape.2)?;
                self.shapes.insert((shape.0, shape.1, rest), rank)?;
                self.given = rank;
                Ok(rank)
            }
        }
    }

    // The node at a place gets a rank, where it is due.
    #[tactic(auto, using(crate::proofs::Labels::shapes_kept))]
    fn rank_node(
        &mut self,
        room: &mut Name,
        document: &yaml_document_t,
        at: usize,
    ) -> Result<bool, AllocError>
        requires ranking { IsRanking document.now.nodes self.old }
        requires within { at < length document.now.nodes }
        requires small { at < 2147483647 }
        ensures { Ranked (λ t. IsJudged document.now.nodes t (pos (suc at))) document.now.nodes
            self.old result self.new }
    {
        if !is_due(&self.table, document, at) {
            return Ok(false);
        }
        put_shape(room, &self.table, document, at)?;
        let rank = self.rank_of_shape(room)?;
        self.table[at] = rank;
        Ok(true)
    }

    #[tactic(auto, using(crate::proofs::Labels::ranked_more, crate::proofs::Labels::none_ranked))]
    // Each node gets a rank, where it is due, the last one first.
    fn rank_each(&mut self, room: &mut Name, document: &yaml_document_t) -> Result<bool, AllocError>
        requires ranking { IsRanking document.now.nodes self.old }
        requires small { length document.now.nodes ≤ 2147483647 }
        ensures { Ranked (AreJudgedFrom 0 document.now.nodes) document.now.nodes self.old result
            self.new }
    {
        let mut any = false;
        let mut left = document.node_count();
        'nodes: while left > 0 {
            left -= 1;
            let one = self.rank_node(room, document, left)?;
            any = one | any;
        }
        Ok(any)
    }

    // The node of a number gets a rank, where it is due.
    #[tactic(auto, using(crate::proofs::Labels::ranking_of, crate::proofs::Labels::shapes_of, crate::proofs::Labels::shapes_kept))]
    fn rank_id(
        &mut self,
        room: &mut Name,
        document: &yaml_document_t,
        id: i32,
    ) -> Result<(), AllocError>
        requires ranking { IsRanking document.now.nodes self.old }
        requires small { length document.now.nodes ≤ 2147483647 }
        ensures { OnOk result (RanksOn document.now.nodes self.old self.new) }
    {
        match place_of(id) {
            Some(at) if at < document.node_count() => {
                // whether it got one is no matter here
                let _ranked = self.rank_node(room, document, at)?;
                Ok(())
            }
            _ => Ok(()),
        }
    }

    // A node gets one as a walk meets or leaves it.
    #[tactic(auto, using(crate::proofs::Labels::shapes_kept))]
    fn rank_turn(
        &mut self,
        room: &mut Name,
        document: &yaml_document_t,
        turn: Turn,
    ) -> Result<(), AllocError>
        requires ranking { IsRanking document.now.nodes self.old }
        requires small { length document.now.nodes ≤ 2147483647 }
        ensures { OnOk result (RanksOn document.now.nodes self.old self.new) }
    {
        match turn {
            Turn::First(id) => self.rank_id(room, document, id),
            Turn::Again(_) => Ok(()),
            Turn::Leave(id) => self.rank_id(room, document, id),
        }
    }

    // The same along a walk, which leaves a node after what it holds.
    #[tactic(auto, using(crate::proofs::Labels::shapes_kept, crate::proofs::Labels::shapes_along))]
    fn rank_walked(&mut self, room: &mut Name, document: &yaml_document_t) -> Result<(), AllocError>
        requires ranking { IsRanking document.now.nodes self.old }
        requires small { length document.now.nodes ≤ 2147483647 }
        ensures { OnOk result (RanksOn document.now.nodes self.old self.new) }
    {
        let Walked { turns, numbers: _ } = walk_nodes(self.alloc, document)?;
        for turn in &turns {
            self.rank_turn(room, document, *turn)?;
        }
        Ok(())
    }

    // Each node gets a rank, or holds one that has none.
    #[tactic(auto, using(crate::proofs::Labels::counted_most, crate::proofs::Labels::shapes_along, crate::proofs::Labels::shapes_of))]
    fn rank_all(&mut self, document: &yaml_document_t) -> Result<(), AllocError>
        requires ranking { IsRanking document.now.nodes self.old }
        requires small { length document.now.nodes ≤ 2147483647 }
        ensures { OnOk result (IsRanking document.now.nodes self.new
            × AreJudgedFrom 0 document.now.nodes self.new.table.items
            × KeepShapes self.old.shapes self.new.shapes) }
    {
        let mut room = (0, 0, Vec::new(self.alloc));
        self.rank_walked(&mut room, document)?;
        'passes: loop {
            match self.rank_each(&mut room, document) {
                Err(refusal) => return Err(refusal),
                Ok(false) => return Ok(()),
                Ok(true) => {}
            }
        }
    }

    // The keys of pairs get ranks, where they are due.
    #[tactic(auto, using(crate::proofs::Labels::shapes_kept, crate::proofs::Labels::shapes_along))]
    fn rank_each_key(
        &mut self,
        document: &yaml_document_t,
        pairs: &[yaml_node_pair_t],
    ) -> Result<(), AllocError>
        requires ranking { IsRanking document.now.nodes self.old }
        requires small { length document.now.nodes ≤ 2147483647 }
        ensures { OnOk result (RanksOn document.now.nodes self.old self.new) }
    {
        let mut room = (0, 0, Vec::new(self.alloc));
        for at in 0..pairs.len() {
            self.rank_id(&mut room, document, pairs[at].key)?;
        }
        Ok(())
    }

    /// The keys of pairs get ranks that distinguish them; all nodes do, and from then on are `judged`, where a key holds others.
    #[tactic(auto, using(crate::proofs::Labels::tells_ranked, crate::proofs::Labels::tells_all, crate::proofs::Labels::not_judged))]
    pub fn rank_keys(
        &mut self,
        judged: &mut bool,
        document: &yaml_document_t,
        pairs: &[yaml_node_pair_t],
    ) -> Result<(), AllocError>
        requires ranking { IsRanking document.now.nodes self.old }
        requires judged { IfJudged document.now.nodes self.old judged.old }
        requires small { length document.now.nodes ≤ 2147483647 }
        ensures ranking { OnOk result (IsRanking document.now.nodes self.new) }
        ensures judged { OnOk result (IfJudged document.now.nodes self.new judged.new) }
        ensures tells { OnOk result (Tells (pair_keys pairs.now) document.now.nodes self.new) }
    {
        if *judged {
            return Ok(());
        }
        self.rank_each_key(document, pairs)?;
        if all_ranked(&self.table, pairs) {
            return Ok(());
        }
        self.rank_all(document)?;
        *judged = true;
        Ok(())
    }

    /// The label of a node: two nodes have one label exactly where they are the same as keys.
    pub fn label_of(&self, id: i32) -> usize
        requires { pos 1 ≤ℤ id }
        ensures { result ≡ label_of self.now.table.items self.now.given id }
    {
        let rank = rank_of(&self.table, id);
        if rank == 0 {
            self.given as usize + id as usize
        } else {
            rank as usize
        }
    }

    // Hands out the table, and takes an empty one for the nodes of a document. Shapes keep their ranks.
    fn next_table(&mut self, document: &yaml_document_t) -> Result<Vec<u32>, AllocError>
        ensures table { IfOk result (λ t. t.items ≡ self.old.table.items) }
        ensures none { OnOk result (self.new.table.items
            ≡ replicate (length document.now.nodes) 0) }
        ensures shapes { self.new.shapes ≡ self.old.shapes }
        ensures given { self.new.given ≡ self.old.given }
    {
        let none = vec![in self.alloc; 0; document.node_count()]?;
        Ok(mem::replace(&mut self.table, none))
    }

    // Ranks the nodes of a document, and then those of another; the table is that of the first.
    #[tactic(auto, using(crate::proofs::Labels::ranking_next, crate::proofs::Labels::both_after))]
    fn rank_both(
        &mut self,
        first: &yaml_document_t,
        second: &yaml_document_t,
    ) -> Result<Vec<u32>, AllocError>
        requires ranking { IsRanking first.now.nodes self.old }
        requires first { length first.now.nodes ≤ 2147483647 }
        requires second { length second.now.nodes ≤ 2147483647 }
        ensures { IfOk result (λ t. AreBothRanked first.now.nodes second.now.nodes t.items
            self.new) }
    {
        self.rank_all(first)?;
        let table = self.next_table(second)?;
        self.rank_all(second)?;
        Ok(table)
    }
}

/// A label for each node of two documents, by its place.
#[derive(Drop)]
pub struct BothLabels {
    pub first: Vec<u32>,
    pub second: Vec<u32>,
}

// Nodes without a rank get numbers of their own after a floor.
#[tactic(auto, using(crate::proofs::Settling::none_settled, crate::proofs::Settling::all_settled))]
fn settle(table: &mut [u32], floor: usize) -> Result<(), AllocError>
    ensures { OnOk result (IsSettled table.old floor table.new) }
{
    let floor = narrowed(floor)? as usize;
    for at in 0..table.len() {
        if table[at] == 0 {
            table[at] = narrowed(floor + at + 1)?;
        }
    }
    Ok(())
}

// The labels by ranks.
fn labels_of(first: Vec<u32>, ranks: Ranks) -> Result<BothLabels, AllocError>
    ensures { IfOk result (λ l. AreLabels first.items ranks.table.items ranks.given l) }
{
    let Ranks {
        table,
        shapes,
        given,
        alloc: _,
    } = ranks;
    drop(shapes);
    let mut labels = BothLabels {
        first,
        second: table,
    };
    let floor = given as usize;
    settle(&mut labels.first, floor)?;
    settle(&mut labels.second, floor + labels.first.len() + 1)?;
    Ok(labels)
}

/// Labels of the nodes of two documents: two nodes have one exactly where they are the same.
pub fn label_both(
    alloc: Global,
    first: &yaml_document_t,
    second: &yaml_document_t,
) -> Result<BothLabels, AllocError>
    requires first { length first.now.nodes ≤ 2147483647 }
    requires second { length second.now.nodes ≤ 2147483647 }
    ensures { IfOk result (λ l. LabelsTell first.now.nodes second.now.nodes l) }
{
    let mut ranks = Ranks::none(alloc, first)?;
    match ranks.rank_both(first, second) {
        Ok(table) => {
            let labels = labels_of(table, ranks)?;
            Ok(labels)
        }
        Err(refusal) => Err(refusal),
    }
}
