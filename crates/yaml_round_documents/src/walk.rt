//! The pairs of nodes that are compared, each once.

ghost use Rattle.std.specs.Prelude.{◌≡◌, ◌<◌, ◌≤ℤ◌, ◌∷◌, [], pos, OnOk, length, get_or, slice_get};
ghost use Rattle.yaml_round_documents.specs.Pairs.{listed, pair_at, pairs_by};
ghost use Rattle.yaml_round_documents.specs.Shapes.{list_of};
ghost use Rattle.yaml_round_documents.specs.Steps.{AreNumbered, AreNumbers, IsWalk, Meets, PushesOn, pair_name};

use crate::ranks::BothLabels;
use crate::shape::rank_of;
use crate::shapes::{Name, ShapeTable};
use std::alloc::{AllocError, Global};

/// A node of the first document, and the one of the second with which it is compared.
#[derive(Clone, Copy, PartialEq, Eq, Debug)]
pub struct yaml_node_match_t {
    /// The number of the first document's node.
    pub first: i32,
    /// The number of the second one's.
    pub second: i32,
    /// The number of the pair that holds them, from 0; 0 for the roots.
    pub holder: usize,
    /// The place where its first node has the first one, from 0; 0 for the roots.
    pub place: usize,
}

/// The pairs that are compared, and which were met.
#[derive(Drop)]
pub struct Walk {
    pub pairs: Vec<yaml_node_match_t>,
    pub met: ShapeTable,
    pub alloc: Global,
}

// A pair as a name.
fn pair_name(alloc: Global, pair: yaml_node_match_t) -> Name
    requires first { pos 1 ≤ℤ pair.first }
    requires second { pos 1 ≤ℤ pair.second }
    ensures { list_of result ≡ pair_name pair.first pair.second }
{
    (pair.first as u64, pair.second as u32, Vec::new(alloc))
}

// What is at a place, with the one with which it is matched.
#[tactic(auto, using(crate::proofs::Walking::partner_got, crate::proofs::Walking::partner_not_got))]
fn partner_of(
    holder: usize,
    own: &[i32],
    at: usize,
    others: &[i32],
    partner: Option<u32>,
) -> Option<yaml_node_match_t>
    requires { at < length own.now }
    ensures { listed result ≡ pair_at holder at (get_or own.now at (pos 0)) others.now partner }
{
    match partner {
        None => None,
        Some(place) => {
            let place = place as usize;
            if place < others.len() {
                Some(yaml_node_match_t {
                    first: own[at],
                    second: others[place],
                    holder,
                    place: at,
                })
            } else {
                None
            }
        }
    }
}

impl Walk {
    /// No pairs.
    #[tactic(auto, using(crate::proofs::Walking::no_walk))]
    pub fn new(alloc: Global) -> Walk
        ensures none { result.pairs.items ≡ [] }
        ensures walk { IsWalk result }
    {
        Walk {
            pairs: Vec::new(alloc),
            met: ShapeTable::new(alloc),
            alloc,
        }
    }

    /// A pair is met; the first time it is to be compared.
    #[tactic(auto, using(crate::proofs::Walking::met_again, crate::proofs::Walking::met_first))]
    pub fn meet(&mut self, pair: yaml_node_match_t) -> Result<(), AllocError>
        requires walk { IsWalk self.old }
        requires first { pos 1 ≤ℤ pair.first }
        requires second { pos 1 ≤ℤ pair.second }
        ensures { OnOk result (Meets pair self.old self.new) }
    {
        let name = pair_name(self.alloc, pair);
        match self.met.get(&name) {
            Some(_) => Ok(()),
            None => {
                self.met.insert(name, 1)?;
                self.pairs.push(pair)?;
                Ok(())
            }
        }
    }

    // A pair that differs is to be compared.
    #[tactic(auto, using(crate::proofs::Walking::pushes_same, crate::proofs::Walking::pushes_met))]
    fn push(&mut self, labels: &BothLabels, pair: yaml_node_match_t) -> Result<(), AllocError>
        requires walk { IsWalk self.old }
        requires first { pos 1 ≤ℤ pair.first }
        requires second { pos 1 ≤ℤ pair.second }
        ensures { OnOk result (PushesOn labels.now (pair ∷ []) self.old self.new) }
    {
        if rank_of(&labels.first, pair.first) == rank_of(&labels.second, pair.second) {
            return Ok(());
        }
        self.meet(pair)
    }

    // A pair, if there is one, is to be compared where it differs.
    #[tactic(auto, using(crate::proofs::Walking::pushes_none))]
    fn push_some(
        &mut self,
        labels: &BothLabels,
        pair: Option<yaml_node_match_t>,
    ) -> Result<(), AllocError>
        requires walk { IsWalk self.old }
        requires numbers { AreNumbered (listed pair) }
        ensures { OnOk result (PushesOn labels.now (listed pair) self.old self.new) }
    {
        match pair {
            None => Ok(()),
            Some(pair) => self.push(labels, pair),
        }
    }

    /// Each value is to be compared with its match, where they differ.
    #[tactic(auto, using(crate::proofs::Walking::pushed_none, crate::proofs::Walking::pushed_all))]
    pub fn push_held(
        &mut self,
        labels: &BothLabels,
        holder: usize,
        own: &[i32],
        others: &[i32],
        partners: &[Option<u32>],
    ) -> Result<(), AllocError>
        requires walk { IsWalk self.old }
        requires own { AreNumbers own.now }
        requires others { AreNumbers others.now }
        requires sized { length partners.now ≡ length own.now }
        ensures { OnOk result (PushesOn labels.now (pairs_by holder 0 own.now others.now
            partners.now) self.old self.new) }
    {
        for at in 0..own.len() {
            let pair = partner_of(holder, own, at, others, partners[at]);
            self.push_some(labels, pair)?;
        }
        Ok(())
    }

    /// The pair at a place.
    #[tactic(auto, using(crate::proofs::Walking::got, crate::proofs::Walking::not_got))]
    pub fn pair_at(&self, at: usize) -> Option<yaml_node_match_t>
        ensures { result ≡ slice_get self.now.pairs.items at }
    {
        if at < self.pairs.len() {
            Some(self.pairs[at])
        } else {
            None
        }
    }
}
