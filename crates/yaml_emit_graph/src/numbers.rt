//! What a walk meets, and the numbers of the nodes that it meets again.

ghost use Rattle.std.specs.Prelude.{◌≡◌, ◌<◌, length, IfOk};
ghost use Rattle.yaml_emit_graph.specs.Graph.{turns, numbers, numbered_by, next_number, number_at, none_numbered};
ghost use Rattle.yaml_emit_graph.specs.Numbers.{IsNumbering, numbering_of};

use crate::walk::{Turn, Walk, Walkable, place_of};
use std::alloc::{AllocError, Global};

/// The turns of a walk over nodes, and the number of each node by its place; 0 means none.
#[derive(Drop)]
pub struct Walked {
    pub turns: Vec<Turn>,
    pub numbers: Vec<u64>,
}

/// How many numbers were given, and the number of each node by its place; 0 means none.
#[derive(Drop)]
pub struct Numbers {
    pub given: u64,
    pub table: Vec<u64>,
}

/// The number of a node, or 0.
pub fn number_of(table: &[u64], id: i32) -> u64
    ensures { result ≡ number_at table.now id }
{
    match place_of(id) {
        Some(at) if at < table.len() => table[at],
        _ => 0,
    }
}

impl Numbers {
    /// No number is given, of that many nodes.
    pub fn none(alloc: Global, count: usize) -> Result<Numbers, AllocError>
        ensures { IfOk result (λ n. numbering_of n ≡ none_numbered count) }
    {
        Ok(Numbers {
            given: 0,
            table: vec![in alloc; 0; count]?,
        })
    }

    // The next number, to a node without one.
    #[tactic(auto, using(crate::proofs::Counting::room, crate::proofs::Counting::same_default, crate::proofs::Counting::counted_next))]
    fn number_node(&mut self, at: usize)
        requires numbers { IsNumbering (numbering_of self.old) }
        requires within { at < length self.old.table.items }
        ensures gives { numbering_of self.new ≡ next_number (numbering_of self.old) at }
        ensures numbers { IsNumbering (numbering_of self.new) }
    {
        if self.table[at] == 0 {
            self.given += 1;
            self.table[at] = self.given;
        }
    }

    /// A node that is met again gets the next number, where it has none.
    pub fn number_turn(&mut self, turn: Turn)
        requires numbers { IsNumbering (numbering_of self.old) }
        ensures gives { numbering_of self.new ≡ numbered_by turn (numbering_of self.old) }
        ensures numbers { IsNumbering (numbering_of self.new) }
    {
        match turn {
            Turn::First(_) | Turn::Leave(_) => (),
            Turn::Again(id) => match place_of(id) {
                Some(at) if at < self.table.len() => self.number_node(at),
                _ => (),
            },
        }
    }
}

/// The walk over nodes, and their numbers: a node's second visit gives it the next one, from 1.
pub fn walk_nodes<G: Walkable>(alloc: Global, graph: &G) -> Result<Walked, AllocError>
    ensures { IfOk result (λ w. (w.turns.items ≡ turns (G.nodes graph.now))
        × (w.numbers.items ≡ numbers (G.nodes graph.now))) }
{
    let count = graph.count();
    let mut walk = Walk::new(alloc, count)?;
    let mut numbers = Numbers::none(alloc, count)?;
    let mut turns = Vec::with_capacity(alloc, count)?;
    while let Some(turn) = walk.next(graph)? {
        numbers.number_turn(turn);
        turns.push(turn)?;
    }
    Ok(Walked {
        turns,
        numbers: numbers.table,
    })
}
