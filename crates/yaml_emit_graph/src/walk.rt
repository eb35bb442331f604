//! A walk over nodes, with a list of its own.

ghost use Rattle.std.specs.Prelude.{◌≡◌, [], List, None, Some, IfOk, OnOk, length, replicate, true, false};
ghost use Rattle.yaml_parse_model.specs.Nodes.{Node};
ghost use Rattle.yaml_emit_graph.specs.Graph.{place_at, is_met, meet, child_ids, is_collection, body_of_id};
ghost use Rattle.yaml_emit_graph.specs.Walk.{NextHeld, IsWalk, stack_of, with_opened, Marks, Visited, Comes};

use std::alloc::{AllocError, Global};

/// A collection that is being walked, and how many of the numbers that it holds have come.
#[derive(Clone, Copy)]
pub struct Open {
    pub node: i32,
    pub index: usize,
}

/// What a walk goes over: nodes under numbers from 1, and the numbers that each one holds.
pub trait Walkable {
    // The nodes, or others that hold the same numbers.
    ghost nodes: { Self → List Node };

    /// How many nodes there are.
    fn count(&self) -> usize
        ensures { result ≡ length (nodes self.now) };

    /// Whether the node under a number is a collection.
    fn is_collection(&self, id: i32) -> bool
        ensures { result ≡ is_collection (body_of_id (nodes self.now) id) };

    /// The number that comes next in a node.
    fn next_child(&self, from: Open) -> Option<i32>
        ensures { NextHeld (child_ids (body_of_id (nodes self.now) from.node)) from.index result };
}

/// What a walk meets.
#[derive(Clone, Copy)]
pub enum Turn {
    /// A node for the first time.
    First(i32),
    /// A node again.
    Again(i32),
    /// The end of a collection.
    Leave(i32),
}

/// The collections that are being walked, the outermost first, and the nodes that were met, by their places.
#[derive(Drop)]
pub struct Walk {
    started: bool,
    stack: Vec<Open>,
    met: Vec<bool>,
}

/// The place of a node in the list of nodes, by its number.
pub fn place_of(id: i32) -> Option<usize>
    ensures { result ≡ place_at id }
{
    if id < 1 {
        return None;
    }
    Some((id - 1) as usize)
}

impl Walk {
    /// Before the root of that many nodes.
    pub fn new(alloc: Global, count: usize) -> Result<Walk, AllocError>
        ensures { IfOk result (λ w. (w.started ≡ false) × (stack_of w ≡ [])
            × (w.met.items ≡ replicate count false)) }
    {
        Ok(Walk {
            started: false,
            stack: Vec::new(alloc),
            met: vec![in alloc; false; count]?,
        })
    }

    fn is_met(&self, id: i32) -> bool
        ensures { result ≡ is_met self.now.met.items id }
    {
        match place_of(id) {
            Some(at) if at < self.met.len() => self.met[at],
            _ => true,
        }
    }

    fn mark(&mut self, id: i32)
        ensures marks { self.new.met.items ≡ meet self.old.met.items id }
        ensures rest { Marks self.old self.new }
    {
        match place_of(id) {
            Some(at) if at < self.met.len() => self.met[at] = true,
            _ => (),
        }
    }

    #[tactic(auto, using(crate::proofs::Walking::stack_more))]
    fn descend<G: Walkable>(&mut self, graph: &G, id: i32) -> Result<(), AllocError>
        ensures stack { OnOk result (stack_of self.new ≡ with_opened
            (is_collection (body_of_id (G.nodes graph.now) id)) id (stack_of self.old)) }
        ensures rest { (self.new.met ≡ self.old.met) × (self.new.started ≡ self.old.started) }
    {
        if !graph.is_collection(id) {
            return Ok(());
        }
        self.stack.push(Open { node: id, index: 0 })?;
        Ok(())
    }

    fn visit<G: Walkable>(&mut self, graph: &G, id: i32) -> Result<Turn, AllocError>
        ensures { Visited (G.nodes graph.now) id self.old result self.new }
    {
        if self.is_met(id) {
            Ok(Turn::Again(id))
        } else {
            self.mark(id);
            self.descend(graph, id)?;
            Ok(Turn::First(id))
        }
    }

    // What comes next in the innermost open node, or its end, or nothing where none is open.
    fn step<G: Walkable>(&mut self, graph: &G) -> Result<Option<Turn>, AllocError>
        requires walk { IsWalk (G.nodes graph.now) self.old }
        requires going { self.old.started ≡ true }
        ensures { Comes (G.nodes graph.now) self.old result self.new }
    {
        let Some(from) = self.stack.pop() else {
            return Ok(None);
        };
        let Some(child) = graph.next_child(from) else {
            return Ok(Some(Turn::Leave(from.node)));
        };
        self.stack.push(Open {
            node: from.node,
            index: from.index + 1,
        })?;
        Ok(Some(self.visit(graph, child)?))
    }

    /// What comes next, and nothing at the end.
    pub fn next<G: Walkable>(&mut self, graph: &G) -> Result<Option<Turn>, AllocError>
        requires { IsWalk (G.nodes graph.now) self.old }
        ensures { Comes (G.nodes graph.now) self.old result self.new }
    {
        if self.started {
            return self.step(graph);
        }
        self.started = true;
        Ok(Some(self.visit(graph, 1)?))
    }
}
