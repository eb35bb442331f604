//! What of a document in the making decides whether its loading goes on: whether it has a node, and the names of its anchors.

ghost use Rattle.std.specs.Prelude.{◌≡◌, option_map, OnOk};
ghost use Rattle.yaml_parse.specs.declared.yaml_mark_t.{yaml_mark_t};
ghost use Rattle.yaml_parse.specs.Events.{borrowed_body};
ghost use Rattle.yaml_parse.specs.Loading.{Loading, step_body};
ghost use Rattle.yaml_round_engine.specs.Knowing.{has_name, IsKnown, Follows, Names, Notes, IsUnknown, Ends, Asks};

use std::alloc::{AllocError, Global};
use std::collections::BTreeSet;
use yaml_parse::EventRef;

/// Whether the document has a node, and the names of its anchors.
#[derive(Drop)]
pub struct Known {
    pub rooted: bool,
    pub names: BTreeSet<Vec<u8>>,
}

/// What an event comes to.
#[derive(Clone, Copy)]
pub enum Passed {
    /// Loading goes on after it.
    On,
    /// It ends a document without a node, and so all loads.
    Over,
    /// It is an alias that no node before it anchors.
    Undefined,
    /// A growth was refused.
    Starved,
}

impl Known {
    /// Nothing is loaded yet.
    pub fn new(alloc: Global) -> Known
        ensures { IsUnknown result }
    {
        Known {
            rooted: false,
            names: BTreeSet::new(alloc),
        }
    }

    // What was known is forgotten.
    fn forget(&mut self)
        ensures { IsUnknown self.new }
    {
        self.rooted = false;
        self.names.clear();
    }

    // A document ends.
    fn end(&mut self) -> Passed
        ensures { Ends self.old result self.new }
    {
        if self.rooted {
            self.forget();
            Passed::On
        } else {
            Passed::Over
        }
    }

    // The document has an anchor of this name.
    fn name(&mut self, alloc: Global, name: &[u8]) -> Result<(), AllocError>
        ensures { OnOk result (Names name.now self.old self.new) }
    {
        let copy = Vec::from_slice(alloc, name)?;
        self.names.insert(copy)?;
        Ok(())
    }

    // One node more, which has the anchor.
    fn note(&mut self, alloc: Global, anchor: Option<&[u8]>) -> Passed
        ensures { Notes (option_map (λ t. t.now) anchor.entry) self.old result self.new }
    {
        self.rooted = true;
        match anchor {
            None => Passed::On,
            Some(name) => match self.name(alloc, name) {
                Ok(()) => Passed::On,
                Err(_) => Passed::Starved,
            },
        }
    }

    // An alias goes on where its name is known.
    fn alias(&self, name: &[u8]) -> Passed
        ensures { Asks (has_name name.now self.now) result }
    {
        if self.names.contains(name) {
            Passed::On
        } else {
            Passed::Undefined
        }
    }

    /// What the event comes to, as the loader has it, wherever it is.
    pub fn pass(&mut self, alloc: Global, event: EventRef<'_>) -> Passed
        ensures { (l : Loading) (from to : yaml_mark_t) → IsKnown self.old l → Follows
            (step_body (borrowed_body event.entry) from to l) from result self.new }
    {
        match event {
            EventRef::Alias { anchor } => self.alias(anchor),
            EventRef::DocumentStart { .. } => {
                self.forget();
                Passed::On
            }
            EventRef::DocumentEnd { .. } => self.end(),
            EventRef::Scalar { anchor, .. } => self.note(alloc, anchor),
            EventRef::SequenceStart { anchor, .. } => self.note(alloc, anchor),
            EventRef::MappingStart { anchor, .. } => self.note(alloc, anchor),
            _ => Passed::On,
        }
    }
}
