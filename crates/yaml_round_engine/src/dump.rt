//! The dump of a document, event by event.

ghost use Rattle.std.specs.Prelude.{◌≡◌, IfOk};
ghost use Rattle.yaml_parse.specs.Events.{borrowed_body};
ghost use Rattle.yaml_round_content.specs.Content.{content_of};
ghost use Rattle.yaml_round_engine.specs.Dumps.{IsDump, document_says, dump_left, given, GivesDumped};

use std::alloc::{AllocError, Global};
use yaml_emit_graph::Events;
use yaml_parse::{EventRef, yaml_document_t};

/// A document, and what of its dump is to come.
#[derive(Drop)]
pub(crate) struct Dump {
    pub document: yaml_document_t,
    pub events: Events,
}

impl Dump {
    /// Before the document.
    pub fn of(alloc: Global, document: yaml_document_t) -> Result<Dump, AllocError>
        ensures { IfOk result (λ d. IsDump d × (dump_left d ≡ document_says document)) }
    {
        let events = Events::of(alloc, &document)?;
        Ok(Dump { document, events })
    }

    /// Whether there is a next event, which `event` gives; none after the document's end.
    pub fn next(&mut self) -> Result<bool, AllocError>
        requires { IsDump self.old }
        ensures { GivesDumped self.old result self.new }
    {
        self.events.next()
    }

    /// The event that was given last.
    pub fn event(&self) -> EventRef<'_>
        requires { IsDump self.now }
        ensures { content_of (borrowed_body result) ≡ given self.now }
    {
        self.events.event(&self.document)
    }
}
