//! The events of a document.

ghost use Rattle.std.specs.Prelude.{◌≡◌, ◌≢◌, [], List, None, true, false};
ghost use Rattle.yaml_emit_layout.specs.declared.Status.TheVariants.{Going};
ghost use Rattle.yaml_emit_layout.specs.Content.{Event};
ghost use Rattle.yaml_emit_graph.specs.Graph.{dumped};
ghost use Rattle.yaml_emit_graph.specs.Events.{IsEvents, remaining_events};
ghost use Rattle.yaml_emit_machine.specs.Emitter.{Keeps};
ghost use Rattle.yaml_emit_machine.specs.Taking.{TakesEvents, Stuck, NotesMemory};
ghost use Rattle.yaml_emit_machine.specs.Dumping.{Dumps, LaysDump, MayDump, DumpsSome};

use super::yaml_emitter_t;
use crate::fault::note_refusal;
use yaml_emit_graph::Events;
use yaml_parse_model::yaml_document_t;

impl yaml_emitter_t {
    // Memory was refused for the dump: what follows counts for nothing.
    fn starve(&mut self)
        requires begun { self.old.fresh ≡ false }
        ensures dumps { (es : List Event) → Dumps self.old es self.new [] }
        ensures stopped { self.new.status ≢ Going }
    {
        self.core.starve();
        note_refusal(&self.core, &mut self.fault);
    }

    // Whether no fault has come.
    // Inlined: one look at it.
    #[inline(always)]
    fn is_right(&self) -> bool
        ensures right { result ≡ true → self.now.fault ≡ None }
        ensures faulty { result ≡ false → self.now.fault ≢ None }
        ensures stuck { result ≡ false → Stuck self.now }
        ensures running { self.now.opened ≡ true → self.now.fresh ≡ false }
    {
        match self.fault {
            None => true,
            Some(_) => false,
        }
    }

    // Whether an event was taken, and no fault has come. It is laid out, unless it has to wait for the next one.
    fn dump_next(&mut self, events: &mut Events, document: &yaml_document_t) -> bool
        requires { MayDump document.now self.old events.old }
        ensures { DumpsSome document.now self.old self.new events.old events.new result }
    {
        match events.next() {
            Ok(false) => false,
            Ok(true) => {
                self.lay_soon(&events.event(document));
                self.is_right()
            }
            Err(_) => {
                self.starve();
                false
            }
        }
    }

    // All events of a document.
    fn dump_events(&mut self, events: Events, document: &yaml_document_t)
        requires walk { IsEvents events }
        requires begun { self.old.fresh ≡ false }
        requires right { self.old.fault ≡ None }
        requires some { remaining_events document.now events ≢ [] }
        ensures dumps { LaysDump self.old (remaining_events document.now events) self.new [] }
        ensures none { self.new.status ≡ Going → self.new.held ≡ [] }
    {
        let mut events = events;
        while self.dump_next(&mut events, document) {}
    }
}

/// Takes the events of a document with a root.
pub fn dump_document(emitter: &mut yaml_emitter_t, document: &yaml_document_t)
    requires { emitter.old.opened ≡ true }
    ensures takes { TakesEvents emitter.old (dumped document.now) emitter.new [] }
    ensures memory { NotesMemory true emitter.old emitter.new }
    ensures keeps { Keeps emitter.old emitter.new }
{
    if !emitter.is_right() {
        return;
    }
    match Events::of(emitter.alloc, document) {
        Ok(events) => emitter.dump_events(events, document),
        Err(_) => emitter.starve(),
    }
}
