//! The emitter.

ghost use Rattle.std.specs.Prelude.{◌≡◌, ◌≤◌, ◌∷◌, ◌++◌, [], length, Some, None, true, false, option_map, OnErr};
ghost use Rattle.yaml_scan_model.specs.scan_types.Faults.{Fault, fault_of};
ghost use Rattle.yaml_parse_model.specs.Events.{borrowed_body};
ghost use Rattle.yaml_parse_model.specs.Constructors.{HasUtf8};
ghost use Rattle.yaml_emit_layout.specs.Content.{emitter_event};
ghost use Rattle.yaml_emit_machine.specs.Emitter.{stream_encoding, IsNew, IsLimited, ShowsFront, IsWhole, Answers, Stays};
ghost use Rattle.yaml_emit_machine.specs.Held.{AreLast};
ghost use Rattle.yaml_emit_machine.specs.Within.{IsWithin};
ghost use Rattle.yaml_emit_machine.specs.Verdict.{TellsOutcome};
ghost use Rattle.yaml_emit_machine.specs.Taking.{TakesEvents, TakesOne, TakesSoon, Stuck, NotesMemoryOf, BlamesLevels, ComesIntoForce};

mod dump;
mod resume;

use crate::fault::note;
use crate::held::Held;
use crate::release::{hold_or_lay, lay_soon};
pub use dump::dump_document;
pub use resume::{directives, outer, resumed, stand};
use std::alloc::Global;
use std::marker::Model;
use yaml_emit_core::Core;
use yaml_emit_layout::{RequestedSettings, settled};
use yaml_parse_model::EventRef;
use yaml_scan_model::{yaml_encoding_t, yaml_fault_t};

/// An emitter: events to text.
#[derive(Drop)]
pub struct yaml_emitter_t {
    requested_settings: RequestedSettings,
    limit: u64,
    alloc: Global,
    core: Core,
    held: Held,
    /// No event was given.
    fresh: bool,
    opened: bool,
    closed: bool,
    /// The first fault.
    fault: Option<yaml_fault_t>,
}

impl Model for yaml_emitter_t {
    ghost use Rattle.yaml_emit_machine.specs.Emitter.{Emitter};

    ghost Value = { Emitter };

    ghost use Rattle.yaml_emit_machine.specs.Views.{emitter_of, IsEmitter};

    ghost view = { emitter_of };

    ghost invariant = { IsEmitter };
}

// The encoding of a stream that starts with an event.
fn stream_encoding(event: &EventRef) -> yaml_encoding_t
    ensures { result ≡ stream_encoding (emitter_event (borrowed_body event.now)) }
{
    match event {
        EventRef::StreamStart { encoding } => *encoding,
        _ => yaml_encoding_t::YAML_ANY_ENCODING,
    }
}

/// A fresh emitter, whose text has at most `limit` bytes.
#[tactic(auto, using(yaml_emit_core::proofs::Fresh::settled_step))]
pub fn new_emitter(alloc: Global, limit: u64) -> yaml_emitter_t
    ensures { IsNew result limit }
{
    let requested_settings = RequestedSettings::new();
    yaml_emitter_t {
        requested_settings,
        limit,
        alloc,
        core: Core::new(
            alloc,
            settled(requested_settings, yaml_encoding_t::YAML_ANY_ENCODING),
            limit,
        ),
        held: Held::nothing(),
        fresh: true,
        opened: false,
        closed: false,
        fault: None,
    }
}

/// What was set.
pub fn requested_settings(emitter: &yaml_emitter_t) -> RequestedSettings
    ensures { result ≡ emitter.now.requested_settings }
{
    emitter.requested_settings
}

/// Sets it, where no event was given.
pub fn set_requested_settings(emitter: &mut yaml_emitter_t, requested_settings: RequestedSettings)
    requires { emitter.old.fresh ≡ true }
    ensures { emitter.new ≡ record emitter.old { requested_settings = requested_settings } }
{
    emitter.requested_settings = requested_settings;
}

/// Whether no event was given.
// Inlined: one read.
#[inline(always)]
pub fn is_fresh(emitter: &yaml_emitter_t) -> bool
    ensures { result ≡ emitter.now.fresh }
{
    emitter.fresh
}

/// Whether the stream was opened.
// Inlined: one read.
#[inline(always)]
pub fn is_opened(emitter: &yaml_emitter_t) -> bool
    ensures is { result ≡ emitter.now.opened }
    ensures running { emitter.now.opened ≡ true → emitter.now.fresh ≡ false }
{
    emitter.opened
}

/// Whether it was closed.
// Inlined: one read.
#[inline(always)]
pub fn is_closed(emitter: &yaml_emitter_t) -> bool
    ensures { result ≡ emitter.now.closed }
{
    emitter.closed
}

/// Notes whether the stream was opened. One that was has events.
// Inlined: one write.
#[inline(always)]
pub fn set_opened(emitter: &mut yaml_emitter_t, opened: bool)
    requires { emitter.old.fresh ≡ false }
    ensures { emitter.new ≡ record emitter.old { opened = opened } }
{
    emitter.opened = opened;
}

/// Notes whether it was closed.
// Inlined: one write.
#[inline(always)]
pub fn set_closed(emitter: &mut yaml_emitter_t, closed: bool)
    ensures { emitter.new ≡ record emitter.old { closed = closed } }
{
    emitter.closed = closed;
}

/// The first fault.
// Inlined: one look at it.
#[inline(always)]
#[tactic(auto, using(crate::proofs::Emitting::inside_tells))]
pub fn first_fault(emitter: &yaml_emitter_t) -> Option<&yaml_fault_t>
    ensures is { option_map (λ f. fault_of f.now) result ≡ emitter.now.fault }
    ensures tells { TellsOutcome emitter.now }
    ensures limited { (f : Fault) → emitter.now.fault ≡ Some f → IsLimited emitter.now f }
{
    emitter.fault.as_ref()
}

/// The text so far.
pub fn output(emitter: &yaml_emitter_t) -> &[u8]
    ensures bytes { result.now ≡ emitter.now.output }
    ensures front { ShowsFront emitter.now result.now }
{
    emitter.core.output()
}

/// The text.
pub fn into_output(emitter: yaml_emitter_t) -> Vec<u8>
    ensures bytes { result.items ≡ emitter.output }
    ensures front { ShowsFront emitter result.items }
    ensures whole { IsWhole emitter result.items }
    ensures within { IsWithin emitter }
{
    let yaml_emitter_t { core, held, .. } = emitter;
    drop(held);
    core.into_output()
}

/// Drops it.
pub fn let_go(emitter: yaml_emitter_t) {
    drop(emitter);
}

impl yaml_emitter_t {
    // The settings come into force with the first event.
    // Out of line: it runs once a stream.
    #[inline(never)]
    #[tactic(auto, using(yaml_emit_core::proofs::Fresh::settled_step))]
    fn begin(&mut self, event: &EventRef)
        requires { self.old.fresh ≡ true }
        ensures begins { ComesIntoForce self.old (emitter_event (borrowed_body event.now))
            self.new }
    {
        let settings = settled(self.requested_settings, stream_encoding(event));
        self.core = Core::new(self.alloc, settings, self.limit);
        self.fresh = false;
    }

    // An event is given after those that are held.
    fn lay(&mut self, event: &EventRef)
        requires utf8 { HasUtf8 (borrowed_body event.now) }
        requires right { self.old.fault ≡ None }
        requires begun { self.old.fresh ≡ false }
        ensures { TakesOne self.old (emitter_event (borrowed_body event.now)) self.new }
    {
        hold_or_lay(self.alloc, &mut self.core, &mut self.held, event);
        note(&self.core, &mut self.fault);
    }

    // An emitter without a fault takes an event.
    fn begin_or_lay(&mut self, event: &EventRef)
        requires utf8 { HasUtf8 (borrowed_body event.now) }
        requires right { self.old.fault ≡ None }
        ensures { TakesOne self.old (emitter_event (borrowed_body event.now)) self.new }
    {
        if self.fresh {
            self.begin(event);
            self.lay(event);
        } else {
            self.lay(event);
        }
    }

    // An event is given, and what is held is laid out, and it too unless it has to wait for the next one.
    fn lay_soon(&mut self, event: &EventRef)
        requires utf8 { HasUtf8 (borrowed_body event.now) }
        requires right { self.old.fault ≡ None }
        requires begun { self.old.fresh ≡ false }
        ensures { TakesSoon self.old (emitter_event (borrowed_body event.now)) self.new }
    {
        lay_soon(self.alloc, &mut self.core, &mut self.held, event);
        note(&self.core, &mut self.fault);
    }

    // An emitter without a fault takes an event so.
    fn begin_or_lay_soon(&mut self, event: &EventRef)
        requires utf8 { HasUtf8 (borrowed_body event.now) }
        requires right { self.old.fault ≡ None }
        ensures { TakesSoon self.old (emitter_event (borrowed_body event.now)) self.new }
    {
        if self.fresh {
            self.begin(event);
            self.lay_soon(event);
        } else {
            self.lay_soon(event);
        }
    }
}

/// The first fault, if there is one, as a call answers it.
// Inlined: one look at the fault.
#[inline(always)]
#[tactic(auto, using(crate::proofs::Emitting::inside_tells))]
pub fn answer(emitter: &yaml_emitter_t) -> Result<(), yaml_fault_t>
    ensures answer { Answers emitter.now.fault result }
    ensures tells { TellsOutcome emitter.now }
    ensures stuck { OnErr result (Stuck emitter.now) }
    ensures few { length emitter.now.held ≤ 3 }
    ensures begun { OnErr result (emitter.now.fresh ≡ false) }
    ensures running { emitter.now.opened ≡ true → emitter.now.fresh ≡ false }
{
    match emitter.fault {
        None => Ok(()),
        Some(fault) => Err(fault),
    }
}

/// Takes an event, unless a fault has come.
// Out of line: the whole work on an event is there once, not in each of its callers.
#[inline(never)]
pub fn take_event(emitter: &mut yaml_emitter_t, event: &EventRef)
    requires { HasUtf8 (borrowed_body event.now) }
    ensures takes { TakesEvents emitter.old (emitter_event (borrowed_body event.now) ∷ [])
        emitter.new [] }
    ensures memory { NotesMemoryOf (emitter_event (borrowed_body event.now)) emitter.old
        emitter.new }
    ensures blames { BlamesLevels (emitter_event (borrowed_body event.now)) emitter.old
        emitter.new }
    ensures stays { Stays emitter.old emitter.new }
    ensures few { length emitter.new.held ≤ 3 }
    ensures opened { (emitter.new.opened ≡ emitter.old.opened)
        × (emitter.new.closed ≡ emitter.old.closed) }
    ensures begun { emitter.new.fresh ≡ false }
    ensures last { emitter.old.fault ≡ None → AreLast (emitter.old.held
        ++ emitter_event (borrowed_body event.now) ∷ []) emitter.new.held }
{
    match emitter.fault {
        Some(_) => (),
        None => emitter.begin_or_lay(event),
    }
}

/// Takes an event, unless a fault has come. It is laid out, and so is what is held, unless it has to wait for the next one.
// Out of line: the whole work on an event is there once, not in each of its callers.
#[inline(never)]
pub fn take_soon(emitter: &mut yaml_emitter_t, event: &EventRef)
    requires { HasUtf8 (borrowed_body event.now) }
    ensures takes { TakesSoon emitter.old (emitter_event (borrowed_body event.now)) emitter.new }
    ensures stays { Stays emitter.old emitter.new }
{
    match emitter.fault {
        Some(_) => (),
        None => emitter.begin_or_lay_soon(event),
    }
}
