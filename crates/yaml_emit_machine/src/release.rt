//! What no longer has to be held.

ghost use Rattle.std.specs.Prelude.{◌≡◌, ◌≤◌, length, ◌&&◌, ◌++◌, ◌∷◌, [], true, false};
ghost use Rattle.yaml_parse_model.specs.Events.{borrowed_body};
ghost use Rattle.yaml_parse_model.specs.Constructors.{HasUtf8};
ghost use Rattle.yaml_emit_layout.specs.Content.{emitter_event};
ghost use Rattle.yaml_emit_core.specs.Steps.{goes_on};
ghost use Rattle.yaml_emit_machine.specs.Held.{held_events, HeldUtf8, is_ready, releases, AreLast};
ghost use Rattle.yaml_emit_machine.specs.Laying.{LaysOn, LaysEvents, HoldsOrLays, LaysSoon};

use crate::held::Held;
use std::alloc::Global;
use yaml_emit_core::Core;
use yaml_parse_model::EventRef;

// Whether the oldest event is to be laid out, with this one after those that are held.
fn is_due(core: &Core, held: &Held, event: &EventRef) -> bool
    ensures is { result ≡ (releases (held_events held.now) (emitter_event (borrowed_body event.now))
        && goes_on core.now.sink.status core.now.place) }
    ensures room { result ≡ false → goes_on core.now.sink.status core.now.place ≡ true
        → length (held_events held.now) ≤ 2 }
{
    held.releases(event) && core.is_going()
}

// What lies ready with an event after it is laid out, up to the first event that is refused. That event isn't held yet.
fn release(core: &mut Core, held: &mut Held, event: &EventRef)
    requires utf8 { HeldUtf8 held.old }
    requires going { goes_on core.old.sink.status core.old.place ≡ true }
    ensures lays { LaysEvents core.old (held_events held.old
        ++ emitter_event (borrowed_body event.now) ∷ []) core.new (held_events held.new
        ++ emitter_event (borrowed_body event.now) ∷ []) }
    ensures utf8 { HeldUtf8 held.new }
    ensures room { length (held_events held.new) ≤ 2 }
    ensures waits { goes_on core.new.sink.status core.new.place ≡ true
        → releases (held_events held.new) (emitter_event (borrowed_body event.now)) ≡ false }
    ensures last { AreLast (held_events held.old) (held_events held.new) }
    ensures settings { core.new.settings ≡ core.old.settings }
{
    while is_due(core, held, event) {
        held.lay_oldest(core, event);
    }
}

/// An event is given after the held ones, and what no longer has to be held is laid out, the event itself too; else a copy of it is
/// held. Where memory is refused for that, nothing more is laid out. Once nothing more is, none is held.
pub fn hold_or_lay(alloc: Global, core: &mut Core, held: &mut Held, event: &EventRef)
    requires few { is_ready (held_events held.old) ≡ false }
    requires going { goes_on core.old.sink.status core.old.place ≡ true }
    requires utf8 { HeldUtf8 held.old × HasUtf8 (borrowed_body event.now) }
    ensures { HoldsOrLays core.old held.old (emitter_event (borrowed_body event.now)) core.new
        held.new }
{
    release(core, held, event);
    if !core.is_going() {
        held.clear();
    } else if held.passes(event) {
        core.lay_out(event, false);
    } else {
        match held.hold(alloc, event) {
            Ok(()) => (),
            Err(_) => core.starve(),
        }
    }
}

// All that are held are laid out, with an event after them, up to the first one that is refused. That event isn't held yet. Answers
// whether nothing has stopped the output.
fn release_all(core: &mut Core, held: &mut Held, event: &EventRef) -> bool
    requires utf8 { HeldUtf8 held.old }
    requires going { goes_on core.old.sink.status core.old.place ≡ true }
    ensures lays { LaysOn core.old (held_events held.old
        ++ emitter_event (borrowed_body event.now) ∷ []) core.new (held_events held.new
        ++ emitter_event (borrowed_body event.now) ∷ []) }
    ensures utf8 { HeldUtf8 held.new }
    ensures goes { result ≡ goes_on core.new.sink.status core.new.place }
    ensures none { result ≡ true → held_events held.new ≡ [] }
    ensures settings { core.new.settings ≡ core.old.settings }
{
    while held.holds_any() {
        held.lay_oldest(core, event);
        if !core.is_going() {
            return false;
        }
    }
    true
}

/// An event is given after the held ones, which are laid out, and it too, unless it has to wait for the next one: then a copy of it is
/// held. Where memory is refused for that, nothing more is laid out. Once nothing more is, none is held.
pub fn lay_soon(alloc: Global, core: &mut Core, held: &mut Held, event: &EventRef)
    requires going { goes_on core.old.sink.status core.old.place ≡ true }
    requires utf8 { HeldUtf8 held.old × HasUtf8 (borrowed_body event.now) }
    ensures { LaysSoon core.old held.old (emitter_event (borrowed_body event.now)) core.new
        held.new }
{
    if !release_all(core, held, event) {
        held.clear();
    } else if core.asks_empty(event) {
        match held.hold(alloc, event) {
            Ok(()) => (),
            Err(_) => core.starve(),
        }
    } else {
        core.lay_out(event, false);
    }
}
