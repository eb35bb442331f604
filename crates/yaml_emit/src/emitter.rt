//! The emitter.

ghost use Rattle.std.specs.Prelude.{◌≡◌, ◌≤◌, ◌∷◌, ◌++◌, [], length, None, Some, true, false, option_map, IfOk, IfErr};
ghost use Rattle.yaml_emit_machine.specs.scan_types.Faults.{Fault, fault_of, memory_fault};
ghost use Rattle.yaml_emit_machine.specs.scan_model.declared.fault.yaml_origin_t.TheVariants as from;
ghost use Rattle.yaml_emit_machine.specs.parse_model.Events.{borrowed_body, event_of};
ghost use Rattle.yaml_emit_machine.specs.parse_model.Constructors.{HasUtf8};
ghost use Rattle.yaml_emit_machine.specs.emit_layout.Content.{emitter_event};
ghost use Rattle.yaml_emit_machine.specs.Emitter.{IsNew, IsLimited, ShowsFront, IsWhole, Answers, Stays};
ghost use Rattle.yaml_emit_machine.specs.Held.{AreLast};
ghost use Rattle.yaml_emit_machine.specs.Within.{IsWithin};
ghost use Rattle.yaml_emit_machine.specs.Verdict.{TellsOutcome};
ghost use Rattle.yaml_emit_machine.specs.Taking.{TakesEvents, TakesSoon, NotesMemoryOf, BlamesLevels};

use std::alloc::Global;
use yaml_emit_machine::{
    EventRef, RequestedSettings, answer, first_fault, into_output, is_fresh, is_opened, let_go,
    new_emitter, output, requested_settings, set_requested_settings, take_event, take_soon,
    yaml_break_t, yaml_emitter_t, yaml_encoding_t, yaml_event_t, yaml_fault_t,
};

/// An emitter whose text has at most `limit` bytes. It is fresh, with any encoding, canonical and unicode off, indent 2,
/// width 80 and any break. Refused only when out of memory; today it takes none.
pub fn yaml_emitter_initialize(alloc: Global, limit: u64) -> Result<yaml_emitter_t, yaml_fault_t>
    ensures is { IfOk result (λ e. IsNew e limit) }
    ensures memory { IfErr result (λ f. fault_of f ≡ memory_fault from.Emitter) }
{
    Ok(new_emitter(alloc, limit))
}

/// The encoding of the text. Any encoding means the one that the stream's start names, or UTF-8. This and every other
/// setter requires that no event was given (see `yaml_emitter_fresh`); the last call counts.
pub fn yaml_emitter_set_encoding(emitter: &mut yaml_emitter_t, encoding: yaml_encoding_t)
    requires { emitter.old.fresh ≡ true }
    ensures { emitter.new ≡ record emitter.old {
      requested_settings = record emitter.old.requested_settings { encoding = encoding };
    } }
{
    let settings = RequestedSettings {
        encoding,
        ..requested_settings(emitter)
    };
    set_requested_settings(emitter, settings);
}

/// Canonical form, or pretty.
pub fn yaml_emitter_set_canonical(emitter: &mut yaml_emitter_t, canonical: bool)
    requires { emitter.old.fresh ≡ true }
    ensures { emitter.new ≡ record emitter.old {
      requested_settings = record emitter.old.requested_settings { canonical = canonical };
    } }
{
    let settings = RequestedSettings {
        canonical,
        ..requested_settings(emitter)
    };
    set_requested_settings(emitter, settings);
}

/// The columns of one level: 2 to 9; any other number means 2.
pub fn yaml_emitter_set_indent(emitter: &mut yaml_emitter_t, indent: i32)
    requires { emitter.old.fresh ≡ true }
    ensures { emitter.new ≡ record emitter.old {
      requested_settings = record emitter.old.requested_settings { indent = indent };
    } }
{
    let settings = RequestedSettings {
        indent,
        ..requested_settings(emitter)
    };
    set_requested_settings(emitter, settings);
}

/// The column past which lines are cut. A negative one means 2,147,483,647; 0 to twice the indent means 80.
pub fn yaml_emitter_set_width(emitter: &mut yaml_emitter_t, width: i32)
    requires { emitter.old.fresh ≡ true }
    ensures { emitter.new ≡ record emitter.old {
      requested_settings = record emitter.old.requested_settings { width = width };
    } }
{
    let settings = RequestedSettings {
        width,
        ..requested_settings(emitter)
    };
    set_requested_settings(emitter, settings);
}

/// Whether characters above U+007F are as they are.
pub fn yaml_emitter_set_unicode(emitter: &mut yaml_emitter_t, unicode: bool)
    requires { emitter.old.fresh ≡ true }
    ensures { emitter.new ≡ record emitter.old {
      requested_settings = record emitter.old.requested_settings { unicode = unicode };
    } }
{
    let settings = RequestedSettings {
        unicode,
        ..requested_settings(emitter)
    };
    set_requested_settings(emitter, settings);
}

/// What ends a line. Any break means LF.
pub fn yaml_emitter_set_break(emitter: &mut yaml_emitter_t, line_break: yaml_break_t)
    requires { emitter.old.fresh ≡ true }
    ensures { emitter.new ≡ record emitter.old {
      requested_settings = record emitter.old.requested_settings { line_break = line_break };
    } }
{
    let settings = RequestedSettings {
        line_break,
        ..requested_settings(emitter)
    };
    set_requested_settings(emitter, settings);
}

/// Whether no event was given.
pub fn yaml_emitter_fresh(emitter: &yaml_emitter_t) -> bool
    ensures { result ≡ emitter.now.fresh }
{
    is_fresh(emitter)
}

/// Whether the stream was opened, by a dump too.
pub fn yaml_emitter_opened(emitter: &yaml_emitter_t) -> bool
    ensures { result ≡ emitter.now.opened }
{
    is_opened(emitter)
}

/// The first fault: that of the first refused event among those that were let out, or, where the text passed a limit or memory
/// was refused by then, what stopped the output. With no fault the text has all events that were let out.
pub fn yaml_emitter_fault(emitter: &yaml_emitter_t) -> Option<&yaml_fault_t>
    ensures is { option_map (λ f. fault_of f.now) result ≡ emitter.now.fault }
    ensures tells { TellsOutcome emitter.now }
    ensures limited { (f : Fault) → emitter.now.fault ≡ Some f → IsLimited emitter.now f }
{
    first_fault(emitter)
}

/// The text so far: the front of each text that the emitter completes.
pub fn yaml_emitter_output(emitter: &yaml_emitter_t) -> &[u8]
    ensures bytes { result.now ≡ emitter.now.output }
    ensures front { ShowsFront emitter.now result.now }
{
    output(emitter)
}

/// The text: all of it, where no fault has come and no event is to come; it then passes no limit.
pub fn yaml_emitter_into_output(emitter: yaml_emitter_t) -> Vec<u8>
    ensures bytes { result.items ≡ emitter.output }
    ensures front { ShowsFront emitter result.items }
    ensures whole { IsWhole emitter result.items }
    ensures within { IsWithin emitter }
{
    let text = into_output(emitter);
    text
}

/// Drops the emitter.
pub fn yaml_emitter_delete(emitter: yaml_emitter_t) {
    let_go(emitter);
}

// The answer of a call after which there is that fault, or none.
// Inlined: one look at it.
#[inline(always)]
fn outcome_of(fault: Option<&yaml_fault_t>) -> Result<(), yaml_fault_t>
    ensures { Answers (option_map (λ f. fault_of f.now) fault.entry) result }
{
    match fault {
        None => Ok(()),
        Some(fault) => Err(*fault),
    }
}

/// Takes an event and lays out what no longer has to be held. The first fault is answered again from then on: `write error`
/// past the limit, the grammar's fault for the first event that it refuses, `indentation is too deep`, or out of memory.
/// At most three events are held then. Marks are ignored. The event's texts have to be UTF-8 (see `yaml_event_utf8`).
pub fn yaml_emitter_emit(
    emitter: &mut yaml_emitter_t,
    event: yaml_event_t,
) -> Result<(), yaml_fault_t>
    requires { HasUtf8 (event_of event).body }
    ensures takes { TakesEvents emitter.old (emitter_event (event_of event).body ∷ []) emitter.new
        [] }
    ensures memory { NotesMemoryOf (emitter_event (event_of event).body) emitter.old emitter.new }
    ensures blames { BlamesLevels (emitter_event (event_of event).body) emitter.old emitter.new }
    ensures tells { TellsOutcome emitter.new }
    ensures answer { Answers emitter.new.fault result }
    ensures stays { Stays emitter.old emitter.new }
    ensures few { length emitter.new.held ≤ 3 }
    ensures opened { (emitter.new.opened ≡ emitter.old.opened)
        × (emitter.new.closed ≡ emitter.old.closed) }
{
    let yaml_event_t { body, .. } = event;
    take_event(emitter, &body.borrowed());
    drop(body);
    outcome_of(first_fault(emitter))
}

/// `yaml_emitter_emit` of an event whose texts are borrowed: they are copied only where it has to be held. The fault, if there
/// is one, is the emitter's (`yaml_emitter_fault`). Without one, what is held are the last events that were given.
pub fn yaml_emitter_emit_ref(emitter: &mut yaml_emitter_t, event: EventRef<'_>)
    requires { HasUtf8 (borrowed_body event) }
    ensures takes { TakesEvents emitter.old (emitter_event (borrowed_body event.entry) ∷ [])
        emitter.new [] }
    ensures memory { NotesMemoryOf (emitter_event (borrowed_body event.entry)) emitter.old
        emitter.new }
    ensures blames { BlamesLevels (emitter_event (borrowed_body event.entry)) emitter.old
        emitter.new }
    ensures stays { Stays emitter.old emitter.new }
    ensures few { length emitter.new.held ≤ 3 }
    ensures opened { (emitter.new.opened ≡ emitter.old.opened)
        × (emitter.new.closed ≡ emitter.old.closed) }
    ensures last { emitter.old.fault ≡ None → AreLast (emitter.old.held
        ++ emitter_event (borrowed_body event.entry) ∷ []) emitter.new.held }
{
    take_event(emitter, &event);
}

/// Takes an event and lays it out, for a caller that asks for the text or the fault at the end of its events alone. A collection's
/// start waits for the next event where it is written otherwise if that ends it; what was held before is laid out. So the text, and
/// the first event that is wrong, are those of `yaml_emitter_emit`, but come sooner. The fault, if there is one, is the emitter's
/// (`yaml_emitter_fault`).
pub fn yaml_emitter_emit_soon(emitter: &mut yaml_emitter_t, event: &EventRef<'_>)
    requires { HasUtf8 (borrowed_body event.now) }
    ensures takes { TakesSoon emitter.old (emitter_event (borrowed_body event.now)) emitter.new }
    ensures stays { Stays emitter.old emitter.new }
{
    take_soon(emitter, event);
}

/// Puts what was laid out into the output. Returns the first fault, if there is one. An event must have been given.
pub fn yaml_emitter_flush(emitter: &mut yaml_emitter_t) -> Result<(), yaml_fault_t>
    requires { emitter.old.fresh ≡ false }
    ensures same { emitter.new ≡ emitter.old }
    ensures answer { Answers emitter.old.fault result }
{
    answer(emitter)
}
