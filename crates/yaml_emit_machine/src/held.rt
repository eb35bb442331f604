//! The events that are held.

ghost use Rattle.std.specs.Prelude.{◌≡◌, ◌<◌, ◌≤◌, ◌++◌, ◌∷◌, [], true, false, length, OnOk, OnErr};
ghost use Rattle.yaml_parse_model.specs.Events.{body_of, borrowed_body};
ghost use Rattle.yaml_parse_model.specs.Constructors.{HasUtf8};
ghost use Rattle.yaml_emit_layout.specs.Content.{emitter_event};
ghost use Rattle.yaml_emit_layout.specs.State.{opens_empty, closes_by};
ghost use Rattle.yaml_emit_core.specs.Steps.{LaysOut, goes_on};

use std::alloc::{AllocError, Global};
use std::mem;
use yaml_emit_core::Core;
use yaml_parse_model::{EventRef, yaml_event_body_t};

/// How many events are held.
#[derive(Clone, Copy)]
pub enum Count {
    Nothing,
    One,
    Two,
    Three,
}

/// Events in their slots, the oldest first; what is in the slots after them doesn't count.
#[derive(Drop)]
pub struct Held {
    count: Count,
    first: yaml_event_body_t,
    second: yaml_event_body_t,
    third: yaml_event_body_t,
}

impl Held {
    ghost use Rattle.yaml_emit_machine.specs.Held.{held_bodies, later_bodies, held_events, oldest_event, later_events, HeldUtf8, are_some, releases, closes, needs, passes, opens_level, ends_level};

    /// No event.
    pub fn nothing() -> Held
        ensures events { held_events result ≡ [] }
        ensures utf8 { HeldUtf8 result }
    {
        Held {
            count: Count::Nothing,
            first: yaml_event_body_t::No,
            second: yaml_event_body_t::No,
            third: yaml_event_body_t::No,
        }
    }

    /// How many are held.
    pub fn len(&self) -> u64
        ensures { result ≡ length (held_events self.now) }
    {
        match self.count {
            Count::Nothing => 0,
            Count::One => 1,
            Count::Two => 2,
            Count::Three => 3,
        }
    }

    /// Whether any is held.
    // Inlined: one comparison.
    #[inline(always)]
    pub fn holds_any(&self) -> bool
        ensures some { result ≡ are_some (held_events self.now) }
        ensures none { result ≡ false → held_events self.now ≡ [] }
    {
        !matches!(self.count, Count::Nothing)
    }

    fn opens_level(event: &EventRef) -> bool
        ensures { result ≡ opens_level (emitter_event (borrowed_body event.now)) }
    {
        match event {
            EventRef::StreamStart { .. }
            | EventRef::DocumentStart { .. }
            | EventRef::SequenceStart { .. }
            | EventRef::MappingStart { .. } => true,
            _ => false,
        }
    }

    fn ends_level(event: &EventRef) -> bool
        ensures { result ≡ ends_level (emitter_event (borrowed_body event.now)) }
    {
        match event {
            EventRef::StreamEnd
            | EventRef::DocumentEnd { .. }
            | EventRef::SequenceEnd
            | EventRef::MappingEnd => true,
            _ => false,
        }
    }

    // How many events an event needs after it.
    fn needs(event: &EventRef) -> u64
        ensures { result ≡ needs (emitter_event (borrowed_body event.now)) }
    {
        match event {
            EventRef::DocumentStart { .. } => 1,
            EventRef::SequenceStart { .. } => 2,
            EventRef::MappingStart { .. } => 3,
            _ => 0,
        }
    }

    fn closes_by(first: &EventRef, second: &EventRef) -> bool
        ensures { result ≡ closes_by (emitter_event (borrowed_body first.now))
            (emitter_event (borrowed_body second.now)) }
    {
        match first {
            EventRef::SequenceStart { .. } => matches!(second, EventRef::SequenceEnd),
            EventRef::MappingStart { .. } => matches!(second, EventRef::MappingEnd),
            _ => false,
        }
    }

    /// Whether an event that comes needn't be held: nothing is, and it needs nothing after it.
    #[tactic(auto, unfolding(crate::specs::Held::is_ready))]
    pub fn passes(&self, event: &EventRef) -> bool
        ensures { result ≡ passes (held_events self.now) (emitter_event
            (borrowed_body event.now)) }
    {
        matches!(self.count, Count::Nothing) && Held::needs(event) == 0
    }

    // One more. What is left of the event counts for nothing.
    fn push(&mut self, event: &mut yaml_event_body_t)
        requires few { length (held_events self.old) < 3 }
        requires utf8 { HeldUtf8 self.old × HasUtf8 (body_of event.old) }
        ensures events { held_events self.new ≡ held_events self.old ++ emitter_event
            (body_of event.old) ∷ [] }
        ensures utf8 { HeldUtf8 self.new }
    {
        match self.count {
            Count::Nothing => {
                mem::swap(&mut self.first, event);
                self.count = Count::One;
            }
            Count::One => {
                mem::swap(&mut self.second, event);
                self.count = Count::Two;
            }
            Count::Two | Count::Three => {
                mem::swap(&mut self.third, event);
                self.count = Count::Three;
            }
        }
    }

    /// None is held any longer.
    pub fn clear(&mut self)
        ensures events { held_events self.new ≡ [] }
        ensures utf8 { HeldUtf8 self.new }
    {
        self.count = Count::Nothing;
    }

    /// A copy of one more is held; where memory is refused for it, none is any longer.
    // Out of line: most events are laid out as they come.
    #[inline(never)]
    pub fn hold(&mut self, alloc: Global, event: &EventRef) -> Result<(), AllocError>
        requires few { length (held_events self.old) < 3 }
        requires utf8 { HeldUtf8 self.old × HasUtf8 (borrowed_body event.now) }
        ensures events { OnOk result (held_events self.new ≡ held_events self.old ++ emitter_event
            (borrowed_body event.now) ∷ []) }
        ensures none { OnErr result (held_events self.new ≡ []) }
        ensures utf8 { HeldUtf8 self.new }
    {
        match event.copied(alloc) {
            Ok(copy) => {
                let mut copy = copy;
                self.push(&mut copy);
                drop(copy);
                Ok(())
            }
            Err(refused) => {
                self.clear();
                Err(refused)
            }
        }
    }

    // The oldest is gone: those after it take the slots before theirs.
    fn go_forward(&mut self)
        ensures { held_bodies self.new ≡ later_bodies self.old }
    {
        match self.count {
            Count::Nothing | Count::One => self.count = Count::Nothing,
            Count::Two => {
                mem::swap(&mut self.first, &mut self.second);
                self.count = Count::One;
            }
            Count::Three => {
                mem::swap(&mut self.first, &mut self.second);
                mem::swap(&mut self.second, &mut self.third);
                self.count = Count::Two;
            }
        }
    }

    /// Some are held, and the oldest has what it needs, with this event after them.
    #[tactic(auto, unfolding(crate::specs::Held::is_ready), using(crate::proofs::Holding::closes_last))]
    pub fn releases(&self, event: &EventRef) -> bool
        ensures is { result ≡ releases (held_events self.now) (emitter_event
            (borrowed_body event.now)) }
        ensures room { result ≡ false → length (held_events self.now) ≤ 2 }
    {
        match self.count {
            Count::Nothing => false,
            Count::One => Held::needs(&self.first.borrowed()) <= 1 || Held::ends_level(event),
            Count::Two => {
                let second = self.second.borrowed();
                Held::needs(&self.first.borrowed()) <= 2
                    || Held::ends_level(&second)
                    || (!Held::opens_level(&second) && Held::ends_level(event))
            }
            Count::Three => true,
        }
    }

    // The oldest opens a collection that the next one closes, with this event after those that are held.
    #[tactic(auto, using(crate::proofs::Opening::opens_first))]
    fn opens_empty(&self, event: &EventRef) -> bool
        ensures { result ≡ opens_empty (oldest_event self.now) (later_events self.now
            ++ emitter_event (borrowed_body event.now) ∷ []) }
    {
        let first = self.first.borrowed();
        match self.count {
            Count::Nothing | Count::One => Held::closes_by(&first, event),
            _ => Held::closes_by(&first, &self.second.borrowed()),
        }
    }

    /// Lays out the oldest, which isn't held then, with this event after those that are held.
    // Out of line: most events are laid out as they come.
    #[inline(never)]
    pub fn lay_oldest(&mut self, core: &mut Core, event: &EventRef)
        requires ready { are_some (held_events self.old) ≡ true }
        requires going { goes_on core.old.sink.status core.old.place ≡ true }
        requires utf8 { HeldUtf8 self.old }
        ensures events { held_events self.new ≡ later_events self.old }
        ensures utf8 { HeldUtf8 self.new }
        ensures laid { LaysOut core.old core.new (oldest_event self.old) (opens_empty
            (oldest_event self.old) (later_events self.old
            ++ emitter_event (borrowed_body event.now) ∷ [])) }
    {
        let empty = self.opens_empty(event);
        core.lay_out(&self.first.borrowed(), empty);
        self.go_forward();
    }
}
