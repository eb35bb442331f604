//! What is before a place in two streams, as far as it was passed.

ghost use Rattle.std.specs.Prelude.{◌≡◌, OnOk};
ghost use Rattle.yaml_parse.specs.Events.{borrowed_body};
ghost use Rattle.yaml_round_engine.specs.Dumps.{EndsFront, IsStarted, PassesEvent};

use crate::cause::yaml_cause_t;
use crate::trail::{Trail, one_more};
use std::alloc::{AllocError, Global};
use yaml_parse::EventRef;

/// The state of the comparison of two dumps: the path, and how many events are before it.
#[derive(Drop)]
pub struct Front {
    pub trail: Trail,
    pub events: u64,
}

impl Front {
    /// After the start of both streams.
    pub fn new(alloc: Global) -> Front
        ensures { IsStarted result }
    {
        Front {
            trail: Trail::new(alloc),
            events: 1,
        }
    }

    // The event is before both dumps' next ones.
    pub(crate) fn pass(&mut self, event: EventRef<'_>) -> Result<(), AllocError>
        ensures { OnOk result (PassesEvent (borrowed_body event.entry) self.old self.new) }
    {
        let next = one_more(self.events)?;
        self.events = next;
        self.trail.go_past(event, true)
    }

    // The dumps differ there, in that.
    pub(crate) fn part_at(&mut self, cause: yaml_cause_t)
        ensures { EndsFront cause self.old self.new }
    {
        self.trail.place.cause = cause;
    }
}
