//! An emitter: one event after another is laid out.

ghost use Rattle.std.specs.Prelude.{◌≡◌, ◌<◌, ◌^◌, false};

mod events;
mod outer;
mod resume;
mod stopped;

use crate::level::Levels;
use crate::table::DirectiveTable;
pub use resume::yaml_emitter_stand_t;
use std::alloc::Global;
use std::marker::Model;
use yaml_emit_layout::{Expected, Problem, Settings, Status};
use yaml_emit_output::{Draft, Output};

/// An emitter: the settings in force, the text that is laid out, what the output has of it, what comes next, and the directives of the
/// document.
#[derive(Drop)]
pub struct Core {
    settings: Settings,
    draft: Draft,
    output: Output,
    levels: Levels,
    /// Whether the last document ended implicitly.
    unended: bool,
    directives: DirectiveTable,
    /// What is wrong with the event that was refused.
    refused: Option<Problem>,
    /// What has stopped the output is memory that was refused for the open collections or the directives.
    starved: bool,
}

impl Model for Core {
    ghost use Rattle.yaml_emit_core.specs.Steps.{Core as State};
    ghost use Rattle.yaml_emit_core.specs.Views.{core_of, IsCore};

    ghost Value = { State };

    ghost view = { core_of };

    ghost invariant = { IsCore };
}

impl Core {
    ghost use Rattle.yaml_emit_core.specs.Steps.{IsFreshCore};

    /// Nothing was laid out.
    pub fn new(alloc: Global, settings: Settings, limit: u64) -> Core
        requires step { settings.indent < 2 ^ 31 }
        ensures fresh { IsFreshCore result settings }
        ensures limit { result.sink.limit ≡ limit }
    {
        Core {
            settings,
            draft: Draft::new(alloc, settings.line_break, settings.width as usize),
            output: Output::new(alloc, settings.encoding, limit),
            levels: Levels::new(alloc),
            unended: false,
            directives: DirectiveTable::new(alloc),
            refused: None,
            starved: false,
        }
    }

    /// The bytes of the output.
    pub fn output(&self) -> &[u8]
        ensures { result.now ≡ self.now.sink.bytes }
    {
        self.output.bytes(&self.draft)
    }

    /// Whether the output goes on, or what has stopped it.
    pub fn status(&self) -> Status
        ensures { result ≡ self.now.sink.status }
    {
        self.output.status(&self.draft)
    }

    /// The bytes of the output, handed over.
    pub fn into_output(self) -> Vec<u8>
        ensures { result.items ≡ self.sink.bytes }
    {
        let Core { draft, output, .. } = self;
        output.into_bytes(draft)
    }

    /// What is expected, or what was wrong with an event that was refused.
    pub fn place(&self) -> Expected
        ensures { result ≡ self.now.place }
    {
        match self.refused {
            Some(problem) => Expected::Refused(problem),
            None => self.levels.place(self.unended),
        }
    }

    /// Whether the output was stopped by memory that was refused for the open collections or the directives.
    pub fn is_starved(&self) -> bool
        ensures { result ≡ self.now.starved }
    {
        self.starved
    }
}
