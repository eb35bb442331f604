//! Whether an emitter goes on.

ghost use Rattle.std.specs.Prelude.{◌≡◌};
ghost use Rattle.yaml_emit_core.specs.Steps.{Starves, goes_on};

use super::Core;

impl Core {
    /// Whether no event was refused so far, and the output goes on.
    pub fn is_going(&self) -> bool
        ensures { result ≡ goes_on self.now.sink.status self.now.place }
    {
        match self.refused {
            Some(_) => false,
            None => self.output.status(&self.draft).is_going(),
        }
    }

    /// Memory was refused for what is to be laid out: the output stops, and it is noted why, unless it had stopped before.
    pub fn starve(&mut self)
        ensures { Starves self.old self.new }
    {
        if self.output.status(&self.draft).is_going() {
            self.starved = true;
            self.draft.stop();
            self.output.settle(&mut self.draft);
        }
    }
}
