//! Events with texts of their own, which the port's calls answer.

ghost use Rattle.std.specs.Prelude.{◌≡◌, IfErr, IfOk, OnOk, true, false};
ghost use Rattle.yaml_parse_model.specs.Events.{event_of};
ghost use Rattle.yaml_parse_states.specs.Filled.{Fills, IsUtf8Filled, StandsFilled};
ghost use Rattle.yaml_parse_states.specs.Owned.{Stays};
ghost use Rattle.yaml_parse_states.specs.Remaining.{ToldBy};
ghost use Rattle.yaml_parse_states.specs.Standing.{Stands};
ghost use Rattle.yaml_parse_states.specs.Utf8.{IsUtf8Held};
ghost use Rattle.yaml_parse_states.specs.Views.{event_in};

use crate::parser::{Parser, Refusal, Step};
use std::alloc::{AllocError, Global};
use yaml_parse_model::{yaml_event_body_t, yaml_event_t};
use yaml_scan_model::Tokens;

/// Puts a body into a slot.
fn put(slot: &mut yaml_event_body_t, body: yaml_event_body_t)
    ensures { slot.new ≡ body }
{
    *slot = body;
}

impl<T: Tokens> Parser<T> {
    /// Whether there is a next event, which is in the slot then. After the last one and after a fault the slot stays as it is.
    /// Refused by the tokens' fault, by one of the parser, or as memory ran out, once; the slot may hold anything then.
    pub fn parse_into(&mut self, alloc: Global, event: &mut yaml_event_t) -> Result<bool, Refusal>
        ensures fills { IfOk result (λ b. Fills T.Tokens b (event_of event.new) self.old self.new) }
        ensures utf8 { IfOk result (λ b. IsUtf8Held T.Tokens self.old
            → IsUtf8Filled T.Tokens b (event_of event.new) self.new) }
        // What was given says whether a document is half taken.
        ensures between { IfOk result (λ b. Stands self.old
            → StandsFilled T.Tokens b (event_of event.new) self.new) }
        ensures stays { IfOk result (λ b. b ≡ false → event_of event.new ≡ event_of event.old) }
        ensures err { IfErr result (λ r. ToldBy T.Tokens r self.old self.new) }
    {
        match self.next() {
            Step::Refused => Err(self.refusal()),
            Step::End => Ok(false),
            Step::Event => match self.fill(alloc, event) {
                Ok(()) => Ok(true),
                Err(_) => {
                    let _refused = self.refuse_by(Refusal::LackOfMemory);
                    Err(Refusal::LackOfMemory)
                }
            },
        }
    }

    /// The event that was given last is put into the slot.
    fn fill(&mut self, alloc: Global, event: &mut yaml_event_t) -> Result<(), AllocError>
        ensures event { OnOk result (event_of event.new ≡ event_in T.Tokens self.old) }
        ensures stays { Stays T.Tokens self.old self.new }
    {
        let (start, end) = self.marks();
        event.start_mark = start;
        event.end_mark = end;
        let body = self.event().copied(alloc)?;
        put(&mut event.body, body);
        Ok(())
    }
}
