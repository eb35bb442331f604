//! Collections in brackets.

ghost use Rattle.yaml_parse_states.specs.Views.{coming_in};
ghost use Rattle.yaml_parse_states.specs.Turned.{Turned};
ghost use Rattle.yaml_parse_states.specs.Standing.{AreOpen, StandsAfter};
ghost use Rattle.yaml_parse_states.specs.Utf8.{IsUtf8After, IsUtf8Kept};
ghost use Rattle.yaml_parse_states.specs.declared.parser.State.TheVariants as state;

use crate::event::EventKind;
use crate::parser::{Parser, State, Turn};
use yaml_parse_grammar::ParseProblem;
use yaml_scan_model::{Kind, Tokens};

impl<T: Tokens> Parser<T> {
    /// fseq ::= FLOW-SEQUENCE-START (fent FLOW-ENTRY)* fent? FLOW-SEQUENCE-END: after an entry.
    pub(crate) fn flow_sequence_entry(&mut self) -> Turn
        ensures turned { Turned T.Tokens (coming_in T.Tokens state.FlowSequenceEntry self.old)
            result self.new }
        ensures stands { AreOpen self.old → StandsAfter result self.new }
        ensures utf8 { IsUtf8Kept T.Tokens self.old → IsUtf8After T.Tokens result self.new }
    {
        match self.tokens.kind() {
            Kind::FlowEntry => {
                self.tokens.skip(Kind::FlowEntry);
                self.flow_sequence_item()
            }
            Kind::FlowSequenceEnd => self.end_collection(
                Kind::FlowSequenceEnd,
                EventKind::SequenceEnd,
            ),
            _ => self.refuse(ParseProblem::NoSequenceEnd),
        }
    }

    /// After the bracket or a comma.
    pub(crate) fn flow_sequence_item(&mut self) -> Turn
        ensures turned { Turned T.Tokens (coming_in T.Tokens state.FlowSequenceFirstEntry self.old)
            result self.new }
        ensures stands { AreOpen self.old → StandsAfter result self.new }
        ensures utf8 { IsUtf8Kept T.Tokens self.old → IsUtf8After T.Tokens result self.new }
    {
        match self.tokens.kind() {
            Kind::FlowSequenceEnd => self.end_collection(
                Kind::FlowSequenceEnd,
                EventKind::SequenceEnd,
            ),
            Kind::Key => {
                self.event.flow = true;
                self.event.implicit = true;
                self.give_token(Kind::Key, EventKind::MappingStart, State::FlowPairKey)
            }
            _ => self.awaits(Turn::FlowNode, State::FlowSequenceEntry),
        }
    }

    /// The key of a pair in the brackets of a sequence: fent ::= KEY fnode? (VALUE fnode?)?
    pub(crate) fn flow_pair_key(&mut self) -> Turn
        ensures turned { Turned T.Tokens (coming_in T.Tokens state.FlowPairKey self.old)
            result self.new }
        ensures stands { AreOpen self.old → StandsAfter result self.new }
        ensures utf8 { IsUtf8Kept T.Tokens self.old → IsUtf8After T.Tokens result self.new }
    {
        match self.tokens.kind() {
            Kind::Value | Kind::FlowEntry | Kind::FlowSequenceEnd => {
                self.empty_here(State::FlowPairValue)
            }
            _ => self.awaits(Turn::FlowNode, State::FlowPairValue),
        }
    }

    /// Its value.
    pub(crate) fn flow_pair_value(&mut self) -> Turn
        ensures turned { Turned T.Tokens (coming_in T.Tokens state.FlowPairValue self.old)
            result self.new }
        ensures stands { AreOpen self.old → StandsAfter result self.new }
        ensures utf8 { IsUtf8Kept T.Tokens self.old → IsUtf8After T.Tokens result self.new }
    {
        match self.tokens.kind() {
            Kind::Value => match self.tokens.pass(Kind::Value) {
                Kind::FlowEntry | Kind::FlowSequenceEnd => self.empty_here(State::FlowPairEnd),
                _ => self.awaits(Turn::FlowNode, State::FlowPairEnd),
            },
            kind if kind.is_fault() => self.refuse(ParseProblem::NoSequenceEnd),
            _ => self.empty_here(State::FlowPairEnd),
        }
    }

    /// The end of its mapping.
    pub(crate) fn flow_pair_end(&mut self) -> Turn
        ensures turned { Turned T.Tokens (coming_in T.Tokens state.FlowPairEnd self.old)
            result self.new }
        ensures stands { AreOpen self.old → StandsAfter result self.new }
        ensures utf8 { IsUtf8Kept T.Tokens self.old → IsUtf8After T.Tokens result self.new }
    {
        if self.has_failed() {
            return self.refuse(ParseProblem::NoSequenceEnd);
        }
        self.give_here(EventKind::MappingEnd, State::FlowSequenceEntry)
    }

    /// fmap ::= FLOW-MAPPING-START (fent FLOW-ENTRY)* fent? FLOW-MAPPING-END: after a pair.
    pub(crate) fn flow_mapping_key(&mut self) -> Turn
        ensures turned { Turned T.Tokens (coming_in T.Tokens state.FlowMappingKey self.old)
            result self.new }
        ensures stands { AreOpen self.old → StandsAfter result self.new }
        ensures utf8 { IsUtf8Kept T.Tokens self.old → IsUtf8After T.Tokens result self.new }
    {
        match self.tokens.kind() {
            Kind::FlowEntry => {
                self.tokens.skip(Kind::FlowEntry);
                self.flow_mapping_item()
            }
            Kind::FlowMappingEnd => self.end_collection(
                Kind::FlowMappingEnd,
                EventKind::MappingEnd,
            ),
            _ => self.refuse(ParseProblem::NoMappingEnd),
        }
    }

    /// After the bracket or a comma.
    pub(crate) fn flow_mapping_item(&mut self) -> Turn
        ensures turned { Turned T.Tokens (coming_in T.Tokens state.FlowMappingFirstKey self.old)
            result self.new }
        ensures stands { AreOpen self.old → StandsAfter result self.new }
        ensures utf8 { IsUtf8Kept T.Tokens self.old → IsUtf8After T.Tokens result self.new }
    {
        match self.tokens.kind() {
            Kind::FlowMappingEnd => self.end_collection(
                Kind::FlowMappingEnd,
                EventKind::MappingEnd,
            ),
            Kind::Key => match self.tokens.pass(Kind::Key) {
                Kind::Value | Kind::FlowEntry | Kind::FlowMappingEnd => {
                    self.empty_here(State::FlowMappingValue)
                }
                _ => self.awaits(Turn::FlowNode, State::FlowMappingValue),
            },
            _ => self.awaits(Turn::FlowNode, State::FlowMappingEmptyValue),
        }
    }

    /// The value of a pair.
    pub(crate) fn flow_mapping_value(&mut self) -> Turn
        ensures turned { Turned T.Tokens (coming_in T.Tokens state.FlowMappingValue self.old)
            result self.new }
        ensures stands { AreOpen self.old → StandsAfter result self.new }
        ensures utf8 { IsUtf8Kept T.Tokens self.old → IsUtf8After T.Tokens result self.new }
    {
        match self.tokens.kind() {
            Kind::Value => match self.tokens.pass(Kind::Value) {
                Kind::FlowEntry | Kind::FlowMappingEnd => self.empty_here(State::FlowMappingKey),
                _ => self.awaits(Turn::FlowNode, State::FlowMappingKey),
            },
            kind if kind.is_fault() => self.refuse(ParseProblem::NoMappingEnd),
            _ => self.empty_here(State::FlowMappingKey),
        }
    }

    /// The value of a node without KEY.
    pub(crate) fn flow_mapping_empty_value(&mut self) -> Turn
        ensures turned { Turned T.Tokens (coming_in T.Tokens state.FlowMappingEmptyValue self.old)
            result self.new }
        ensures stands { AreOpen self.old → StandsAfter result self.new }
        ensures utf8 { IsUtf8Kept T.Tokens self.old → IsUtf8After T.Tokens result self.new }
    {
        if self.has_failed() {
            return self.refuse(ParseProblem::NoMappingEnd);
        }
        self.empty_here(State::FlowMappingKey)
    }
}
