//! Block collections.

ghost use Rattle.yaml_parse_states.specs.Views.{coming_in};
ghost use Rattle.yaml_parse_states.specs.Turned.{Turned};
ghost use Rattle.yaml_parse_states.specs.Standing.{AreOpen, StandsAfter};
ghost use Rattle.yaml_parse_states.specs.Utf8.{IsUtf8After, IsUtf8Kept};
ghost use Rattle.yaml_parse_states.specs.declared.parser.State.TheVariants as state;

use crate::event::EventKind;
use crate::parser::{Parser, State, Turn};
use yaml_parse_grammar::ParseProblem;
use yaml_scan_model::{Kind, Tokens};

impl<T: Tokens> Parser<T> {
    /// bseq ::= BLOCK-SEQUENCE-START (BLOCK-ENTRY bnode?)* BLOCK-END
    pub(crate) fn block_sequence_entry(&mut self) -> Turn
        ensures turned { Turned T.Tokens (coming_in T.Tokens state.BlockSequenceEntry self.old)
            result self.new }
        ensures stands { AreOpen self.old → StandsAfter result self.new }
        ensures utf8 { IsUtf8Kept T.Tokens self.old → IsUtf8After T.Tokens result self.new }
    {
        match self.tokens.kind() {
            Kind::BlockEntry => {
                let end = self.tokens.end(Kind::BlockEntry);
                match self.tokens.pass(Kind::BlockEntry) {
                    Kind::BlockEntry | Kind::BlockEnd => self.empty_at(
                        end,
                        State::BlockSequenceEntry,
                    ),
                    _ => self.awaits(Turn::BlockNode, State::BlockSequenceEntry),
                }
            }
            Kind::BlockEnd => self.end_collection(Kind::BlockEnd, EventKind::SequenceEnd),
            _ => self.refuse(ParseProblem::NoDash),
        }
    }

    /// iseq ::= (BLOCK-ENTRY bnode?)+, which a VALUE may follow where it is a key.
    pub(crate) fn indentless_sequence_entry(&mut self) -> Turn
        ensures turned { Turned T.Tokens (coming_in T.Tokens state.IndentlessSequenceEntry self.old)
            result self.new }
        ensures stands { AreOpen self.old → StandsAfter result self.new }
        ensures utf8 { IsUtf8Kept T.Tokens self.old → IsUtf8After T.Tokens result self.new }
    {
        match self.tokens.kind() {
            Kind::BlockEntry => {
                let end = self.tokens.end(Kind::BlockEntry);
                match self.tokens.pass(Kind::BlockEntry) {
                    Kind::BlockEntry | Kind::Key | Kind::BlockEnd => {
                        self.empty_at(end, State::IndentlessSequenceEntry)
                    }
                    Kind::Value if self.behind() == State::BlockMappingValue => {
                        self.empty_at(end, State::IndentlessSequenceEntry)
                    }
                    _ => self.awaits(Turn::BlockNode, State::IndentlessSequenceEntry),
                }
            }
            kind if kind.is_fault() => self.refuse(ParseProblem::NoDash),
            _ => {
                let next = self.leave();
                self.give_here(EventKind::SequenceEnd, next)
            }
        }
    }

    /// bmap ::= BLOCK-MAPPING-START (KEY binode? (VALUE binode?)?)* BLOCK-END
    pub(crate) fn block_mapping_key(&mut self) -> Turn
        ensures turned { Turned T.Tokens (coming_in T.Tokens state.BlockMappingKey self.old)
            result self.new }
        ensures stands { AreOpen self.old → StandsAfter result self.new }
        ensures utf8 { IsUtf8Kept T.Tokens self.old → IsUtf8After T.Tokens result self.new }
    {
        match self.tokens.kind() {
            Kind::Key => {
                let end = self.tokens.end(Kind::Key);
                match self.tokens.pass(Kind::Key) {
                    Kind::Key | Kind::Value | Kind::BlockEnd => {
                        self.empty_at(end, State::BlockMappingValue)
                    }
                    _ => self.awaits(Turn::IndentlessNode, State::BlockMappingValue),
                }
            }
            Kind::BlockEnd => self.end_collection(Kind::BlockEnd, EventKind::MappingEnd),
            _ => self.refuse(ParseProblem::NoKey),
        }
    }

    /// The value of a pair, which may be left out with its VALUE.
    pub(crate) fn block_mapping_value(&mut self) -> Turn
        ensures turned { Turned T.Tokens (coming_in T.Tokens state.BlockMappingValue self.old)
            result self.new }
        ensures stands { AreOpen self.old → StandsAfter result self.new }
        ensures utf8 { IsUtf8Kept T.Tokens self.old → IsUtf8After T.Tokens result self.new }
    {
        match self.tokens.kind() {
            Kind::Value => {
                let end = self.tokens.end(Kind::Value);
                match self.tokens.pass(Kind::Value) {
                    Kind::Key | Kind::BlockEnd => self.empty_at(end, State::BlockMappingKey),
                    _ => self.awaits(Turn::IndentlessNode, State::BlockMappingKey),
                }
            }
            kind if kind.is_fault() => self.refuse(ParseProblem::NoKey),
            _ => self.empty_here(State::BlockMappingKey),
        }
    }
}
