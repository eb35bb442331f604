//! The stream and its documents.

ghost use Rattle.std.specs.Prelude.{◌≡◌, [], ◌∷◌, false};
ghost use Rattle.yaml_parse_model.specs.Source.{front_of};
ghost use Rattle.yaml_parse_grammar.specs.States as grammar;
ghost use Rattle.yaml_scan_model.specs.Shows.{IsNext};
ghost use Rattle.yaml_scan_model.specs.declared.kind.Kind.TheVariants as token;
ghost use Rattle.yaml_parse_states.specs.Documents.{TakesStart};
ghost use Rattle.yaml_parse_states.specs.Views.{coming_in, coming_with};
ghost use Rattle.yaml_parse_states.specs.Turned.{Turned};
ghost use Rattle.yaml_parse_states.specs.Standing.{StandsAfter};
ghost use Rattle.yaml_parse_states.specs.Utf8.{IsUtf8After, IsUtf8Kept};
ghost use Rattle.yaml_parse_states.specs.declared.parser.State.TheVariants as state;
ghost use Rattle.yaml_parse_states.specs.declared.parser.Turn.TheVariants as turn;

use crate::event::EventKind;
use crate::parser::{Parser, State, Turn};
use yaml_parse_grammar::ParseProblem;
use yaml_scan_model::{Kind, Tokens};

impl<T: Tokens> Parser<T> {
    /// stream ::= STREAM-START ..
    pub(crate) fn stream_start(&mut self) -> Turn
        ensures turned { Turned T.Tokens (coming_in T.Tokens state.StreamStart self.old)
            result self.new }
        ensures stands { StandsAfter result self.new }
        ensures utf8 { IsUtf8Kept T.Tokens self.old → IsUtf8After T.Tokens result self.new }
    {
        match self.tokens.kind() {
            Kind::StreamStart => self.give_token(
                Kind::StreamStart,
                EventKind::StreamStart,
                State::FirstDocument,
            ),
            _ => self.refuse(ParseProblem::NoStreamStart),
        }
    }

    /// The first document may begin with its node.
    pub(crate) fn first_document(&mut self) -> Turn
        ensures turned { Turned T.Tokens (coming_in T.Tokens state.FirstDocument self.old)
            result self.new }
        ensures stands { StandsAfter result self.new }
        ensures utf8 { IsUtf8Kept T.Tokens self.old → IsUtf8After T.Tokens result self.new }
    {
        match self.tokens.kind() {
            Kind::Scalar
            | Kind::FlowSequenceStart
            | Kind::FlowMappingStart
            | Kind::BlockSequenceStart
            | Kind::BlockMappingStart
            | Kind::Alias
            | Kind::Anchor
            | Kind::Tag => {
                self.event.implicit = true;
                self.give_here(EventKind::DocumentStart, State::DocumentContent)
            }
            Kind::StreamEnd | Kind::DocumentStart | Kind::VersionDirective | Kind::TagDirective => {
                self.document_start()
            }
            _ => self.refuse(ParseProblem::NoBlockNode),
        }
    }

    /// explicit ::= directive* DOCUMENT-START .., or the stream's end
    pub(crate) fn document_start(&mut self) -> Turn
        ensures turned { Turned T.Tokens (coming_in T.Tokens state.DocumentStart self.old)
            result self.new }
        ensures stands { StandsAfter result self.new }
        ensures utf8 { IsUtf8Kept T.Tokens self.old → IsUtf8After T.Tokens result self.new }
    {
        'ends: loop {
            match self.tokens.kind() {
                Kind::DocumentEnd => self.tokens.skip(Kind::DocumentEnd),
                Kind::StreamEnd => {
                    return self.give_token(Kind::StreamEnd, EventKind::StreamEnd, State::End);
                }
                Kind::DocumentStart | Kind::VersionDirective | Kind::TagDirective => {
                    let start = self.tokens.start();
                    return self.declared_document(start);
                }
                _ => return self.refuse(ParseProblem::NoDocumentStart),
            }
        }
    }

    /// A document after its directives, which starts there.
    fn declared_document(&mut self, start: T::Place) -> Turn
        ensures turned { Turned T.Tokens (coming_with T.Tokens
            (grammar.directives (T.mark_of self.old.tokens start) ∷ []) self.old) result self.new }
        ensures stands { StandsAfter result self.new }
        ensures utf8 { IsUtf8Kept T.Tokens self.old → IsUtf8After T.Tokens result self.new }
    {
        'directives: loop {
            match self.tokens.kind() {
                Kind::VersionDirective => match self.version_directive() {
                    Turn::Given => {}
                    turn => return turn,
                },
                Kind::TagDirective => match self.tag_directive() {
                    Turn::Given => {}
                    turn => return turn,
                },
                Kind::DocumentStart => return self.explicit_start(start),
                _ => return self.refuse(ParseProblem::NoDocumentStart),
            }
        }
    }

    /// The document's start that is next, after directives of which the first starts there.
    fn explicit_start(&mut self, start: T::Place) -> Turn
        requires tells { T.tells self.old.tokens false }
        requires kind { IsNext token.DocumentStart (T.to_come self.old.tokens) }
        ensures given { result ≡ turn.Given }
        ensures takes { TakesStart T.Tokens (T.mark_of self.old.tokens start) self.old self.new }
        ensures stands { StandsAfter result self.new }
        ensures utf8 { IsUtf8Kept T.Tokens self.old → IsUtf8After T.Tokens result self.new }
    {
        self.event.implicit = false;
        let turn = self.give_token(
            Kind::DocumentStart,
            EventKind::DocumentStart,
            State::DocumentContent,
        );
        self.event.start = start;
        turn
    }

    /// The document's node, which may be left out.
    pub(crate) fn document_content(&mut self) -> Turn
        ensures turned { Turned T.Tokens (coming_in T.Tokens state.DocumentContent self.old)
            result self.new }
        ensures stands { StandsAfter result self.new }
        ensures utf8 { IsUtf8Kept T.Tokens self.old → IsUtf8After T.Tokens result self.new }
    {
        match self.tokens.kind() {
            Kind::DocumentEnd
            | Kind::StreamEnd
            | Kind::VersionDirective
            | Kind::TagDirective
            | Kind::DocumentStart => self.empty_here(State::DocumentEnd),
            _ => self.awaits(Turn::BlockNode, State::DocumentEnd),
        }
    }

    /// The document's end.
    pub(crate) fn document_end(&mut self) -> Turn
        ensures turned { Turned T.Tokens (coming_in T.Tokens state.DocumentEnd self.old)
            result self.new }
        ensures stands { StandsAfter result self.new }
        ensures utf8 { IsUtf8Kept T.Tokens self.old → IsUtf8After T.Tokens result self.new }
    {
        match self.tokens.kind() {
            Kind::DocumentEnd => {
                self.directives.clear();
                self.event.implicit = false;
                self.give_token(
                    Kind::DocumentEnd,
                    EventKind::DocumentEnd,
                    State::DocumentStart,
                )
            }
            kind if kind.is_fault() => self.refuse(ParseProblem::NoDocumentStart),
            _ => {
                self.directives.clear();
                self.event.implicit = true;
                self.give_here(EventKind::DocumentEnd, State::DocumentStart)
            }
        }
    }
}
