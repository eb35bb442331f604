//! The parser's state.

ghost use Rattle.std.specs.Prelude.{◌≡◌, ◌∷◌, [], List, true, false, reverse};
ghost use Rattle.yaml_parse_model.specs.declared.yaml_mark_t.{yaml_mark_t};
ghost use Rattle.yaml_parse_model.specs.Source.{front_of};
ghost use Rattle.yaml_parse_grammar.specs.States.{State as GrammarState};
ghost use Rattle.yaml_parse_grammar.specs.Machine.{choice_at, left_at};
ghost use Rattle.yaml_parse_grammar.specs.declared.name.Choice.TheVariants.{Leave};
ghost use Rattle.yaml_scan_model.specs.Kinds.{type_by};
ghost use Rattle.yaml_scan_model.specs.Shows.{IsNext};
ghost use Rattle.yaml_scan_model.specs.declared.kind.Kind.{Kind};
ghost use Rattle.std.specs.Prelude.{OnOk, Some, option_map};
ghost use Rattle.yaml_parse_model.specs.Events.{borrowed_body};
ghost use Rattle.yaml_parse_model.specs.scan_types.Faults.{memory_fault};
ghost use Rattle.yaml_parse_model.specs.declared.yaml_origin_t.TheVariants.{Parser as ParserLayer};
ghost use Rattle.yaml_parse_grammar.specs.Problems.{parser_fault};
ghost use Rattle.yaml_parse_states.specs.declared.parser.State.TheVariants as state;
ghost use Rattle.yaml_parse_states.specs.Views.{anchor_in, behind, opener, bare, bare_event, below, below_of, body_in, coming_in, coming_of, coming_with, directives_of, event_in, mapping_style, sequence_style, stack, tag_in, text_if, value_if};
ghost use Rattle.yaml_parse_grammar.specs.Machine.{initial};
ghost use Rattle.yaml_parse_grammar.specs.Resolve.{no_directives};
ghost use Rattle.yaml_parse_states.specs.Coming.{read};
ghost use Rattle.yaml_parse_states.specs.Steps.{Steps, Turns};
ghost use Rattle.yaml_parse_states.specs.Standing.{AreOpen, IsAwaiting, IsBehind, Stands, StandsAfter, StandsBehind, StandsIn, StandsStepped, between_behind, between_in};
ghost use Rattle.yaml_parse_states.specs.Utf8.{IsUtf8After, IsUtf8Given, IsUtf8Held, IsUtf8Kept, IsUtf8Named, IsUtf8Stepped};
ghost use Rattle.yaml_scan_model.specs.Utf8.{IsUtf8Next};
ghost use Rattle.yaml_parse_states.specs.Turned.{Gives, Takes, Ends, LooksFor, Opens, Refuses, RefusesNext, context_at};
ghost use Rattle.yaml_parse_states.specs.declared.parser.Turn.TheVariants as turn;
ghost use Rattle.yaml_parse_states.specs.declared.parser.Step.TheVariants as step;
ghost use Rattle.yaml_parse_states.specs.declared.parser.Refusal.{Refusal};
ghost use Rattle.yaml_parse_states.specs.Owned.{Stays};
ghost use Rattle.yaml_parse_grammar.specs.Remaining.{is_between};

use crate::directives::Directives;
use crate::event::{EventKind, Slot};
use std::alloc::{AllocError, Global};
use yaml_parse_grammar::{ParseFault, ParseProblem};
use yaml_parse_model::EventRef;
use yaml_scan_model::{
    Kind, Tokens, yaml_mapping_style_t, yaml_mark_t, yaml_scalar_style_t, yaml_sequence_style_t,
};

/// What may come next.
#[derive(Clone, Copy, PartialEq, Eq)]
pub(crate) enum State {
    StreamStart,
    FirstDocument,
    DocumentStart,
    DocumentContent,
    DocumentEnd,
    BlockSequenceEntry,
    IndentlessSequenceEntry,
    BlockMappingKey,
    BlockMappingValue,
    FlowSequenceFirstEntry,
    FlowSequenceEntry,
    FlowPairKey,
    FlowPairValue,
    FlowPairEnd,
    FlowMappingFirstKey,
    FlowMappingKey,
    FlowMappingValue,
    FlowMappingEmptyValue,
    End,
}

/// What a step gave: an event in the slot, the fault, or nothing any more.
#[derive(Clone, Copy, PartialEq, Eq)]
pub enum Step {
    Event,
    Refused,
    End,
}

/// What a state finds: it has given an event, or a node is next, of those that may be there, after which the state is the
/// parser's; or the fault was reported, or nothing is left.
#[derive(Clone, Copy, PartialEq, Eq)]
pub(crate) enum Turn {
    Given,
    BlockNode,
    /// Or a sequence that isn't indented.
    IndentlessNode,
    FlowNode,
    Refused,
    End,
}

/// Why nothing more is given.
#[derive(Clone, Copy)]
pub enum Refusal {
    /// The tokens end by a fault, which they hold.
    OfTokens,
    LackOfMemory,
    Wrong(ParseFault),
}

/// An open collection: where it starts, and the state after it.
#[derive(Clone, Copy)]
pub(crate) struct Level<P> {
    pub start: P,
    pub next: State,
}

/// A parser of tokens.
#[derive(Drop)]
pub struct Parser<T: Tokens> {
    pub(crate) tokens: T,
    pub(crate) state: State,
    pub(crate) levels: Vec<Level<T::Place>>,
    pub(crate) event: Slot<T::Place>,
    /// The properties of the node that is read or was given last, the tag in full.
    pub(crate) anchor: Vec<u8>,
    pub(crate) tag: Vec<u8>,
    /// Where that tag starts, if no directive says what its handle stands for.
    pub(crate) undefined: Option<T::Place>,
    pub(crate) directives: Directives,
    pub(crate) refusal: Option<Refusal>,
}

impl<T: Tokens> Parser<T> {
    /// A parser before a stream.
    pub fn new(alloc: Global, tokens: T) -> Parser<T>
        ensures coming { coming_of T.Tokens result
            ≡ read (T.to_come tokens) (T.fault_to_come tokens) initial no_directives }
        ensures tokens { result.tokens ≡ tokens }
        ensures state { result.state ≡ state.StreamStart }
        ensures stands { Stands result }
        ensures utf8 { IsUtf8Next T.Tokens tokens → IsUtf8Held T.Tokens result }
    {
        let origin = tokens.origin();
        Parser {
            tokens,
            state: State::StreamStart,
            levels: Vec::new(alloc),
            event: Slot {
                kind: EventKind::StreamStart,
                style: yaml_scalar_style_t::YAML_ANY_SCALAR_STYLE,
                flow: false,
                implicit: false,
                quoted_implicit: false,
                has_anchor: false,
                has_tag: false,
                has_value: false,
                start: origin,
                end: origin,
            },
            anchor: Vec::new(alloc),
            tag: Vec::new(alloc),
            undefined: None,
            directives: Directives::new(alloc),
            refusal: None,
        }
    }

    /// Gives the next event in the slot, which `event` borrows.
    pub fn next(&mut self) -> Step
        ensures steps { Steps T.Tokens self.old result self.new }
        ensures stands { Stands self.old → StandsStepped result self.new }
        ensures utf8 { IsUtf8Held T.Tokens self.old → IsUtf8Stepped T.Tokens result self.new }
        ensures over { self.old.state ≡ state.End → result ≡ step.End }
    {
        match self.turn() {
            Turn::Given => Step::Event,
            Turn::Refused => Step::Refused,
            Turn::End => Step::End,
            wants => match self.node(wants) {
                Turn::Given => Step::Event,
                _ => Step::Refused,
            },
        }
    }

    /// What the state finds.
    fn turn(&mut self) -> Turn
        ensures turns { Turns T.Tokens self.old result self.new }
        ensures stands { Stands self.old → StandsAfter result self.new }
        ensures utf8 { IsUtf8Held T.Tokens self.old → IsUtf8After T.Tokens result self.new }
        ensures over { self.old.state ≡ state.End → result ≡ turn.End }
    {
        match self.state {
            State::StreamStart => self.stream_start(),
            State::FirstDocument => self.first_document(),
            State::DocumentStart => self.document_start(),
            State::DocumentContent => self.document_content(),
            State::DocumentEnd => self.document_end(),
            State::BlockSequenceEntry => self.block_sequence_entry(),
            State::IndentlessSequenceEntry => self.indentless_sequence_entry(),
            State::BlockMappingKey => self.block_mapping_key(),
            State::BlockMappingValue => self.block_mapping_value(),
            State::FlowSequenceFirstEntry => self.flow_sequence_item(),
            State::FlowSequenceEntry => self.flow_sequence_entry(),
            State::FlowPairKey => self.flow_pair_key(),
            State::FlowPairValue => self.flow_pair_value(),
            State::FlowPairEnd => self.flow_pair_end(),
            State::FlowMappingFirstKey => self.flow_mapping_item(),
            State::FlowMappingKey => self.flow_mapping_key(),
            State::FlowMappingValue => self.flow_mapping_value(),
            State::FlowMappingEmptyValue => self.flow_mapping_empty_value(),
            State::End => Turn::End,
        }
    }

    /// The event that was given last.
    // In line: by memory it takes a tenth of `events` on short words.
    #[inline(always)]
    pub fn event(&self) -> EventRef<'_>
        ensures { borrowed_body result ≡ body_in self.now.event self.now.anchor.items
            self.now.tag.items (T.texts self.now.tokens) (directives_of self.now.directives) }
    {
        let implicit = self.event.implicit;
        match self.event.kind {
            EventKind::StreamStart => EventRef::StreamStart {
                encoding: self.tokens.encoding(),
            },
            EventKind::StreamEnd => EventRef::StreamEnd,
            EventKind::DocumentStart => EventRef::DocumentStart {
                version_directive: self.directives.version,
                tag_directives: self.directives.tags.as_slice(),
                implicit,
            },
            EventKind::DocumentEnd => EventRef::DocumentEnd { implicit },
            EventKind::Alias => EventRef::Alias {
                anchor: self.value(),
            },
            EventKind::Scalar => EventRef::Scalar {
                anchor: self.anchor(),
                tag: self.tag(),
                value: self.value(),
                plain_implicit: implicit,
                quoted_implicit: self.event.quoted_implicit,
                style: self.event.style,
            },
            EventKind::SequenceStart => EventRef::SequenceStart {
                anchor: self.anchor(),
                tag: self.tag(),
                implicit,
                style: sequence_style(self.event.flow),
            },
            EventKind::SequenceEnd => EventRef::SequenceEnd,
            EventKind::MappingStart => EventRef::MappingStart {
                anchor: self.anchor(),
                tag: self.tag(),
                implicit,
                style: mapping_style(self.event.flow),
            },
            EventKind::MappingEnd => EventRef::MappingEnd,
        }
    }

    /// The anchor of a node.
    fn anchor(&self) -> Option<&[u8]>
        ensures { option_map (λ t. t.now) result ≡ anchor_in self.now.event self.now.anchor.items }
    {
        text_if(self.event.has_anchor, &self.anchor)
    }

    /// The tag of a node, in full.
    fn tag(&self) -> Option<&[u8]>
        ensures { option_map (λ t. t.now) result ≡ tag_in self.now.event self.now.tag.items }
    {
        text_if(self.event.has_tag, &self.tag)
    }

    /// The value of a scalar that isn't left out, or an alias's name.
    fn value(&self) -> &[u8]
        ensures { result.now ≡ value_if self.now.event.has_value (T.texts self.now.tokens).value }
    {
        if self.event.has_value {
            self.tokens.value()
        } else {
            &[]
        }
    }

    /// Where the event that was given last starts.
    pub fn start_mark(&mut self) -> yaml_mark_t
        ensures start { result ≡ T.mark_of self.old.tokens self.old.event.start }
        ensures stays { Stays T.Tokens self.old self.new }
    {
        self.tokens.mark(self.event.start)
    }

    /// Where it starts and ends.
    pub fn marks(&mut self) -> (yaml_mark_t, yaml_mark_t)
        ensures start { result.0 ≡ T.mark_of self.old.tokens self.old.event.start }
        ensures end { result.1 ≡ T.mark_of self.old.tokens self.old.event.end }
        ensures stays { Stays T.Tokens self.old self.new }
    {
        let start = self.start_mark();
        (start, self.tokens.mark(self.event.end))
    }

    /// Why nothing more is given, once that was reported.
    pub fn refusal(&self) -> Refusal
        ensures { (r : Refusal) → self.now.refusal ≡ Some r → result ≡ r }
    {
        self.refusal.unwrap_or(Refusal::LackOfMemory)
    }

    /// Nothing more is given.
    pub fn stop(&mut self)
        ensures { self.new ≡ record self.old { state = state.End } }
    {
        self.state = State::End;
    }

    /// The tokens, which hold the fault that they end by.
    pub fn tokens(&self) -> &T
        ensures { result.now ≡ self.now.tokens }
    {
        &self.tokens
    }

    /// No document is half taken.
    pub fn is_between(&self) -> bool
        ensures { result ≡ is_between (stack (T.mark_of self.now.tokens) self.now.state
            (reverse self.now.levels.items)) }
    {
        matches!(
            self.state,
            State::StreamStart | State::FirstDocument | State::DocumentStart | State::End
        )
    }

    /// An event of that kind without properties is given, from one place to another.
    pub(crate) fn give(&mut self, kind: EventKind, start: T::Place, end: T::Place) -> Turn
        ensures given { result ≡ turn.Given }
        ensures same { self.new ≡ record self.old {
          event = record (bare kind self.old.event) { start = start; end = end };
        } }
        ensures utf8 { IsUtf8Kept T.Tokens self.old → IsUtf8After T.Tokens result self.new }
    {
        self.event.kind = kind;
        self.event.has_anchor = false;
        self.event.has_tag = false;
        self.event.has_value = false;
        self.event.start = start;
        self.event.end = end;
        Turn::Given
    }

    /// The token of that kind that is next is taken and gives an event.
    pub(crate) fn give_token(&mut self, token: Kind, kind: EventKind, next: State) -> Turn
        requires tells { T.tells self.old.tokens false }
        requires kind { IsNext token (T.to_come self.old.tokens) }
        ensures given { result ≡ turn.Given }
        ensures takes { Takes T.Tokens kind next self.old self.new }
        ensures stands { StandsIn next (reverse self.old.levels.items)
            → between_in next ≡ between_behind kind → StandsAfter result self.new }
        ensures utf8 { IsUtf8Kept T.Tokens self.old → IsUtf8After T.Tokens result self.new }
    {
        let start = self.tokens.start();
        let end = self.tokens.end(token);
        self.tokens.skip(token);
        self.state = next;
        self.give(kind, start, end)
    }

    /// The innermost collection ends with the token of that kind, which is next.
    pub(crate) fn end_collection(&mut self, token: Kind, kind: EventKind) -> Turn
        requires tells { T.tells self.old.tokens false }
        requires kind { IsNext token (T.to_come self.old.tokens) }
        ensures ends { Ends T.Tokens token kind self.old result self.new }
        ensures stands { AreOpen self.old → false ≡ between_behind kind
            → StandsAfter result self.new }
        ensures utf8 { IsUtf8Kept T.Tokens self.old → IsUtf8After T.Tokens result self.new }
    {
        let next = self.leave();
        self.give_token(token, kind, next)
    }

    /// The innermost collection is left: the state after it.
    pub(crate) fn leave(&mut self) -> State
        ensures states { (at : T.Place → yaml_mark_t) → stack at result
            (reverse self.new.levels.items) ≡ below at (reverse self.old.levels.items) }
        ensures same { self.new ≡ record self.old { levels = self.new.levels } }
        ensures stands { AreOpen self.old → IsBehind result (AreOpen self.new) }
        ensures utf8 { IsUtf8Kept T.Tokens self.old → IsUtf8Kept T.Tokens self.new }
    {
        match self.levels.pop() {
            Some(level) => level.next,
            None => State::End,
        }
    }

    /// An event of that kind is given where the token that is next starts.
    pub(crate) fn give_here(&mut self, kind: EventKind, next: State) -> Turn
        requires { T.tells self.old.tokens false }
        ensures given { result ≡ turn.Given }
        ensures gives { Gives T.Tokens next
            (bare_event kind (T.texts self.old.tokens)
            (front_of (T.to_come self.old.tokens)).start_mark
            (front_of (T.to_come self.old.tokens)).start_mark self.old) self.old self.new }
        ensures stands { StandsIn next (reverse self.old.levels.items)
            → between_in next ≡ between_behind kind → StandsAfter result self.new }
        ensures utf8 { IsUtf8Kept T.Tokens self.old → IsUtf8After T.Tokens result self.new }
    {
        self.state = next;
        let at = self.tokens.start();
        self.give(kind, at, at)
    }

    /// A node is next, of those that may be there, with the state after it.
    pub(crate) fn awaits(&mut self, node: Turn, next: State) -> Turn
        ensures node { result ≡ node }
        ensures same { self.new ≡ record self.old { state = next } }
        ensures stands { IsAwaiting node → IsBehind next (AreOpen self.old)
            → StandsAfter result self.new }
        ensures utf8 { IsAwaiting node → IsUtf8Kept T.Tokens self.old
            → IsUtf8After T.Tokens result self.new }
    {
        self.state = next;
        node
    }

    /// The state after the innermost open collection.
    pub(crate) fn behind(&self) -> State
        ensures { result ≡ behind (reverse self.now.levels.items) }
    {
        match self.levels.last() {
            Some(level) => level.next,
            None => State::End,
        }
    }

    /// Where the innermost open collection starts.
    fn opener(&self) -> T::Place
        ensures { T.mark_of self.now.tokens result ≡ opener (T.mark_of self.now.tokens)
            (reverse self.now.levels.items) }
    {
        match self.levels.last() {
            Some(level) => level.start,
            None => self.tokens.origin(),
        }
    }

    /// A collection opens where the token that is next starts, after which the state is the parser's.
    pub(crate) fn open(&mut self) -> Result<(), AllocError>
        requires { T.tells self.old.tokens false }
        ensures same { self.new ≡ record self.old { levels = self.new.levels } }
        ensures opens { OnOk result (Opens T.Tokens self.old self.new) }
        ensures stands { OnOk result (StandsBehind self.old → AreOpen self.new) }
        ensures utf8 { IsUtf8Named T.Tokens self.old → IsUtf8Named T.Tokens self.new }
    {
        self.levels.reserve(1)?;
        self.levels.push_reserved(Level {
            start: self.tokens.start(),
            next: self.state,
        });
        Ok(())
    }

    /// Nothing more is given, for that reason.
    pub(crate) fn refuse_by(&mut self, refusal: Refusal) -> Turn
        ensures refused { result ≡ turn.Refused }
        ensures same { self.new ≡ record self.old { state = state.End; refusal = Some refusal } }
        ensures stands { StandsAfter result self.new }
        ensures utf8 { IsUtf8After T.Tokens result self.new }
    {
        self.state = State::End;
        self.refusal = Some(refusal);
        Turn::Refused
    }

    pub(crate) fn lack_memory(&mut self) -> Turn
        ensures refused { result ≡ turn.Refused }
        ensures refuses { Refuses T.Tokens (memory_fault ParserLayer) self.old self.new }
        ensures stands { StandsAfter result self.new }
        ensures utf8 { IsUtf8After T.Tokens result self.new }
    {
        self.refuse_by(Refusal::LackOfMemory)
    }

    /// The problem is at one place, in a context that starts at the other.
    pub(crate) fn refuse_at(
        &mut self,
        problem: ParseProblem,
        at: T::Place,
        context: T::Place,
    ) -> Turn
        ensures refused { result ≡ turn.Refused }
        ensures refuses { Refuses T.Tokens (parser_fault problem (T.mark_of self.old.tokens at)
            (T.mark_of self.old.tokens context)) self.old self.new }
        ensures stands { StandsAfter result self.new }
        ensures utf8 { IsUtf8After T.Tokens result self.new }
    {
        let fault = ParseFault {
            problem,
            problem_mark: self.tokens.mark(at),
            context_mark: self.tokens.mark(context),
        };
        self.refuse_by(Refusal::Wrong(fault))
    }

    /// Where the context of a problem starts that is there.
    fn context(&self, problem: ParseProblem, at: T::Place) -> T::Place
        ensures { T.mark_of self.now.tokens result ≡ context_at problem
            (opener (T.mark_of self.now.tokens) (reverse self.now.levels.items))
            (T.mark_of self.now.tokens at) }
    {
        match problem {
            ParseProblem::NoDash
            | ParseProblem::NoKey
            | ParseProblem::NoSequenceEnd
            | ParseProblem::NoMappingEnd => self.opener(),
            _ => at,
        }
    }

    /// The token that is next is wrong in the innermost collection, or is the fault of the tokens.
    pub(crate) fn refuse(&mut self, problem: ParseProblem) -> Turn
        ensures refused { result ≡ turn.Refused }
        ensures next { RefusesNext T.Tokens problem self.old self.new }
        ensures stands { StandsAfter result self.new }
        ensures utf8 { IsUtf8After T.Tokens result self.new }
    {
        if self.has_failed() {
            return self.refuse_by(Refusal::OfTokens);
        }
        let at = self.tokens.start();
        let context = self.context(problem, at);
        self.refuse_at(problem, at, context)
    }

    /// Whether the tokens end by a fault in place of the next one.
    pub(crate) fn has_failed(&mut self) -> bool
        ensures looks { LooksFor T.Tokens result self.old self.new }
        ensures utf8 { IsUtf8Kept T.Tokens self.old → IsUtf8Kept T.Tokens self.new }
    {
        self.tokens.kind().is_fault()
    }
}

/// A text, where it is there.
fn text_if(is_there: bool, text: &Vec<u8>) -> Option<&[u8]>
    ensures { option_map (λ t. t.now) result ≡ text_if is_there text.now.items }
{
    if is_there {
        Some(text.as_slice())
    } else {
        None
    }
}

/// The style of a sequence, in brackets or not.
fn sequence_style(flow: bool) -> yaml_sequence_style_t
    ensures { result ≡ sequence_style flow }
{
    if flow {
        yaml_sequence_style_t::YAML_FLOW_SEQUENCE_STYLE
    } else {
        yaml_sequence_style_t::YAML_BLOCK_SEQUENCE_STYLE
    }
}

/// The style of a mapping, in braces or not.
fn mapping_style(flow: bool) -> yaml_mapping_style_t
    ensures { result ≡ mapping_style flow }
{
    if flow {
        yaml_mapping_style_t::YAML_FLOW_MAPPING_STYLE
    } else {
        yaml_mapping_style_t::YAML_BLOCK_MAPPING_STYLE
    }
}
