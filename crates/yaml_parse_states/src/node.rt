//! Nodes.

ghost use Rattle.std.specs.Prelude.{◌≡◌, ◌++◌, Bool, true, false, Some, None, OnOk, option_map, reverse, IsUtf8};
ghost use Rattle.yaml_parse_model.specs.Source.{front_of};
ghost use Rattle.yaml_parse_model.specs.Constructors.{AreUtf8};
ghost use Rattle.yaml_parse_grammar.specs.Items as item;
ghost use Rattle.yaml_parse_grammar.specs.Items.{Properties};
ghost use Rattle.yaml_parse_grammar.specs.Machine.{no_node, starts_content};
ghost use Rattle.yaml_parse_grammar.specs.declared.name.Wants.TheVariants.{Flow};
ghost use Rattle.yaml_scan_model.specs.Kinds.{type_by};
ghost use Rattle.yaml_scan_model.specs.Shows.{IsNext};
ghost use Rattle.yaml_scan_model.specs.Texts.{handle_in, name_in, suffix_in};
ghost use Rattle.yaml_scan_model.specs.declared.kind.Kind.TheVariants as token;
ghost use Rattle.yaml_parse_states.specs.Coming.{Coming};
ghost use Rattle.yaml_parse_states.specs.Views.{blank_event, directives_of, event_in};
ghost use Rattle.yaml_parse_states.specs.Turned.{AwaitsNode, Gives, IsTaken};
ghost use Rattle.yaml_parse_states.specs.Nodes.{AreProperties, Begins, Collected, Contents, Found, Implies, IsShown, Loosely, OpensWith, PutsTag, TakesAlias, TakesProperty, TakesScalar, TakesTag, begun, joins_in, node_told, prefix_for, wants_by};
ghost use Rattle.yaml_parse_states.specs.Standing.{AreOpen, IsInner, Stands, StandsAfter, StandsAfterContent, StandsBehind, StandsIn, between_behind, between_in};
ghost use Rattle.yaml_parse_states.specs.Utf8.{IsUtf8After, IsUtf8AfterContent, IsUtf8Kept, IsUtf8Named};
ghost use Rattle.yaml_parse_states.specs.declared.parser.State.{State};
ghost use Rattle.yaml_parse_states.specs.declared.parser.Turn.TheVariants as turn;

use crate::event::EventKind;
use crate::parser::{Parser, State, Turn};
use std::alloc::AllocError;
use yaml_parse_grammar::ParseProblem;
use yaml_scan_model::{Kind, Tokens, yaml_scalar_style_t};

/// The problem where no node begins, of those that may be there.
fn no_node(wants: Turn) -> ParseProblem
    ensures { (x : State) → result ≡ no_node (wants_by wants x) }
{
    match wants {
        Turn::FlowNode => ParseProblem::NoFlowNode,
        _ => ParseProblem::NoBlockNode,
    }
}

impl<T: Tokens> Parser<T> {
    /// The node that is next, of those that may be there, after which the state is the parser's.
    pub(crate) fn node(&mut self, wants: Turn) -> Turn
        ensures found { (was : Coming)
            → AwaitsNode T.Tokens (wants_by wants self.old.state) was self.old
            → Found T.Tokens was result self.new }
        ensures stands { StandsBehind self.old → StandsAfter result self.new }
        ensures utf8 { IsUtf8Kept T.Tokens self.old → IsUtf8After T.Tokens result self.new }
    {
        match self.tokens.kind() {
            Kind::Alias => self.alias(),
            Kind::Anchor | Kind::Tag => {
                self.begin();
                self.named(wants)
            }
            Kind::Scalar => {
                self.begin();
                self.scalar()
            }
            kind if kind.is_fault() => self.refuse(ParseProblem::NoBlockNode),
            kind => {
                self.begin();
                match self.content(kind, wants) {
                    Some(turn) => turn,
                    None => self.refuse(no_node(wants)),
                }
            }
        }
    }

    /// A node begins where the token that is next starts.
    fn begin(&mut self)
        requires { T.tells self.old.tokens false }
        ensures begins { Begins T.Tokens self.old self.new }
        ensures utf8 { IsUtf8Kept T.Tokens self.old → IsUtf8Named T.Tokens self.new }
    {
        self.event.has_anchor = false;
        self.event.has_tag = false;
        self.undefined = None;
        let start = self.tokens.start();
        self.event.start = start;
        self.event.end = start;
    }

    /// The alias that is next.
    fn alias(&mut self) -> Turn
        requires tells { T.tells self.old.tokens false }
        requires kind { IsNext token.Alias (T.to_come self.old.tokens) }
        ensures given { result ≡ turn.Given }
        ensures takes { TakesAlias T.Tokens self.old self.new }
        ensures stands { StandsBehind self.old → StandsAfter result self.new }
        ensures utf8 { IsUtf8Kept T.Tokens self.old → IsUtf8After T.Tokens result self.new }
    {
        let turn = self.give_token(Kind::Alias, EventKind::Alias, self.state);
        self.event.has_value = true;
        turn
    }

    // ---- properties

    /// The rest of a node after its properties.
    fn named(&mut self, wants: Turn) -> Turn
        ensures found { (q : Properties) → AreProperties T.Tokens q self.old
            → Found T.Tokens (begun T.Tokens (wants_by wants self.old.state) (Some q) self.old)
            result self.new }
        ensures stands { StandsBehind self.old → StandsAfter result self.new }
        ensures utf8 { IsUtf8Named T.Tokens self.old → IsUtf8After T.Tokens result self.new }
    {
        'properties: loop {
            let kind = self.tokens.kind();
            if kind.is_fault() {
                return self.refuse(ParseProblem::NoBlockNode);
            }
            if !self.joins(kind) {
                return self.behind_properties(kind, wants);
            }
            match self.take_property(kind) {
                Ok(()) => {}
                Err(_) => return self.lack_memory(),
            }
        }
    }

    /// Whether a token of that kind is a property that the node hasn't got.
    fn joins(&self, kind: Kind) -> bool
        ensures { result ≡ joins_in kind self.now.event }
    {
        match kind {
            Kind::Anchor => !self.event.has_anchor,
            Kind::Tag => !self.event.has_tag,
            _ => false,
        }
    }

    /// Takes the property that is next.
    fn take_property(&mut self, kind: Kind) -> Result<(), AllocError>
        requires shown { IsShown T.Tokens kind self.old.tokens }
        requires joins { joins_in kind self.old.event ≡ true }
        ensures token { IsTaken T.Tokens self.old.tokens self.new.tokens }
        ensures takes { OnOk result (TakesProperty T.Tokens kind self.old self.new) }
        ensures utf8 { OnOk result (IsUtf8Named T.Tokens self.old
            → IsUtf8Named T.Tokens self.new) }
    {
        let end = self.tokens.end(kind);
        self.event.end = end;
        match kind {
            Kind::Anchor => self.take_anchor(),
            _ => self.take_tag(),
        }
    }

    /// Takes the anchor that is next.
    fn take_anchor(&mut self) -> Result<(), AllocError>
        requires tells { T.tells self.old.tokens false }
        requires kind { IsNext token.Anchor (T.to_come self.old.tokens) }
        ensures token { IsTaken T.Tokens self.old.tokens self.new.tokens }
        ensures same { self.new ≡ record self.old {
          tokens = self.new.tokens;
          event = record self.old.event { has_anchor = true };
          anchor = self.new.anchor;
        } }
        ensures name { OnOk result
            (self.new.anchor.items ≡ name_in (front_of (T.to_come self.old.tokens)).body) }
        ensures utf8 { OnOk result (IsUtf8Named T.Tokens self.old
            → IsUtf8Named T.Tokens self.new) }
    {
        self.tokens.skip(Kind::Anchor);
        self.event.has_anchor = true;
        self.anchor.clear();
        self.anchor.extend_from_slice(self.tokens.value())
    }

    /// Takes the tag that is next.
    fn take_tag(&mut self) -> Result<(), AllocError>
        requires tells { T.tells self.old.tokens false }
        requires kind { IsNext token.Tag (T.to_come self.old.tokens) }
        ensures token { IsTaken T.Tokens self.old.tokens self.new.tokens }
        ensures same { self.new ≡ record self.old {
          tokens = self.new.tokens;
          event = record self.old.event { has_tag = true };
          tag = self.new.tag;
          undefined = self.new.undefined;
        } }
        ensures tag { OnOk result (TakesTag T.Tokens self.old self.new) }
        ensures utf8 { OnOk result (IsUtf8Named T.Tokens self.old
            → IsUtf8Named T.Tokens self.new) }
    {
        let start = self.tokens.start();
        self.tokens.skip(Kind::Tag);
        self.event.has_tag = true;
        self.put_tag(start)
    }

    /// Puts down the tag that was taken last in full, or where it starts if its handle is undefined.
    fn put_tag(&mut self, start: T::Place) -> Result<(), AllocError>
        ensures same { self.new ≡ record self.old {
          tag = self.new.tag;
          undefined = self.new.undefined;
        } }
        ensures puts { OnOk result (PutsTag (option_map (λ prefix. prefix
            ++ (T.texts self.old.tokens).suffix)
            (prefix_for (directives_of self.old.directives).tags
            (T.texts self.old.tokens).handle)) start self.old self.new) }
        ensures utf8 { OnOk result (AreUtf8 (directives_of self.old.directives).tags
            → IsUtf8 (T.texts self.old.tokens).handle → IsUtf8 (T.texts self.old.tokens).suffix
            → IsUtf8 self.new.tag.items) }
    {
        self.tag.clear();
        match self.directives.prefix_of(self.tokens.handle()) {
            Some(prefix) => {
                self.tag.extend_from_slice(prefix)?;
                self.tag.extend_from_slice(self.tokens.suffix())
            }
            None => {
                self.undefined = Some(start);
                Ok(())
            }
        }
    }

    /// The content of a node after its properties, if it has any.
    fn behind_properties(&mut self, kind: Kind, wants: Turn) -> Turn
        requires shown { IsShown T.Tokens kind self.old.tokens }
        requires joins { joins_in kind self.old.event ≡ false }
        ensures found { (q : Properties) → AreProperties T.Tokens q self.old
            → Found T.Tokens (begun T.Tokens (wants_by wants self.old.state) (Some q) self.old)
            result self.new }
        ensures stands { StandsBehind self.old → StandsAfter result self.new }
        ensures utf8 { IsUtf8Named T.Tokens self.old → IsUtf8After T.Tokens result self.new }
    {
        match self.undefined {
            Some(tag) => {
                let start = self.event.start;
                self.refuse_at(ParseProblem::UndefinedHandle, tag, start)
            }
            None => match self.content(kind, wants) {
                Some(turn) => turn,
                None => self.empty(),
            },
        }
    }

    // ---- contents

    /// The content that begins with the token of that kind, which is next, if one does that may be there.
    fn content(&mut self, kind: Kind, wants: Turn) -> Option<Turn>
        requires { IsShown T.Tokens kind self.old.tokens }
        ensures contents { Contents T.Tokens (wants_by wants self.old.state) kind self.old
            result self.new }
        ensures stands { StandsBehind self.old → StandsAfterContent result self.new }
        ensures utf8 { IsUtf8Named T.Tokens self.old
            → IsUtf8AfterContent T.Tokens result self.new }
    {
        match kind {
            Kind::Scalar => Some(self.scalar()),
            Kind::FlowSequenceStart => Some(self.collection(
                kind,
                EventKind::SequenceStart,
                true,
                State::FlowSequenceFirstEntry,
            )),
            Kind::FlowMappingStart => Some(self.collection(
                kind,
                EventKind::MappingStart,
                true,
                State::FlowMappingFirstKey,
            )),
            _ => match wants {
                Turn::FlowNode => None,
                _ => self.block_content(kind, wants),
            },
        }
    }

    /// A block collection that begins so.
    fn block_content(&mut self, kind: Kind, wants: Turn) -> Option<Turn>
        requires shown { IsShown T.Tokens kind self.old.tokens }
        requires inside { starts_content Flow (type_by kind) ≡ false }
        requires wants { wants ≡ turn.FlowNode → ⊥ }
        ensures contents { Contents T.Tokens (wants_by wants self.old.state) kind self.old
            result self.new }
        ensures stands { StandsBehind self.old → StandsAfterContent result self.new }
        ensures utf8 { IsUtf8Named T.Tokens self.old
            → IsUtf8AfterContent T.Tokens result self.new }
    {
        match kind {
            Kind::BlockSequenceStart => Some(self.collection(
                kind,
                EventKind::SequenceStart,
                false,
                State::BlockSequenceEntry,
            )),
            Kind::BlockMappingStart => Some(self.collection(
                kind,
                EventKind::MappingStart,
                false,
                State::BlockMappingKey,
            )),
            Kind::BlockEntry => match wants {
                Turn::IndentlessNode => Some(self.indentless_sequence()),
                _ => None,
            },
            _ => None,
        }
    }

    /// The scalar that is next.
    fn scalar(&mut self) -> Turn
        requires tells { T.tells self.old.tokens false }
        requires kind { IsNext token.Scalar (T.to_come self.old.tokens) }
        ensures given { result ≡ turn.Given }
        ensures takes { TakesScalar T.Tokens self.old self.new }
        ensures stands { StandsBehind self.old → StandsAfter result self.new }
        ensures utf8 { IsUtf8Named T.Tokens self.old → IsUtf8After T.Tokens result self.new }
    {
        let style = self.tokens.style();
        let end = self.tokens.end(Kind::Scalar);
        self.event.kind = EventKind::Scalar;
        self.event.style = style;
        self.event.has_value = true;
        self.event.end = end;
        self.tokens.skip(Kind::Scalar);
        self.imply(style == yaml_scalar_style_t::YAML_PLAIN_SCALAR_STYLE);
        Turn::Given
    }

    /// Whether the tag of a scalar may be left out: by its style, where it has none. The tag `!` says that it has none, and is left out.
    fn imply(&mut self, plain: bool)
        ensures implies { Implies plain self.old self.new }
        ensures utf8 { IsUtf8Named T.Tokens self.old → IsUtf8Named T.Tokens self.new }
    {
        if self.event.has_tag {
            let none = self.tag.as_slice() == b"!".as_slice();
            self.event.has_tag = !none;
            self.event.implicit = none;
            self.event.quoted_implicit = false;
        } else {
            self.event.implicit = plain;
            self.event.quoted_implicit = !plain;
        }
    }

    /// A collection opens with the token of that kind, which is next: what it gives, and the state then.
    fn collection(&mut self, token: Kind, kind: EventKind, flow: bool, first: State) -> Turn
        requires { IsShown T.Tokens token self.old.tokens }
        ensures collected { Collected T.Tokens kind flow first self.old result self.new }
        ensures stands { IsInner first → false ≡ between_behind kind → StandsBehind self.old
            → StandsAfter result self.new }
        ensures utf8 { IsUtf8Named T.Tokens self.old → IsUtf8After T.Tokens result self.new }
    {
        match self.open_with(token, kind, flow, first) {
            Ok(()) => {
                self.tokens.skip(token);
                Turn::Given
            }
            Err(_) => self.lack_memory(),
        }
    }

    /// A sequence that isn't indented, at a `-`, which isn't taken: it is the first entry's.
    fn indentless_sequence(&mut self) -> Turn
        requires { IsShown T.Tokens token.BlockEntry self.old.tokens }
        ensures loosely { Loosely T.Tokens self.old result self.new }
        ensures stands { StandsBehind self.old → StandsAfter result self.new }
        ensures utf8 { IsUtf8Named T.Tokens self.old → IsUtf8After T.Tokens result self.new }
    {
        let entry = State::IndentlessSequenceEntry;
        match self.open_with(Kind::BlockEntry, EventKind::SequenceStart, false, entry) {
            Ok(()) => Turn::Given,
            Err(_) => self.lack_memory(),
        }
    }

    /// A collection opens with the token of that kind, which is next and stays.
    fn open_with(
        &mut self,
        token: Kind,
        kind: EventKind,
        flow: bool,
        first: State,
    ) -> Result<(), AllocError>
        requires { IsShown T.Tokens token self.old.tokens }
        ensures opens { OnOk result (OpensWith T.Tokens kind flow first self.old self.new) }
        ensures stands { OnOk result (StandsBehind self.old → AreOpen self.new) }
        ensures utf8 { OnOk result (IsUtf8Named T.Tokens self.old
            → IsUtf8Named T.Tokens self.new) }
        ensures tokens { self.new.tokens ≡ self.old.tokens }
    {
        self.open()?;
        let end = self.tokens.end(token);
        self.event.kind = kind;
        self.event.has_value = false;
        self.event.flow = flow;
        self.event.implicit = !self.event.has_tag;
        self.event.end = end;
        self.state = first;
        Ok(())
    }

    /// A node that is left out.
    fn empty(&mut self) -> Turn
        ensures given { result ≡ turn.Given }
        ensures same { self.new ≡ record self.old { event = self.new.event } }
        ensures event { event_in T.Tokens self.new ≡ node_told T.Tokens item.empty
            (T.mark_of self.old.tokens self.old.event.end) self.old }
        ensures stands { Stands self.old → between_in self.old.state ≡ false
            → StandsAfter result self.new }
        ensures utf8 { IsUtf8Named T.Tokens self.old → IsUtf8After T.Tokens result self.new }
    {
        self.event.kind = EventKind::Scalar;
        self.event.style = yaml_scalar_style_t::YAML_PLAIN_SCALAR_STYLE;
        self.event.has_value = false;
        self.event.implicit = !self.event.has_tag;
        self.event.quoted_implicit = false;
        Turn::Given
    }

    /// A node that is left out at a place, with the state after it.
    pub(crate) fn empty_at(&mut self, at: T::Place, next: State) -> Turn
        ensures given { result ≡ turn.Given }
        ensures gives { Gives T.Tokens next (blank_event (T.mark_of self.old.tokens at)) self.old
            self.new }
        ensures stands { StandsIn next (reverse self.old.levels.items) → between_in next ≡ false
            → StandsAfter result self.new }
        ensures utf8 { IsUtf8Kept T.Tokens self.old → IsUtf8After T.Tokens result self.new }
    {
        self.state = next;
        let _given = self.give(EventKind::Scalar, at, at);
        self.empty()
    }

    /// A node that is left out where the token that is next starts, with the state after it.
    pub(crate) fn empty_here(&mut self, next: State) -> Turn
        requires { T.tells self.old.tokens false }
        ensures given { result ≡ turn.Given }
        ensures gives { Gives T.Tokens next
            (blank_event (front_of (T.to_come self.old.tokens)).start_mark) self.old self.new }
        ensures stands { StandsIn next (reverse self.old.levels.items) → between_in next ≡ false
            → StandsAfter result self.new }
        ensures utf8 { IsUtf8Kept T.Tokens self.old → IsUtf8After T.Tokens result self.new }
    {
        let at = self.tokens.start();
        self.empty_at(at, next)
    }
}
