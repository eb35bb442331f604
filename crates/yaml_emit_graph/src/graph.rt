//! The events of a document's nodes.

ghost use Rattle.std.specs.Prelude.{◌≡◌, ◌≢◌, ◌≤◌, ◌∷◌, OnOk, IfOk, Some, None, IsUtf8, length, option_map};
ghost use Rattle.yaml_parse_model.specs.Constructors.{HasUtf8, IsUtf8Option};
ghost use Rattle.yaml_parse_model.specs.Documents.{Document};
ghost use Rattle.yaml_parse_model.specs.Events.{borrowed_body};
ghost use Rattle.yaml_parse_model.specs.Nodes.{tag_of};
ghost use Rattle.yaml_emit_layout.specs.Content.{emitter_event, scalar};
ghost use Rattle.yaml_emit_graph.specs.Graph.{lead, name_of, anchor_of, graph_scalar, opening_event, closing_event, body_of_id, tag_of_id, turn_event, is_text, dumped};
ghost use Rattle.yaml_emit_graph.specs.Events.{remaining_events, IsEvents, IsNameOf, IsNamed, given_event, nodes_left, GivesGraphEvent};

use crate::numbers::{Walked, number_of, walk_nodes};
use crate::walk::Turn;
use std::alloc::{AllocError, Global};
use yaml_parse_model::{
    EventRef, YAML_STR_TAG, yaml_document_get_node, yaml_document_t, yaml_node_body_t,
    yaml_node_tag_t,
};
use yaml_scan_model::yaml_scalar_style_t;

/// The events of a document, one after another.
#[derive(Drop)]
pub struct Events {
    alloc: Global,
    numbers: Vec<u64>,
    // The turns of the walk, and how many were given.
    turns: Vec<Turn>,
    given: usize,
    at: DumpEvent,
    /// The name in the event that was given last, where it has one.
    name: Vec<u8>,
}

/// The event that was given last.
#[derive(Clone, Copy)]
pub enum DumpEvent {
    None,
    Start,
    Turn(Turn),
    End,
}

// What comes before the digits of a name.
fn lead(size: usize) -> &'static [u8]
    ensures { result.now ≡ lead size }
{
    match size {
        1 => b"id00",
        2 => b"id0",
        _ => b"id",
    }
}

// `id` and a number of at least three digits.
fn name_of(alloc: Global, number: u64) -> Result<Vec<u8>, AllocError>
    ensures is { IfOk result (λ name. name.items ≡ name_of number) }
    ensures utf8 { IfOk result (λ name. IsUtf8 name.items) }
{
    let digits = format!(in alloc; "{number}")?;
    let mut name = Vec::from_slice(alloc, lead(digits.len()))?;
    name.extend_from_slice(digits.as_bytes())?;
    Ok(name)
}

// Puts the name of a number in place of another name.
fn put_name(alloc: Global, number: u64, name: &mut Vec<u8>) -> Result<(), AllocError>
    ensures { OnOk result (IsNameOf number name.new.items) }
{
    let text = name_of(alloc, number)?;
    *name = text;
    Ok(())
}

// The same for the event of a turn, where it has a name: an alias, or a node that has a number.
fn name_turn(
    alloc: Global,
    numbers: &[u64],
    turn: Turn,
    name: &mut Vec<u8>,
) -> Result<(), AllocError>
    ensures { OnOk result (IsNamed numbers.now turn name.new.items) }
{
    match turn {
        Turn::First(id) => match number_of(numbers, id) {
            0 => Ok(()),
            number => put_name(alloc, number, name),
        },
        Turn::Again(id) => put_name(alloc, number_of(numbers, id), name),
        Turn::Leave(_) => Ok(()),
    }
}

// The anchor of a node that has a number.
fn anchor_if(number: u64, name: &[u8]) -> Option<&[u8]>
    requires { number ≢ 0 → IsNameOf number name.now }
    ensures is { option_map (λ t. t.now) result ≡ anchor_of number }
    ensures utf8 { IsUtf8Option (option_map (λ t. t.now) result) }
{
    if number == 0 { None } else { Some(name) }
}

// Whether a tag is that of its kind by default.
// Inlined: mostly one comparison of kinds that are known.
#[inline(always)]
fn is_default(tag: &yaml_node_tag_t, default: &yaml_node_tag_t) -> bool
    ensures { result ≡ is_text (tag_of tag.now) (tag_of default.now) }
{
    match (tag, default) {
        (yaml_node_tag_t::Str, yaml_node_tag_t::Str)
        | (yaml_node_tag_t::Seq, yaml_node_tag_t::Seq)
        | (yaml_node_tag_t::Map, yaml_node_tag_t::Map) => true,
        _ => tag.as_slice() == default.as_slice(),
    }
}

// A scalar, whose tag may be left out where it is that of a text.
fn scalar_event<'d>(
    anchor: Option<&'d [u8]>,
    tag: &'d yaml_node_tag_t,
    value: &'d [u8],
    style: yaml_scalar_style_t,
) -> EventRef<'d>
    requires { IsUtf8Option (option_map (λ t. t.now) anchor) × IsUtf8 (tag_of tag.now)
        × IsUtf8 value.now }
    ensures is { emitter_event (borrowed_body result) ≡ scalar (graph_scalar
        (option_map (λ t. t.now) anchor.entry) (tag_of tag.now) value.now style) }
    ensures utf8 { HasUtf8 (borrowed_body result) }
{
    let plain = is_default(tag, &yaml_node_tag_t::Str);
    EventRef::Scalar {
        anchor,
        tag: Some(tag.as_slice()),
        value,
        plain_implicit: plain,
        quoted_implicit: plain,
        style,
    }
}

// The event of the node under a number, which is written for the first time.
fn opening_event<'d>(
    document: &'d yaml_document_t,
    id: i32,
    anchor: Option<&'d [u8]>,
) -> EventRef<'d>
    requires { IsUtf8Option (option_map (λ t. t.now) anchor) }
    ensures is { emitter_event (borrowed_body result) ≡ opening_event
        (option_map (λ t. t.now) anchor.entry) (tag_of_id document.now.nodes id)
        (body_of_id document.now.nodes id) }
    ensures utf8 { HasUtf8 (borrowed_body result) }
{
    let unstyled = yaml_scalar_style_t::YAML_ANY_SCALAR_STYLE;
    let Some(node) = yaml_document_get_node(document, id) else {
        return EventRef::Scalar {
            anchor,
            tag: Some(YAML_STR_TAG),
            value: b"",
            plain_implicit: true,
            quoted_implicit: true,
            style: unstyled,
        };
    };
    match &node.body {
        yaml_node_body_t::No => scalar_event(anchor, &node.tag, b"", unstyled),
        yaml_node_body_t::Scalar { value, style } => {
            scalar_event(anchor, &node.tag, value.as_slice(), *style)
        }
        yaml_node_body_t::Sequence { style, .. } => EventRef::SequenceStart {
            anchor,
            tag: Some(node.tag.as_slice()),
            implicit: is_default(&node.tag, &yaml_node_tag_t::Seq),
            style: *style,
        },
        yaml_node_body_t::Mapping { style, .. } => EventRef::MappingStart {
            anchor,
            tag: Some(node.tag.as_slice()),
            implicit: is_default(&node.tag, &yaml_node_tag_t::Map),
            style: *style,
        },
    }
}

// What ends the collection under a number.
fn closing_event(document: &yaml_document_t, id: i32) -> EventRef<'static>
    ensures is { emitter_event (borrowed_body result) ≡ closing_event
        (body_of_id document.now.nodes id) }
    ensures utf8 { HasUtf8 (borrowed_body result) }
{
    match yaml_document_get_node(document, id) {
        Some(node) if matches!(node.body, yaml_node_body_t::Sequence { .. }) => {
            EventRef::SequenceEnd
        }
        _ => EventRef::MappingEnd,
    }
}

// The event of a turn of the walk, with the name that it may have.
fn turn_event<'d>(
    numbers: &[u64],
    name: &'d [u8],
    document: &'d yaml_document_t,
    turn: Turn,
) -> EventRef<'d>
    requires { IsNamed numbers.now turn name.now }
    ensures is { emitter_event (borrowed_body result) ≡ turn_event numbers.now document.now.nodes
        turn }
    ensures utf8 { HasUtf8 (borrowed_body result) }
{
    match turn {
        Turn::First(id) => opening_event(document, id, anchor_if(number_of(numbers, id), name)),
        Turn::Again(_) => EventRef::Alias { anchor: name },
        Turn::Leave(id) => closing_event(document, id),
    }
}

impl Events {
    /// Before the document's start.
    #[tactic(auto, using(crate::proofs::Leaving::begin_comes))]
    pub fn of(alloc: Global, document: &yaml_document_t) -> Result<Events, AllocError>
        ensures { IfOk result (λ e. IsEvents e
            × (remaining_events document.now e ≡ dumped document.now)) }
    {
        let Walked { turns, numbers } = walk_nodes(alloc, document)?;
        Ok(Events {
            alloc,
            numbers,
            turns,
            given: 0,
            at: DumpEvent::None,
            name: Vec::new(alloc),
        })
    }

    // Goes on to the next node's event, or to the document's end.
    #[tactic(auto, using(crate::proofs::Leaving::turn_comes, crate::proofs::Leaving::end_comes))]
    fn next_turn(&mut self) -> Result<(), AllocError>
        requires { self.old.given ≤ length self.old.turns.items }
        ensures comes { OnOk result ((d : Document) → nodes_left d self.old
            ≡ given_event d self.new ∷ remaining_events d self.new) }
        ensures events { OnOk result (IsEvents self.new) }
    {
        if self.given < self.turns.len() {
            let turn = self.turns[self.given];
            name_turn(self.alloc, &self.numbers, turn, &mut self.name)?;
            self.given += 1;
            self.at = DumpEvent::Turn(turn);
            return Ok(());
        }
        self.at = DumpEvent::End;
        Ok(())
    }

    /// Goes on to the next event; there is none after the document's end.
    #[tactic(auto, unfolding(crate::specs::Events::remaining_events))]
    pub fn next(&mut self) -> Result<bool, AllocError>
        requires { IsEvents self.old }
        ensures { GivesGraphEvent self.old result self.new }
    {
        match self.at {
            DumpEvent::None => {
                self.at = DumpEvent::Start;
                Ok(true)
            }
            DumpEvent::Start | DumpEvent::Turn(_) => {
                self.next_turn()?;
                Ok(true)
            }
            DumpEvent::End => Ok(false),
        }
    }

    /// The event that was given last, borrowed from the document; before the first one the empty event.
    pub fn event<'d>(&'d self, document: &'d yaml_document_t) -> EventRef<'d>
        requires { IsEvents self.now }
        ensures is { emitter_event (borrowed_body result) ≡ given_event document.now self.now }
        ensures utf8 { HasUtf8 (borrowed_body result) }
    {
        match self.at {
            DumpEvent::None => EventRef::No,
            DumpEvent::Start => EventRef::DocumentStart {
                version_directive: document.version_directive(),
                tag_directives: document.tag_directives(),
                implicit: document.start_implicit(),
            },
            DumpEvent::Turn(turn) => turn_event(&self.numbers, &self.name, document, turn),
            DumpEvent::End => EventRef::DocumentEnd {
                implicit: document.end_implicit(),
            },
        }
    }
}
