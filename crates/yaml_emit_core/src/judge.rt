//! What is wrong with an event of a node.

ghost use Rattle.std.specs.Prelude.{◌≡◌, ◌||◌, Bool, List, Some, None, true, false, option_map, if◌then◌else◌};
ghost use Rattle.yaml_emit_layout.specs.declared.Settings.{Settings};
ghost use Rattle.yaml_emit_layout.specs.Content as said;
ghost use Rattle.yaml_parse_model.specs.Events.{borrowed_body, TagDirective};
ghost use Rattle.yaml_emit_layout.specs.Content.{emitter_event};
ghost use Rattle.yaml_emit_layout.specs.Grammar.{or_else, name_problem, anchor_problem, tag_problem, start_tag, scalar_tag, has};
ghost use Rattle.yaml_emit_layout.specs.State.{problem_at};
ghost use Rattle.yaml_emit_core.specs.Judged.{misplaced, is_start, is_over, fits_at};
ghost use Rattle.yaml_emit_core.specs.Steps.{is_outer, is_document_start};
ghost use Rattle.yaml_emit_core.specs.Levels.{awaits_node, may_end, opening, ending, state_at, Stands};

use crate::alphas::are_alphas;
use crate::level::{Levels, State};
use yaml_emit_layout::Problem;
use yaml_parse_model::EventRef;

fn or_else(first: Option<Problem>, second: Option<Problem>) -> Option<Problem>
    ensures { result ≡ or_else first second }
{
    match first {
        None => second,
        Some(problem) => Some(problem),
    }
}

fn name_problem(empty: Problem, characters: Problem, name: &[u8]) -> Option<Problem>
    ensures { result ≡ name_problem empty characters name.now }
{
    if name.is_empty() {
        Some(empty)
    } else if are_alphas(name) {
        None
    } else {
        Some(characters)
    }
}

fn anchor_problem(name: Option<&[u8]>) -> Option<Problem>
    ensures { result ≡ anchor_problem (option_map (λ n. n.now) name.entry) }
{
    match name {
        None => None,
        Some(name) => name_problem(Problem::AnchorEmpty, Problem::AnchorCharacters, name),
    }
}

fn tag_problem(tag: Option<&[u8]>) -> Option<Problem>
    ensures { result ≡ tag_problem (option_map (λ t. t.now) tag.entry) }
{
    match tag {
        Some(tag) if tag.is_empty() => Some(Problem::TagEmpty),
        _ => None,
    }
}

fn misplaced(state: State) -> Problem
    ensures { result ≡ misplaced state }
{
    match state {
        State::StreamStart => Problem::ExpectedStreamStart,
        State::FirstDocumentStart | State::DocumentStart =>
            Problem::ExpectedDocumentStartOrStreamEnd,
        State::DocumentEnd => Problem::ExpectedDocumentEnd,
        State::End => Problem::ExpectedNothing,
        _ => Problem::ExpectedNode,
    }
}

/// Where an event fits nothing is wrong with its place.
pub fn place_if(fits: bool, state: State) -> Option<Problem>
    ensures { result ≡ (if fits then None else Some (misplaced state)) }
{
    if fits { None } else { Some(misplaced(state)) }
}

fn awaits_node(state: State) -> bool
    ensures { result ≡ awaits_node state }
{
    match state {
        State::DocumentContent => true,
        _ => state.is_inside(),
    }
}

fn may_end(sequence: bool, state: State) -> bool
    ensures { result ≡ may_end sequence state }
{
    if sequence {
        state.is_item()
    } else {
        state.awaits_key()
    }
}

/// What is wrong with an alias.
pub fn alias_problem(levels: &Levels, name: &[u8]) -> Option<Problem>
    ensures stands { Stands levels.now }
    ensures problem { (s : Settings) (unended : Bool) (directives : List TagDirective)
        → result ≡ problem_at s (state_at levels.now unended directives) (said.alias name.now) }
{
    let state = levels.top().state;
    or_else(
        name_problem(Problem::AliasEmpty, Problem::AliasCharacters, name),
        place_if(awaits_node(state), state),
    )
}

/// What is wrong with the end of a collection.
pub fn end_problem(levels: &Levels, sequence: bool) -> Option<Problem>
    ensures stands { Stands levels.now }
    ensures problem { (s : Settings) (unended : Bool) (directives : List TagDirective)
        → result ≡ problem_at s (state_at levels.now unended directives) (ending sequence) }
{
    let state = levels.top().state;
    place_if(may_end(sequence, state), state)
}

/// What is wrong with the start of a collection that has this anchor, and this tag where it is written.
pub fn start_problem(levels: &Levels, anchor: Option<&[u8]>, tag: Option<&[u8]>) -> Option<Problem>
    ensures stands { Stands levels.now }
    ensures problem { (s : Settings) (unended sequence : Bool) (directives : List TagDirective)
        (q : said.Start)
        → option_map (λ n. n.now) anchor.entry ≡ q.anchor → option_map (λ t. t.now) tag.entry
        ≡ start_tag s.canonical q
        → result ≡ problem_at s (state_at levels.now unended directives) (opening sequence q) }
{
    let state = levels.top().state;
    or_else(
        or_else(anchor_problem(anchor), tag_problem(tag)),
        place_if(awaits_node(state), state),
    )
}

// A scalar is flagged if it has a tag or may be untagged.
fn flags_problem(flagged: bool) -> Option<Problem>
    ensures { result ≡ (if flagged then None else Some Problem.NoFlags) }
{
    if flagged {
        None
    } else {
        Some(Problem::NoFlags)
    }
}

/// What is wrong with a scalar that has this anchor, and this tag where it is written; flagged: it has a tag, or may be untagged.
pub fn scalar_problem(
    levels: &Levels,
    anchor: Option<&[u8]>,
    tag: Option<&[u8]>,
    flagged: bool,
) -> Option<Problem>
    ensures stands { Stands levels.now }
    ensures problem { (s : Settings) (unended : Bool) (directives : List TagDirective)
        (q : said.Scalar)
        → option_map (λ n. n.now) anchor.entry ≡ q.anchor → option_map (λ t. t.now) tag.entry
        ≡ scalar_tag s.canonical q
        → flagged ≡ (has q.tag || (q.plain || q.quoted))
        → result ≡ problem_at s (state_at levels.now unended directives) (said.scalar q) }
{
    let state = levels.top().state;
    or_else(
        or_else(anchor_problem(anchor), tag_problem(tag)),
        or_else(place_if(awaits_node(state), state), flags_problem(flagged)),
    )
}

fn is_start(state: State) -> bool
    ensures { result ≡ is_start state }
{
    matches!(state, State::StreamStart)
}

fn is_over(state: State) -> bool
    ensures { result ≡ is_over state }
{
    matches!(state, State::DocumentEnd)
}

// Whether an event of the stream or a document's end has its place.
fn fits(event: &EventRef, state: State) -> bool
    ensures { result ≡ fits_at (emitter_event (borrowed_body event.now)) state }
{
    match event {
        EventRef::StreamStart { .. } => is_start(state),
        EventRef::StreamEnd => state.is_between(),
        EventRef::DocumentEnd { .. } => is_over(state),
        _ => false,
    }
}

/// What is wrong with an event of the stream, the end of a document, or an event that is none.
pub fn outer_problem(levels: &Levels, event: &EventRef) -> Option<Problem>
    requires outer { is_outer (emitter_event (borrowed_body event.now)) ≡ true }
    requires other { is_document_start (emitter_event (borrowed_body event.now)) ≡ false }
    ensures stands { Stands levels.now }
    ensures problem { (s : Settings) (unended : Bool) (directives : List TagDirective)
        → result ≡ problem_at s (state_at levels.now unended directives)
        (emitter_event (borrowed_body event.now)) }
{
    let state = levels.top().state;
    place_if(fits(event, state), state)
}
