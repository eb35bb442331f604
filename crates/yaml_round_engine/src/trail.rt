//! The state of a comparison.

ghost use Rattle.std.specs.Prelude.{◌≡◌, ◌∷◌, true, suc, option_map, OnOk, IfOk};
ghost use Rattle.yaml_parse.specs.Events.{borrowed_body, text_of};
ghost use Rattle.yaml_round_engine.specs.Differences.{TellsOf};
ghost use Rattle.yaml_round_engine.specs.Places.{path_of, step_of, steps_of};
ghost use Rattle.yaml_round_engine.specs.Walking.{past_end, past_event, past_node, start, step_behind};

use crate::cause::yaml_cause_t;
use crate::difference::{yaml_difference_t, yaml_step_t};
use crate::seen::type_of;
use std::alloc::{AllocError, Global};
use yaml_parse::{EventRef, yaml_event_type_t};
use yaml_parse_model::ZERO_MARK;
use yaml_round_reading::Reading;

/// The state of a comparison, or where it found that the contents differ. The path is kept only
/// where it is asked for.
#[derive(Drop)]
pub struct Trail {
    pub place: yaml_difference_t,
    alloc: Global,
}

/// The number after another. There is none after the largest: it is refused as memory is.
pub(crate) fn one_more(number: u64) -> Result<u64, AllocError>
    ensures { IfOk result (λ next. next ≡ suc number) }
{
    number.checked_add(1).ok_or(AllocError)
}

// A copy of a text, where there is one.
fn copy_if(alloc: Global, text: Option<&[u8]>) -> Result<Option<Vec<u8>>, AllocError>
    ensures { IfOk result (λ copy. text_of copy ≡ option_map (λ t. t.now) text.entry) }
{
    match text {
        None => Ok(None),
        Some(text) => Ok(Some(Vec::from_slice(alloc, text)?)),
    }
}

// The step to what is after a node in the same collection; `text` is that of the node, where it is a scalar, and is kept where
// it is a key.
fn step_behind(
    alloc: Global,
    step: yaml_step_t,
    text: Option<&[u8]>,
) -> Result<yaml_step_t, AllocError>
    ensures { IfOk result (λ next. step_of next
        ≡ step_behind (step_of step) (option_map (λ t. t.now) text.entry)) }
{
    match step {
        yaml_step_t::Item(number) => Ok(yaml_step_t::Item(one_more(number)?)),
        yaml_step_t::Key(pair) => {
            let key = copy_if(alloc, text)?;
            Ok(yaml_step_t::Value { pair, key })
        }
        yaml_step_t::Value { pair, .. } => Ok(yaml_step_t::Key(one_more(pair)?)),
    }
}

// A step inwards.
fn push_step(path: &mut Vec<yaml_step_t>, step: yaml_step_t) -> Result<(), AllocError>
    ensures { OnOk result (steps_of path.new.items ≡ step_of step ∷ steps_of path.old.items) }
{
    path.push(step)?;
    Ok(())
}

// Passes a whole node.
fn pass_node(
    alloc: Global,
    path: &mut Vec<yaml_step_t>,
    text: Option<&[u8]>,
) -> Result<(), AllocError>
    ensures { OnOk result (steps_of path.new.items
        ≡ past_node (option_map (λ t. t.now) text.entry) (steps_of path.old.items)) }
{
    let Some(step) = path.pop() else {
        return Ok(());
    };
    let next = step_behind(alloc, step, text)?;
    push_step(path, next)
}

// A collection has ended.
fn pass_end(alloc: Global, path: &mut Vec<yaml_step_t>) -> Result<(), AllocError>
    ensures { OnOk result (steps_of path.new.items ≡ past_end (steps_of path.old.items)) }
{
    path.pop();
    pass_node(alloc, path, None)
}

// A document has ended.
fn pass_document(document: &mut u64) -> Result<(), AllocError>
    ensures { OnOk result (document.new ≡ suc document.old) }
{
    let next = one_more(*document)?;
    *document = next;
    Ok(())
}

// Passes the event.
// Out of line, so that the loop that compares stays short.
#[inline(never)]
fn pass(alloc: Global, place: &mut yaml_difference_t, event: EventRef<'_>) -> Result<(), AllocError>
    ensures { OnOk result (path_of place.new ≡ past_event (borrowed_body event.entry)
        (path_of place.old)) }
{
    match event {
        EventRef::Scalar { value, .. } => pass_node(alloc, &mut place.path, Some(value)),
        EventRef::Alias { .. } => pass_node(alloc, &mut place.path, None),
        EventRef::SequenceStart { .. } => push_step(&mut place.path, yaml_step_t::Item(0)),
        EventRef::MappingStart { .. } => push_step(&mut place.path, yaml_step_t::Key(0)),
        EventRef::SequenceEnd | EventRef::MappingEnd => pass_end(alloc, &mut place.path),
        EventRef::DocumentEnd { .. } => pass_document(&mut place.document),
        _ => Ok(()),
    }
}

impl Trail {
    /// Before two streams.
    pub fn new(alloc: Global) -> Trail
        ensures { path_of result.place ≡ start }
    {
        Trail {
            place: yaml_difference_t {
                document: 0,
                path: Vec::new(alloc),
                first_mark: ZERO_MARK,
                first_end: ZERO_MARK,
                second_mark: ZERO_MARK,
                second_end: ZERO_MARK,
                first_type: yaml_event_type_t::YAML_NO_EVENT,
                second_type: yaml_event_type_t::YAML_NO_EVENT,
                cause: yaml_cause_t::Kind,
            },
            alloc,
        }
    }

    // The event is before both inputs' next ones.
    pub(crate) fn go_past(&mut self, event: EventRef<'_>, kept: bool) -> Result<(), AllocError>
        ensures { kept ≡ true → OnOk result (path_of self.new.place
            ≡ past_event (borrowed_body event.entry) (path_of self.old.place)) }
    {
        if kept {
            pass(self.alloc, &mut self.place, event)
        } else {
            Ok(())
        }
    }

    // The events that these readings gave last differ, in that.
    pub(crate) fn part_at(
        &mut self,
        first: &mut Reading<'_>,
        second: &mut Reading<'_>,
        cause: yaml_cause_t,
    )
        ensures tells { TellsOf first.old.given second.old.given self.new.place }
        ensures cause { self.new.place.cause ≡ cause }
        ensures path { path_of self.new.place ≡ path_of self.old.place }
        ensures first { first.new ≡ first.old }
        ensures second { second.new ≡ second.old }
    {
        self.place.cause = cause;
        self.place.first_type = type_of(first.event());
        self.place.second_type = type_of(second.event());
        (self.place.first_mark, self.place.first_end) = first.marks();
        (self.place.second_mark, self.place.second_end) = second.marks();
    }
}
