//! What is in two inputs after that many events.

ghost use Rattle.std.specs.Prelude.{◌≡◌};
ghost use Rattle.yaml_parse.specs.Events.{borrowed_body, type_of};
ghost use Rattle.yaml_round_content.specs.Input.{events_of, ending_of};
ghost use Rattle.yaml_round_reading.specs.Reading.{AreReal};
ghost use Rattle.yaml_round_engine.specs.Dumps.{FindsEvent, TellsOfInputs};

use crate::difference::yaml_difference_t;
use crate::front::Front;
use std::alloc::Global;
use yaml_parse::{
    EventRef, yaml_encoding_t, yaml_event_type_t, yaml_fault_t, yaml_found_t, yaml_mark_t,
};
use yaml_parse_model::ZERO_MARK;
use yaml_round_reading::{Reading, let_go, read_text, reading_of, yaml_side_t};

/// Where an event begins and ends, and what it is.
#[derive(Clone, Copy)]
pub(crate) struct Seen {
    start: yaml_mark_t,
    end: yaml_mark_t,
    kind: yaml_event_type_t,
}

/// What an event is.
pub(crate) fn type_of(event: EventRef<'_>) -> yaml_event_type_t
    ensures { result ≡ type_of (borrowed_body event.entry) }
{
    match event {
        EventRef::No => yaml_event_type_t::YAML_NO_EVENT,
        EventRef::StreamStart { .. } => yaml_event_type_t::YAML_STREAM_START_EVENT,
        EventRef::StreamEnd => yaml_event_type_t::YAML_STREAM_END_EVENT,
        EventRef::DocumentStart { .. } => yaml_event_type_t::YAML_DOCUMENT_START_EVENT,
        EventRef::DocumentEnd { .. } => yaml_event_type_t::YAML_DOCUMENT_END_EVENT,
        EventRef::Alias { .. } => yaml_event_type_t::YAML_ALIAS_EVENT,
        EventRef::Scalar { .. } => yaml_event_type_t::YAML_SCALAR_EVENT,
        EventRef::SequenceStart { .. } => yaml_event_type_t::YAML_SEQUENCE_START_EVENT,
        EventRef::SequenceEnd => yaml_event_type_t::YAML_SEQUENCE_END_EVENT,
        EventRef::MappingStart { .. } => yaml_event_type_t::YAML_MAPPING_START_EVENT,
        EventRef::MappingEnd => yaml_event_type_t::YAML_MAPPING_END_EVENT,
    }
}

// The event of that number, from 0; no event at no place after the last.
fn found_at(reading: &mut Reading<'_>, number: u64) -> Result<Seen, yaml_fault_t>
    requires { AreReal reading.old.parser.events }
    ensures { FindsEvent number reading.old.parser.events reading.old.parser.ending result }
{
    let mut left = number;
    'events: loop {
        match reading.next() {
            yaml_found_t::Refused => return Err(reading.fault()),
            yaml_found_t::End => {
                return Ok(Seen {
                    start: ZERO_MARK,
                    end: ZERO_MARK,
                    kind: yaml_event_type_t::YAML_NO_EVENT,
                });
            }
            yaml_found_t::Event => {
                if left == 0 {
                    let kind = type_of(reading.event());
                    let (start, end) = reading.marks();
                    return Ok(Seen { start, end, kind });
                }
                left -= 1;
            }
        }
    }
}

// What is seen of the event of that number in an input.
fn seen_at(
    alloc: Global,
    input: &[u8],
    from: yaml_encoding_t,
    number: u64,
) -> Result<Seen, yaml_fault_t>
    ensures { FindsEvent number (events_of from input.now) (ending_of from input.now) result }
{
    let text = read_text(alloc, input, from);
    let mut reading = reading_of(alloc, &text)?;
    let answer = found_at(&mut reading, number);
    let_go(reading);
    answer
}

// The place, with what these two events say of it.
fn placed(place: yaml_difference_t, first: Seen, second: Seen) -> yaml_difference_t
    ensures { result ≡ record place {
      first_mark = first.start;
      first_end = first.end;
      first_type = first.kind;
      second_mark = second.start;
      second_end = second.end;
      second_type = second.kind;
    } }
{
    yaml_difference_t {
        first_mark: first.start,
        first_end: first.end,
        first_type: first.kind,
        second_mark: second.start,
        second_end: second.end,
        second_type: second.kind,
        ..place
    }
}

/// The place after what was passed of both inputs' dumps: an input's events are as many as those of its documents' dumps.
pub fn place_behind(
    alloc: Global,
    a: &[u8],
    a_encoding: yaml_encoding_t,
    b: &[u8],
    b_encoding: yaml_encoding_t,
    front: Front,
) -> Result<yaml_difference_t, (yaml_side_t, yaml_fault_t)>
    ensures { TellsOfInputs a_encoding a.now b_encoding b.now front result }
{
    match seen_at(alloc, a, a_encoding, front.events) {
        Err(fault) => Err((yaml_side_t::First, fault)),
        Ok(first) => match seen_at(alloc, b, b_encoding, front.events) {
            Err(fault) => Err((yaml_side_t::Second, fault)),
            Ok(second) => Ok(placed(front.trail.place, first, second)),
        },
    }
}
