//! Comparisons of inputs, by their events side by side; no tree is held.

ghost use Rattle.std.specs.Prelude.{◌≡◌, ℕ, List};
ghost use Rattle.yaml_round_content.specs.Input.{ReadsInput};
ghost use Rattle.yaml_round_engine.specs.Compare.{BothReal, JudgesEvents, StepsBeside, StepsAlone, StepsOn, Sided, Parted, WhereDifferent, ReadsOutBoth, IsBehindFirst, ComparesReadings};
ghost use Rattle.yaml_round_engine.specs.Differences.{IsParting};
ghost use Rattle.yaml_round_engine.specs.Walking.{IsFreshTrail};
ghost use Rattle.yaml_parse.specs.Events.{borrowed_body};
ghost use Rattle.yaml_round_reading.specs.Reading.{AreReal};
ghost use Rattle.yaml_round_reading.specs.Answers.{IsSame};

use crate::cause::{parting, yaml_cause_t};
use crate::trail::Trail;
use std::alloc::Global;
use yaml_parse::{
    EventRef, yaml_encoding_t, yaml_fault_t, yaml_found_t, yaml_memory_fault, yaml_origin_t,
};
use yaml_round_reading::{
    Reading, let_go, let_text_go, normalized, read_out, read_text, reading_of, yaml_side_t,
};

/// How two streams of events go on.
#[derive(Clone, Copy)]
pub(crate) enum Next {
    // Both events have the same content.
    Same,
    // Both streams are at their end.
    End,
    // They don't, or one is at its end.
    Different(yaml_cause_t),
    // That input's fault was answered.
    Refused(yaml_side_t),
}

// A fault, and which input it is said of.
type SideFault = (yaml_side_t, yaml_fault_t);

// Whether two events, normalized, have the same content.
fn judged(event: EventRef<'_>, other: EventRef<'_>) -> Next
    ensures { JudgesEvents (borrowed_body event.entry) (borrowed_body other.entry) result }
{
    match parting(normalized(event, true), normalized(other, true)) {
        None => Next::Same,
        Some(cause) => Next::Different(cause),
    }
}

// The second input's next event beside the one that the first gave.
fn compared_event(first: &Reading<'_>, second: &mut Reading<'_>) -> Next
    requires { AreReal second.old.parser.events }
    ensures { StepsBeside first.now.given second.old.parser result second.new }
{
    match second.next() {
        yaml_found_t::Refused => Next::Refused(yaml_side_t::Second),
        yaml_found_t::End => Next::Different(yaml_cause_t::OnlyFirst),
        yaml_found_t::Event => judged(first.event(), second.event()),
    }
}

// What the second input has where the first is at its end.
fn compared_end(second: &mut Reading<'_>) -> Next
    requires { AreReal second.old.parser.events }
    ensures { StepsAlone second.old.parser result second.new.parser }
{
    match second.next() {
        yaml_found_t::Refused => Next::Refused(yaml_side_t::Second),
        yaml_found_t::End => Next::End,
        yaml_found_t::Event => Next::Different(yaml_cause_t::OnlySecond),
    }
}

// The next event of each input.
fn compared_next(first: &mut Reading<'_>, second: &mut Reading<'_>) -> Next
    requires { BothReal first.old.parser second.old.parser }
    ensures { StepsOn first.old second.old result first.new second.new }
{
    match first.next() {
        yaml_found_t::Refused => Next::Refused(yaml_side_t::First),
        yaml_found_t::End => compared_end(second),
        yaml_found_t::Event => compared_event(first, second),
    }
}

// Whether the events are the same to their end. The first fault ends it.
fn same_events(
    first: &mut Reading<'_>,
    second: &mut Reading<'_>,
    trail: &mut Trail,
    kept: bool,
) -> Result<bool, SideFault>
    requires { BothReal first.old.parser second.old.parser }
    ensures sided { Sided first.old.parser second.old.parser result first.new.parser
        second.new.parser }
    ensures parted { WhereDifferent result (Parted kept first.old.parser.events
        second.old.parser.events trail.old trail.new) }
{
    'events: loop {
        match compared_next(first, second) {
            Next::Refused(yaml_side_t::First) => return Err((yaml_side_t::First, first.fault())),
            Next::Refused(yaml_side_t::Second) => {
                return Err((yaml_side_t::Second, second.fault()))
            }
            Next::End => return Ok(true),
            Next::Different(cause) => {
                trail.part_at(first, second, cause);
                return Ok(false);
            }
            Next::Same => match trail.go_past(first.event(), kept) {
                Ok(()) => {}
                Err(_) => {
                    return Err((yaml_side_t::First, yaml_memory_fault(yaml_origin_t::Parser)))
                }
            },
        }
    }
}

// The fault of the first input, or else that of the second.
fn read_out_both(first: &mut Reading<'_>, second: &mut Reading<'_>) -> Result<(), SideFault>
    requires { BothReal first.old.parser second.old.parser }
    ensures { ReadsOutBoth first.old.parser second.old.parser result }
{
    match read_out(first) {
        Err(fault) => Err((yaml_side_t::First, fault)),
        Ok(()) => match read_out(second) {
            Err(fault) => Err((yaml_side_t::Second, fault)),
            Ok(()) => Ok(()),
        },
    }
}

// A fault of the second input, where the first, read to its end, has none.
fn behind_first(first: &mut Reading<'_>, fault: yaml_fault_t) -> SideFault
    requires { AreReal first.old.parser.events }
    ensures { IsBehindFirst first.old.parser.ending fault result }
{
    match read_out(first) {
        Err(earlier) => (yaml_side_t::First, earlier),
        Ok(()) => (yaml_side_t::Second, fault),
    }
}

// Whether two readings have the same content. A fault of the first is answered first.
fn compared(
    first: &mut Reading<'_>,
    second: &mut Reading<'_>,
    trail: &mut Trail,
    kept: bool,
) -> Result<bool, SideFault>
    requires { BothReal first.old.parser second.old.parser }
    ensures compares { ComparesReadings first.old.parser second.old.parser result }
    ensures parted { WhereDifferent result (Parted kept first.old.parser.events
        second.old.parser.events trail.old trail.new) }
{
    match same_events(first, second, trail, kept) {
        Ok(false) => match read_out_both(first, second) {
            Err(fault) => Err(fault),
            Ok(()) => Ok(false),
        },
        Err((yaml_side_t::Second, fault)) => Err(behind_first(first, fault)),
        answer => answer,
    }
}

// Whether the second input has the content of the first one's reading. Where it hasn't, the trail
// says where they differ, with the path where that is `kept`.
fn same_as(
    alloc: Global,
    first: &mut Reading<'_>,
    b: &[u8],
    b_encoding: yaml_encoding_t,
    trail: &mut Trail,
    kept: bool,
) -> Result<bool, SideFault>
    requires { AreReal first.old.parser.events }
    ensures same { (from : yaml_encoding_t) (input : List ℕ)
        → ReadsInput from input first.old.parser
        → IsSame from input b_encoding b.now result }
    ensures parting { (from : yaml_encoding_t) (input : List ℕ)
        → ReadsInput from input first.old.parser → IsFreshTrail kept trail.old
        → WhereDifferent result (IsParting from input b_encoding b.now trail.new.place) }
{
    let text = read_text(alloc, b, b_encoding);
    match reading_of(alloc, &text) {
        Err(fault) => {
            let_text_go(text);
            Err(behind_first(first, fault))
        }
        Ok(mut second) => {
            let answer = compared(first, &mut second, trail, kept);
            let_go(second);
            let_text_go(text);
            answer
        }
    }
}

/// Whether two inputs have the same content. Where they haven't, the trail says where they differ, with the path where that is
/// `kept`.
pub fn same_inputs(
    alloc: Global,
    a: &[u8],
    a_encoding: yaml_encoding_t,
    b: &[u8],
    b_encoding: yaml_encoding_t,
    trail: &mut Trail,
    kept: bool,
) -> Result<bool, (yaml_side_t, yaml_fault_t)>
    ensures same { IsSame a_encoding a.now b_encoding b.now result }
    ensures parting { IsFreshTrail kept trail.old
        → WhereDifferent result (IsParting a_encoding a.now b_encoding b.now trail.new.place) }
{
    let text = read_text(alloc, a, a_encoding);
    match reading_of(alloc, &text) {
        Err(fault) => {
            let_text_go(text);
            Err((yaml_side_t::First, fault))
        }
        Ok(mut first) => {
            let answer = same_as(alloc, &mut first, b, b_encoding, trail, kept);
            let_go(first);
            let_text_go(text);
            answer
        }
    }
}
