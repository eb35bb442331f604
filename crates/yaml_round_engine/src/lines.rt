//! The lines of an input's events.

ghost use Rattle.std.specs.Prelude.{ℕ, List};
ghost use Rattle.yaml_scan_types.specs.Faults.{Answers};
ghost use Rattle.yaml_round_content.specs.Input.{ReadsInput};
ghost use Rattle.yaml_round_reading.specs.Reading.{AreReal};
ghost use Rattle.yaml_round_engine.specs.Layers.{list_layers};
ghost use Rattle.yaml_round_engine.specs.Lines.{AddsLines};
ghost use Rattle.yaml_round_engine.specs.Answers.{IsListed, bytes_of};

use std::alloc::Global;
use yaml_parse::{yaml_encoding_t, yaml_fault_t, yaml_found_t, yaml_memory_fault, yaml_origin_t};
use yaml_round_reading::{Reading, yaml_push_event_line_ref};

// Adds the lines of the events to their end.
fn push_lines(reading: &mut Reading<'_>, lines: &mut Vec<u8>) -> Result<(), yaml_fault_t>
    requires { AreReal reading.old.parser.events }
    ensures { AddsLines reading.old.parser lines.old.items result lines.new.items }
{
    'events: loop {
        match reading.next() {
            yaml_found_t::Refused => return Err(reading.fault()),
            yaml_found_t::End => return Ok(()),
            yaml_found_t::Event => {
                if yaml_push_event_line_ref(lines, reading.event()).is_err() {
                    return Err(yaml_memory_fault(yaml_origin_t::Emitter));
                }
            }
        }
    }
}

/// The lines of a reading's events, for that many bytes of which room is asked for at first: where there is less it is asked for as they
/// come.
#[tactic(auto, using(crate::proofs::Judging::listed, crate::proofs::Judging::not_listed))]
pub fn lines_of(
    alloc: Global,
    reading: &mut Reading<'_>,
    room: usize,
) -> Result<Vec<u8>, yaml_fault_t>
    requires { AreReal reading.old.parser.events }
    ensures { (from : yaml_encoding_t) (input : List ℕ) → ReadsInput from input reading.old.parser
        → Answers list_layers bytes_of (IsListed from input) result }
{
    let mut lines = Vec::new(alloc);
    let _ = lines.reserve(room);
    match push_lines(reading, &mut lines) {
        Err(fault) => Err(fault),
        Ok(()) => Ok(lines),
    }
}
