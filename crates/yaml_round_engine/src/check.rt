//! Whether an input loads, by its events and the anchors that its document has so far: no document is made.

ghost use Rattle.std.specs.Prelude.{ℕ, List};
ghost use Rattle.yaml_round_content.specs.Input.{ReadsInput};
ghost use Rattle.yaml_scan_types.specs.Faults.{Answers, load_layers};
ghost use Rattle.yaml_round_engine.specs.Checking.{IsChecked};
ghost use Rattle.yaml_round_engine.specs.Knowing.{IsUnknown};

use crate::known::{Known, Passed};
use std::alloc::Global;
use yaml_parse::{
    undefined_alias_fault, yaml_encoding_t, yaml_fault_t, yaml_found_t, yaml_memory_fault,
    yaml_origin_t,
};
use yaml_round_reading::{Reading, let_go, read_text, reading_of};

// Reads to the end, or to what loading refuses or ends at.
fn look_through(
    alloc: Global,
    reading: &mut Reading<'_>,
    known: &mut Known,
) -> Result<(), yaml_fault_t>
    requires { IsUnknown known.old }
    ensures { (from : yaml_encoding_t) (input : List ℕ) → ReadsInput from input reading.old.parser
        → Answers load_layers (λ done. done) (IsChecked from input) result }
{
    'events: loop {
        match reading.find() {
            yaml_found_t::Refused => return Err(reading.fault()),
            yaml_found_t::End => return Ok(()),
            yaml_found_t::Event => match known.pass(alloc, reading.event()) {
                Passed::On => {}
                Passed::Over => return Ok(()),
                Passed::Undefined => return Err(undefined_alias_fault(reading.start_mark())),
                Passed::Starved => return Err(yaml_memory_fault(yaml_origin_t::Loader)),
            },
        }
    }
}

/// Whether the documents of the input load.
pub fn load_out(alloc: Global, input: &[u8], from: yaml_encoding_t) -> Result<(), yaml_fault_t>
    ensures { Answers load_layers (λ done. done) (IsChecked from input.now) result }
{
    let text = read_text(alloc, input, from);
    let mut reading = reading_of(alloc, &text)?;
    let mut known = Known::new(alloc);
    let answer = look_through(alloc, &mut reading, &mut known);
    drop(known);
    let_go(reading);
    answer
}
