//! The reading of an input to its end.

ghost use Rattle.std.specs.Prelude.{◌≡◌, length, IfOk, IfErr, OnOk};
ghost use Rattle.yaml_round_device.specs.Counts.{counted};
ghost use Rattle.yaml_round_device.specs.Run.{GivesWholeInput, IsCause, CausedBy, Tells};

use crate::device::yaml_input_t;
use crate::run_fault::yaml_run_fault_t;
use std::alloc::Global;
use yaml_scan_types::{yaml_memory_fault, yaml_origin_t};

// How many bytes are asked for at most, except for the one that says whether there are more.
const PIECE: u64 = 4095;

/// Why an input wasn't read to its end.
#[derive(Clone, Copy)]
pub enum Cause {
    Failed,
    TooLong,
    NoMemory,
}

/// All bytes of the input, or why they weren't read. Each `get` asks for `min(4095, input_limit - got) + 1` bytes.
pub fn read_to_end<I: yaml_input_t>(
    alloc: Global,
    input: &mut I,
    input_limit: u64,
) -> Result<Vec<u8>, Cause>
    ensures all { IfOk result (λ bytes. GivesWholeInput (I.to_come input.old) (I.to_come input.new)
        input_limit bytes.items) }
    ensures sound { OnOk result (I.has_failed input.new ≡ I.has_failed input.old) }
    ensures cause { IfErr result (IsCause (I.to_come input.old) (I.has_failed input.old)
        (I.has_failed input.new) input_limit) }
    ensures count { IfOk result (λ bytes. I.given input.new
        ≡ counted (I.given input.old) (length bytes.items)) }
    ensures few { IfErr result (CausedBy (I.given input.old) (I.given input.new) input_limit) }
{
    let mut bytes = Vec::new(alloc);
    let mut piece = [0u8; 4096];
    let mut room = input_limit;
    loop {
        let wanted = room.min(PIECE) as usize + 1;
        let count = match input.get(&mut piece[..wanted]) {
            Ok(count) => count,
            Err(_) => return Err(Cause::Failed),
        };
        if count == 0 {
            return Ok(bytes);
        }
        if count as u64 > room {
            return Err(Cause::TooLong);
        }
        if bytes.extend_from_slice(&piece[..count]).is_err() {
            return Err(Cause::NoMemory);
        }
        room -= count as u64;
    }
}

/// The fault that reports a cause: out of memory has origin `Reader`.
pub fn told(cause: Cause) -> yaml_run_fault_t
    ensures { Tells cause result }
{
    match cause {
        Cause::Failed => yaml_run_fault_t::Read,
        Cause::TooLong => yaml_run_fault_t::TooLong,
        Cause::NoMemory => yaml_run_fault_t::Yaml(yaml_memory_fault(yaml_origin_t::Reader)),
    }
}
