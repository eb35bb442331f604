//! The reading of an input to its end.

ghost use Rattle.std.specs.Prelude.{◌≡◌, length, IfOk, IfErr, OnOk};
ghost use Rattle.yaml_round_device.specs.Counts.{counted};
ghost use Rattle.yaml_round_device.specs.Run.{GivesWholeInput, IsReadFault, TakesFew};

use crate::{read_to_end, told, yaml_input_t, yaml_run_fault_t};
use std::alloc::Global;

/// All bytes of the input. `Read` where it has failed, `TooLong` where a byte past `input_limit` came, and a fault of
/// memory, origin `Reader`, where a growth was refused. Each `get` asks for `min(4095, input_limit - got) + 1` bytes.
pub fn yaml_read_all<I: yaml_input_t>(
    alloc: Global,
    input: &mut I,
    input_limit: u64,
) -> Result<Vec<u8>, yaml_run_fault_t>
    ensures all { IfOk result (λ bytes. GivesWholeInput (I.to_come input.old) (I.to_come input.new)
        input_limit bytes.items) }
    ensures sound { OnOk result (I.has_failed input.new ≡ I.has_failed input.old) }
    ensures cause { IfErr result (IsReadFault (I.to_come input.old) (I.has_failed input.old)
        (I.has_failed input.new) input_limit) }
    // No byte is taken after the one past the limit, whether or not the input's bytes are known.
    ensures count { IfOk result (λ bytes. I.given input.new
        ≡ counted (I.given input.old) (length bytes.items)) }
    ensures few { IfErr result (TakesFew (I.given input.old) (I.given input.new) input_limit) }
{
    match read_to_end(alloc, input, input_limit) {
        Ok(bytes) => Ok(bytes),
        Err(cause) => Err(told(cause)),
    }
}
