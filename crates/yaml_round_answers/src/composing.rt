//! Which node of a document each of its events is of, as records.

ghost use Rattle.yaml_round_answers.specs.Told.{AnswersMeant};
ghost use Rattle.yaml_round_answers.specs.Composes.{steps_meant, Composes, NoSpotUnmeant};

use crate::answer::{handed_out, misused, refused, said, yaml_c_answer};
use crate::graph_record::{yaml_c_spot, yaml_c_step};
use crate::steps::{are_steps, compose_steps};
use std::alloc::Global;
use yaml_parse::{undefined_alias_fault, yaml_mark_t, yaml_memory_fault, yaml_origin_t};

/// What events come to. The list is the caller's to free, where it has any item.
#[repr(C)]
#[derive(Drop)]
pub struct yaml_c_spots {
    pub spots: &'static [yaml_c_spot],
}

const _: () = prove!(size_of::<yaml_c_spots>() == 16);

const NOWHERE: yaml_mark_t = yaml_mark_t {
    index: 0,
    line: 0,
    column: 0,
};

/// Which node each of the events is of that the records mean, where each record means one.
pub fn composed_by(
    alloc: Global,
    steps: &[yaml_c_step],
    bytes: &[u8],
    spots: &mut yaml_c_spots,
) -> yaml_c_answer
    ensures told { AnswersMeant (steps_meant bytes.now steps.now) (Composes spots.new.spots.now)
        result }
    ensures none { NoSpotUnmeant (steps_meant bytes.now steps.now) spots.new.spots.now }
{
    if !are_steps(bytes, steps) {
        spots.spots = &[];
        return misused();
    }
    match compose_steps(alloc, bytes, steps) {
        Ok((found, whole)) => {
            spots.spots = handed_out(found);
            if whole {
                said(0)
            } else {
                refused(alloc, &undefined_alias_fault(NOWHERE), 0)
            }
        }
        Err(_) => {
            spots.spots = &[];
            refused(alloc, &yaml_memory_fault(yaml_origin_t::Loader), 0)
        }
    }
}
