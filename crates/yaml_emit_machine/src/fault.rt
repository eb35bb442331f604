//! The faults of an emitter.

ghost use Rattle.std.specs.Prelude.{◌≡◌, None, option_map};
ghost use Rattle.yaml_scan_model.specs.scan_types.Faults.{fault_of, memory_fault};
ghost use Rattle.yaml_emit_machine.specs.Judged.{refused_at};
ghost use Rattle.yaml_emit_machine.specs.Emitter.{plain_fault, emitter_fault, problem_fault, memory_origin, stopped, refusal_by};

use yaml_emit_core::Core;
use yaml_emit_layout::{Expected, Status, problem_text};
use yaml_scan_model::{
    yaml_error_type_t, yaml_fault_t, yaml_mark_t, yaml_memory_fault, yaml_origin_t,
};

fn plain_fault(
    kind: yaml_error_type_t,
    problem: &'static str,
    origin: yaml_origin_t,
) -> yaml_fault_t
    ensures { fault_of result ≡ plain_fault kind problem.now origin }
{
    let zero = yaml_mark_t {
        index: 0,
        line: 0,
        column: 0,
    };
    yaml_fault_t {
        kind,
        problem,
        offset: 0,
        value: 0,
        problem_mark: zero,
        context: None,
        context_mark: zero,
        origin,
    }
}

fn emitter_fault(problem: &'static str) -> yaml_fault_t
    ensures { fault_of result ≡ emitter_fault problem.now }
{
    plain_fault(
        yaml_error_type_t::YAML_EMITTER_ERROR,
        problem,
        yaml_origin_t::Emitter,
    )
}

fn memory(levels: bool) -> yaml_fault_t
    ensures { fault_of result ≡ memory_fault (memory_origin levels) }
{
    if levels {
        yaml_memory_fault(yaml_origin_t::Emitter)
    } else {
        yaml_memory_fault(yaml_origin_t::Writer)
    }
}

// The fault of an output that has stopped, by whether memory was refused for the open collections.
fn stopped(status: Status, levels: bool) -> Option<yaml_fault_t>
    ensures { option_map fault_of result ≡ stopped status levels }
{
    match status {
        Status::Going => None,
        Status::Full => Some(plain_fault(
            yaml_error_type_t::YAML_WRITER_ERROR,
            "write error",
            yaml_origin_t::Writer,
        )),
        Status::Deep => Some(emitter_fault("indentation is too deep")),
        Status::Starved => Some(memory(levels)),
    }
}

// The fault of a refused event.
fn refused(place: Expected) -> Option<yaml_fault_t>
    ensures { option_map fault_of result ≡ option_map problem_fault (refused_at place) }
{
    match place {
        Expected::Refused(problem) => Some(emitter_fault(problem_text(problem))),
        _ => None,
    }
}

// Notes the fault of what has stopped the output, or else of a refused event.
// Out of line: it is met once at most, and a fault's room would be set to zero for each event.
#[inline(never)]
pub(crate) fn note_refusal(core: &Core, fault: &mut Option<yaml_fault_t>)
    ensures { option_map fault_of fault.new ≡ refusal_by core.now.place core.now.sink.status
        core.now.starved }
{
    *fault = match core.status() {
        Status::Going => refused(core.place()),
        status => stopped(status, core.is_starved()),
    };
}

// Notes the fault of what was laid out, where there is one and none was noted.
// Inlined: two reads, mostly.
#[inline(always)]
#[tactic(auto, using(crate::proofs::Emitting::unnoted))]
pub(crate) fn note(core: &Core, fault: &mut Option<yaml_fault_t>)
    requires { option_map fault_of fault.old ≡ None }
    ensures { option_map fault_of fault.new ≡ refusal_by core.now.place core.now.sink.status
        core.now.starved }
{
    if !core.is_going() {
        note_refusal(core, fault);
    }
}
