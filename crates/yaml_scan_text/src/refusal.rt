//! Why no lexeme was read.

ghost use Rattle.std.specs.Prelude.{◌≡◌};
ghost use Rattle.yaml_scan_text.specs.Refused.{wrong_of};
ghost use Rattle.yaml_scan_text.specs.declared.refusal.Refusal.TheVariants as refusals;

use std::alloc::{AllocError, AllocFailed};
use yaml_scan_model::{Context, Problem};

/// A problem, what was being read, and the place of the first character that doesn't fit.
#[derive(Clone, Copy, Drop)]
pub struct Wrong {
    pub problem: Problem,
    pub context: Context,
    pub place: usize,
}

/// What is wrong as that is read, at that place.
pub(crate) fn wrong_at(problem: Problem, context: Context, place: usize) -> Wrong
    ensures { wrong_of result ≡ record { problem = problem; context = context; place = place } }
{
    Wrong {
        problem,
        context,
        place,
    }
}

/// What is wrong; or memory ran out.
#[derive(Clone, Copy, Drop)]
pub enum Refusal {
    Memory,
    Wrong(Wrong),
}

impl From<AllocError> for Refusal {
    ghost from_gives = { λ _ e. e ≡ refusals.Memory };

    fn from(_e: AllocError) -> Refusal {
        Refusal::Memory
    }
}

impl<T: Drop> From<AllocFailed<T>> for Refusal {
    ghost from_gives = { λ _ e. e ≡ refusals.Memory };

    fn from(_e: AllocFailed<T>) -> Refusal {
        Refusal::Memory
    }
}

impl From<Wrong> for Refusal {
    ghost from_gives = { λ w e. e ≡ refusals.Wrong w };

    fn from(wrong: Wrong) -> Refusal {
        Refusal::Wrong(wrong)
    }
}
