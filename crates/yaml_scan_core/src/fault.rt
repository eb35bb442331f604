//! Why there is no further lexeme.

ghost use Rattle.std.specs.Prelude.{◌≡◌};
ghost use Rattle.yaml_scan_model.specs.scan_types.Faults.{fault_of};
ghost use Rattle.yaml_scan_model.specs.Problems.{scanner_fault};
ghost use Rattle.yaml_scan_core.specs.Scanning.{fault_in};

use crate::place::Locator;
use std::alloc::{AllocError, AllocFailed};
use yaml_scan_model::{Context, Problem, ScanFault, yaml_fault_t};

/// A problem in its context, by the places of both in the text.
#[derive(Clone, Copy)]
pub struct Fault {
    pub problem: Problem,
    pub context: Context,
    pub start: usize,
    pub at: usize,
}

impl Fault {
    /// The fault as the port's calls answer it, with the marks of both places in the text.
    pub(crate) fn located(self, text: &[u8]) -> yaml_fault_t
        ensures { fault_of result ≡ scanner_fault (fault_in text.now self) }
    {
        let mut locator = Locator::new();
        let context_mark = locator.locate(text, self.start);
        let problem_mark = locator.locate(text, self.at);
        let told = ScanFault {
            problem: self.problem,
            context: self.context,
            context_mark,
            problem_mark,
        };
        told.located()
    }
}

/// There is no further lexeme: the scanner has the fault, or memory ran out.
#[derive(Clone, Copy)]
pub struct Refused;

impl From<AllocError> for Refused {
    fn from(_e: AllocError) -> Refused {
        Refused
    }
}

impl<T: Drop> From<AllocFailed<T>> for Refused {
    fn from(_e: AllocFailed<T>) -> Refused {
        Refused
    }
}
