//! Located faults.

use crate::name::yaml_error_type_t;
use crate::record::yaml_mark_t;

/// The layer that met a fault.
#[derive(Clone, Copy, PartialEq, Eq, Debug)]
pub enum yaml_origin_t {
    Reader,
    Scanner,
    Adapter,
    Parser,
    Loader,
    Emitter,
    Writer,
}

/// Why a call was refused, and where.
#[derive(Clone, Copy, PartialEq, Eq, Debug)]
pub struct yaml_fault_t {
    pub kind: yaml_error_type_t,
    /// What is wrong.
    pub problem: &'static str,
    /// Of a reader's fault, the byte of the input where it is; else 0.
    pub offset: u64,
    /// Of a reader's fault, the byte, unit or character that is wrong, or -1; else 0.
    pub value: i32,
    /// Where the problem is; zero for kinds 1, 2, 6 and 7.
    pub problem_mark: yaml_mark_t,
    /// What was being read, where that is known.
    pub context: Option<&'static str>,
    /// Where what was being read begins.
    pub context_mark: yaml_mark_t,
    /// The layer that met the fault.
    pub origin: yaml_origin_t,
}
