//! What the program asks of an engine. It rests on nothing that an engine's contract says, so it is proved before the engine is.

use crate::order::{Judging, Manner, Measure, Task};
use std::alloc::Global;
use std::io::{Read, Write};
use yaml_cli_files::RepeatedKey;
use yaml_round_device::{yaml_form_t, yaml_run_fault_t};
use yaml_scan_types::{yaml_encoding_t, yaml_event_type_t, yaml_fault_t, yaml_mark_t};

/// An input of two.
#[derive(Clone, Copy)]
pub enum Side {
    First,
    Second,
}

/// The form that a run's answer has, if any.
pub type Ended = Result<Option<yaml_form_t>, yaml_run_fault_t>;

/// Whether two inputs have the same content, or the fault of one of them.
pub type Compared = Result<bool, (Side, yaml_run_fault_t)>;

/// An event of an input: where it begins and ends, and of which kind it is.
#[derive(Clone, Copy)]
pub struct Met {
    pub start: yaml_mark_t,
    pub end: yaml_mark_t,
    pub kind: yaml_event_type_t,
}

/// In what two events differ.
#[derive(Clone, Copy)]
pub enum Cause {
    OnlyFirst,
    OnlySecond,
    Kind,
    Directives,
    Value,
    Tag,
    Quotes,
    Anchor,
    KeyOrder,
}

/// A place at which two inputs differ.
#[derive(Drop)]
pub struct Difference {
    /// The path to it, as people are shown it, where there is room for it.
    pub path: Option<String>,
    pub cause: Cause,
    pub first: Met,
    pub second: Met,
}

/// Where two inputs differ, nothing where they don't, or the fault of one of them.
pub type Parted = Result<Option<Difference>, (Side, yaml_fault_t)>;

/// All places where two inputs differ, or the fault of one of them.
pub type AllParted = Result<Vec<Difference>, (Side, yaml_fault_t)>;

/// An engine.
pub trait Engine {
    /// Runs a command over a reader and a writer.
    fn run<R: Read, W: Write>(
        &self,
        alloc: Global,
        task: &Task,
        reader: &mut R,
        writer: &mut W,
    ) -> Ended;

    /// The normal form of an input's text, or its fault.
    fn normalize(
        &self,
        alloc: Global,
        manner: &Manner,
        input: &[u8],
    ) -> Result<Vec<u8>, yaml_fault_t>;

    /// Whether an input is as the question asks, or its fault.
    fn judge(&self, alloc: Global, judging: &Judging, input: &[u8]) -> Result<bool, yaml_fault_t>;

    /// The keys that are in a mapping of an input's documents more than once, in order, or its fault.
    fn repeated_keys(
        &self,
        alloc: Global,
        from: yaml_encoding_t,
        input: &[u8],
    ) -> Result<Vec<RepeatedKey>, yaml_fault_t>;

    /// The place of an input's first comment, where it has one, or its fault.
    fn comment(
        &self,
        alloc: Global,
        from: yaml_encoding_t,
        input: &[u8],
    ) -> Result<Option<yaml_mark_t>, yaml_fault_t>;

    /// Whether two inputs have the same content.
    fn same(&self, alloc: Global, from: yaml_encoding_t, first: &[u8], second: &[u8]) -> Compared;

    /// Where two inputs differ, by that measure.
    fn diff(&self, alloc: Global, by: Measure, first: &[u8], second: &[u8]) -> Parted;

    /// All places where two inputs differ, by that measure.
    fn differences(&self, alloc: Global, by: Measure, first: &[u8], second: &[u8]) -> AllParted;
}
