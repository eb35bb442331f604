//! What C receives.

ghost use Rattle.std.specs.Prelude.{◌≡◌, [], pos, unwrap_or, option_map};
ghost use Rattle.yaml_parse.specs.scan_types.Faults.{fault_of};
ghost use Rattle.yaml_round_answers.specs.Told.{TellsText, TellsFault, TellsMisuse, LineTold, Refuses, RefusesIn, TellsAnswer};

use crate::counting::characters_before;
use crate::number::error_number;
use crate::record::{mark_told, yaml_c_mark};
use std::alloc::Global;
use yaml_round::{yaml_fault_line, yaml_fault_t};

/// An answer: a text, or a fault. `kind` is 0, the number of the fault's kind, or -1 where an argument means nothing.
#[repr(C)]
#[derive(Drop)]
pub struct yaml_c_answer {
    pub kind: i32,
    /// 1 where the text is in pretty form, or where two inputs are the same.
    pub is: i32,
    /// 1 where the fault is the second input's.
    pub second: i32,
    pub value: i32,
    pub offset: u64,
    pub problem_mark: yaml_c_mark,
    pub context_mark: yaml_c_mark,
    /// Of the program's constants, and never freed.
    pub problem: &'static [u8],
    /// Likewise; empty where there is none.
    pub context: &'static [u8],
    /// A block that the caller frees, where it has any byte.
    pub text: &'static [u8],
    /// The fault as a line, which out of memory alone may lack. A block that the caller frees, where it has any byte.
    pub line: &'static [u8],
}

const _: () = prove!(size_of::<yaml_c_answer>() == 152);

/// A list that lives on for C. With no item there is no block.
pub(crate) fn handed_out<'a, X: 'a + Drop>(list: Vec<X>) -> &'a [X]
    ensures { result.now ≡ list.items }
{
    if list.is_empty() {
        return &[];
    }
    list.leak()
}

fn text_told(text: &'static [u8], is: i32) -> yaml_c_answer
    ensures { TellsText text.now is result }
{
    yaml_c_answer {
        kind: 0,
        is,
        second: 0,
        value: 0,
        offset: 0,
        problem_mark: yaml_c_mark::default(),
        context_mark: yaml_c_mark::default(),
        problem: b"",
        context: b"",
        text,
        line: b"",
    }
}

/// An answer with a text, and a number beside it.
pub fn text_answer(text: Vec<u8>, is: i32) -> yaml_c_answer
    ensures { TellsText text.items is result }
{
    text_told(handed_out(text), is)
}

/// An answer that is a number alone.
pub(crate) fn said(is: i32) -> yaml_c_answer
    ensures { TellsText [] is result }
{
    text_told(b"", is)
}

fn context_of(context: Option<&'static str>) -> &'static [u8]
    ensures { result.now ≡ unwrap_or (option_map (λ t. t.now) context.entry) [] }
{
    context.unwrap_or("").as_bytes()
}

// A fault with its line.
fn fault_told(fault: &yaml_fault_t, second: i32, line: &'static [u8]) -> yaml_c_answer
    requires { LineTold (fault_of fault.now) line.now }
    ensures { TellsFault (fault_of fault.now) second result }
{
    yaml_c_answer {
        kind: error_number(fault.kind),
        is: 0,
        second,
        value: fault.value,
        offset: fault.offset,
        problem_mark: mark_told(fault.problem_mark),
        context_mark: mark_told(fault.context_mark),
        problem: fault.problem.as_bytes(),
        context: context_of(fault.context),
        text: b"",
        line,
    }
}

/// An answer that is a fault; `second` says whose. Where its line has no memory, out of memory is
/// the answer instead.
pub(crate) fn refused(alloc: Global, fault: &yaml_fault_t, second: i32) -> yaml_c_answer
    ensures { Refuses (fault_of fault.now) second result }
{
    match yaml_fault_line(alloc, fault) {
        Ok(line) => fault_told(fault, second, handed_out(line)),
        Err(refusal) => fault_told(&refusal, second, b""),
    }
}

/// The answer of a call that gives a text.
pub(crate) fn answer_told(alloc: Global, answer: Result<Vec<u8>, yaml_fault_t>) -> yaml_c_answer
    ensures { TellsAnswer answer result }
{
    match answer {
        Ok(text) => text_answer(text, 0),
        Err(fault) => refused(alloc, &fault, 0),
    }
}

/// An answer that is the fault of a text, with the characters counted before its places.
pub(crate) fn refused_in(alloc: Global, text: &[u8], fault: &yaml_fault_t) -> yaml_c_answer
    ensures { RefusesIn text.now (fault_of fault.now) result }
{
    let mut answer = refused(alloc, fault, 0);
    answer.problem_mark.character = characters_before(text, answer.problem_mark.index);
    answer.context_mark.character = characters_before(text, answer.context_mark.index);
    answer
}

/// The answer where an argument means nothing.
pub(crate) fn misused() -> yaml_c_answer
    ensures { TellsMisuse result }
{
    yaml_c_answer {
        kind: -1,
        problem: b"an argument means nothing",
        ..text_told(b"", 0)
    }
}
