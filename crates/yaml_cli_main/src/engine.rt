//! The engine that the program runs.

ghost use Rattle.std.specs.Prelude.{◌≡◌, IfOk, Some, map};
ghost use Rattle.yaml_round.specs.scan_types.Faults.{Answers, load_layers};
ghost use Rattle.yaml_round.specs.round_engine.Answers.{bytes_of};
ghost use Rattle.yaml_round.specs.round_engine.Layers.{reformat_layers};
ghost use Rattle.yaml_round.specs.round_engine.Readable.{IsReadableAnswer};
ghost use Rattle.yaml_cli_main.specs.Asked.{AreAllParted, IsRun, IsSameAnswer, IsDifference, IsParted, IsJudgedBy, IsRepeatedAnswer, cause_told, judge_layers, shown_key, side_told, TellsDifference};

use crate::comment::first_comment;
use crate::differences::shown_differences;
use std::alloc::{AllocError, Global};
use std::io::{Read, Write};
use yaml_cli_program::{
    AllParted, Cause, Compared, Difference, Ended, Engine, INPUT_LIMIT, Judging, Manner, Measure,
    Met, Parted, Question, RepeatedKey, Side, Step, Task, push_step,
};
use yaml_round::{
    yaml_cause_t, yaml_check, yaml_check_keys, yaml_diff, yaml_diff_documents, yaml_difference_t,
    yaml_differences, yaml_encoding_t, yaml_fault_t, yaml_mark_t, yaml_memory_fault,
    yaml_normalize, yaml_origin_t, yaml_reformat, yaml_run, yaml_run_fault_t, yaml_same,
    yaml_same_key_t, yaml_side_t, yaml_std_input_t, yaml_std_output_t, yaml_step_t,
};

/// The engine of `yaml_round`, with the program's limit.
pub struct Rounds;

fn side_of(side: yaml_side_t) -> Side
    ensures { side_told result ≡ side }
{
    match side {
        yaml_side_t::First => Side::First,
        yaml_side_t::Second => Side::Second,
    }
}

fn cause_of(cause: yaml_cause_t) -> Cause
    ensures { cause_told result ≡ Some cause }
{
    match cause {
        yaml_cause_t::OnlyFirst => Cause::OnlyFirst,
        yaml_cause_t::OnlySecond => Cause::OnlySecond,
        yaml_cause_t::Kind => Cause::Kind,
        yaml_cause_t::Directives => Cause::Directives,
        yaml_cause_t::Value => Cause::Value,
        yaml_cause_t::Tag => Cause::Tag,
        yaml_cause_t::Quotes => Cause::Quotes,
        yaml_cause_t::Anchor => Cause::Anchor,
    }
}

fn step_of(step: &yaml_step_t) -> Step<'_> {
    match step {
        yaml_step_t::Item(number) => Step::Item(*number),
        yaml_step_t::Key(pair) => Step::Key(*pair),
        yaml_step_t::Value { key: Some(key), .. } => Step::Named(key.as_slice()),
        yaml_step_t::Value { pair, key: None } => Step::Value(*pair),
    }
}

fn path_of(alloc: Global, difference: &yaml_difference_t) -> Result<String, AllocError> {
    let mut path = String::new(alloc);
    push_step(&mut path, Step::Item(difference.document))?;
    for step in &difference.path {
        push_step(&mut path, step_of(step))?;
    }
    Ok(path)
}

/// The place where two contents part, as it is shown.
pub(crate) fn difference_of(alloc: Global, difference: &yaml_difference_t) -> Difference
    ensures { TellsDifference result difference.now }
{
    Difference {
        path: path_of(alloc, difference).ok(),
        cause: cause_of(difference.cause),
        first: Met {
            start: difference.first_mark,
            end: difference.first_end,
            kind: difference.first_type,
        },
        second: Met {
            start: difference.second_mark,
            end: difference.second_end,
            kind: difference.second_type,
        },
    }
}

// Where they differ, by that measure.
fn found_by(
    alloc: Global,
    by: Measure,
    first: &[u8],
    second: &[u8],
) -> Result<Option<yaml_difference_t>, (yaml_side_t, yaml_fault_t)>
    ensures { IsDifference by.documents by.from first.now second.now result }
{
    if by.documents {
        yaml_diff_documents(alloc, first, by.from, second, by.from)
    } else {
        yaml_diff(alloc, first, by.from, second, by.from)
    }
}

// A key as it is reported.
fn shown_key(key: yaml_same_key_t) -> RepeatedKey
    ensures { result ≡ shown_key key }
{
    RepeatedKey {
        mark: key.mark,
        end_mark: key.end_mark,
        first_mark: key.first_mark,
    }
}

// The keys as they are reported.
fn shown_keys(alloc: Global, keys: &[yaml_same_key_t]) -> Result<Vec<RepeatedKey>, AllocError>
    ensures { IfOk result (λ shown. shown.items ≡ map shown_key keys.now) }
{
    keys.iter().map(|key| shown_key(*key)).collect(alloc)
}

impl Engine for Rounds {
    fn run<R: Read, W: Write>(
        &self,
        alloc: Global,
        task: &Task,
        reader: &mut R,
        writer: &mut W,
    ) -> Ended
        ensures { IsRun task.now (R.remaining reader.old) (W.contents writer.old) result }
    {
        let mut input = yaml_std_input_t::new(reader);
        let mut output = yaml_std_output_t::new(writer);
        yaml_run(
            alloc,
            &mut input,
            &mut output,
            task.command,
            task.manner.from,
            &task.manner.settings,
            INPUT_LIMIT,
        )
    }

    fn normalize(
        &self,
        alloc: Global,
        manner: &Manner,
        input: &[u8],
    ) -> Result<Vec<u8>, yaml_fault_t>
        ensures { Answers reformat_layers bytes_of
            (IsReadableAnswer manner.now.from manner.now.settings input.now) result }
    {
        yaml_normalize(alloc, input, manner.from, &manner.settings)
    }

    fn judge(&self, alloc: Global, judging: &Judging, input: &[u8]) -> Result<bool, yaml_fault_t>
        ensures { Answers (judge_layers judging.now.question) (λ b. b)
            (IsJudgedBy judging.now.question judging.now.manner input.now) result }
    {
        let Manner { from, settings } = judging.manner;
        match judging.question {
            Question::Loads => match yaml_check(alloc, input, from) {
                Ok(()) => Ok(true),
                Err(fault) => Err(fault),
            },
            Question::HasForm => match yaml_reformat(alloc, input, from, &settings) {
                Ok((text, _)) => Ok(text.as_slice() == input),
                Err(fault) => Err(fault),
            },
            Question::IsNormal => match yaml_normalize(alloc, input, from, &settings) {
                Ok(text) => Ok(text.as_slice() == input),
                Err(fault) => Err(fault),
            },
        }
    }

    fn repeated_keys(
        &self,
        alloc: Global,
        from: yaml_encoding_t,
        input: &[u8],
    ) -> Result<Vec<RepeatedKey>, yaml_fault_t>
        ensures { Answers load_layers (λ keys. keys.items) (IsRepeatedAnswer from input.now)
            result }
    {
        match yaml_check_keys(alloc, input, from) {
            Err(fault) => Err(fault),
            Ok(keys) => match shown_keys(alloc, keys.as_slice()) {
                Ok(shown) => Ok(shown),
                Err(_) => Err(yaml_memory_fault(yaml_origin_t::Loader)),
            },
        }
    }

    fn comment(
        &self,
        alloc: Global,
        from: yaml_encoding_t,
        input: &[u8],
    ) -> Result<Option<yaml_mark_t>, yaml_fault_t> {
        first_comment(alloc, from, input)
    }

    fn same(&self, alloc: Global, from: yaml_encoding_t, first: &[u8], second: &[u8]) -> Compared
        ensures { IsSameAnswer from first.now second.now result }
    {
        match yaml_same(alloc, first, from, second, from) {
            Ok(same) => Ok(same),
            Err((side, fault)) => Err((side_of(side), yaml_run_fault_t::Yaml(fault))),
        }
    }

    fn diff(&self, alloc: Global, by: Measure, first: &[u8], second: &[u8]) -> Parted
        ensures { IsParted by first.now second.now result }
    {
        let found = found_by(alloc, by, first, second);
        match found {
            Ok(None) => Ok(None),
            Ok(Some(difference)) => Ok(Some(difference_of(alloc, &difference))),
            Err((side, fault)) => Err((side_of(side), fault)),
        }
    }

    fn differences(&self, alloc: Global, by: Measure, first: &[u8], second: &[u8]) -> AllParted
        ensures { AreAllParted by first.now second.now result }
    {
        let found = yaml_differences(alloc, first, by.from, second, by.from, by.documents);
        match found {
            Ok(differences) => match shown_differences(alloc, &differences) {
                Ok(shown) => Ok(shown),
                Err(_) => Err((Side::First, yaml_memory_fault(yaml_origin_t::Loader))),
            },
            Err((side, fault)) => Err((side_of(side), fault)),
        }
    }
}
