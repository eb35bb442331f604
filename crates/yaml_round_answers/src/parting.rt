//! Where two inputs differ, as C receives it.

ghost use Rattle.std.specs.Prelude.{◌≡◌};
ghost use Rattle.yaml_round_answers.specs.Numbers.{encoding_meant};
ghost use Rattle.yaml_round_answers.specs.Told.{both};
ghost use Rattle.yaml_round_answers.specs.Parting.{TellsNoPlace, TellsPartingPlace, TellsParting, PartingMeant, Parts, PartsDocuments};

use crate::answer::{misused, refused, said, text_answer, yaml_c_answer};
use crate::path::path_text;
use crate::record::{mark_told, yaml_c_mark};
use crate::settings::both_of;
use std::alloc::Global;
use yaml_parse::{yaml_memory_fault, yaml_origin_t};
use yaml_round::{yaml_diff, yaml_diff_documents, yaml_difference_t, yaml_fault_t, yaml_side_t};

/// What a search for a difference answers: `is` of the answer is 1 where there is none, else 0, and then its text is the path,
/// spelled. The other fields are 0 but where there is a difference.
#[repr(C)]
#[derive(Drop)]
pub struct yaml_c_parting {
    pub answer: yaml_c_answer,
    /// That many documents end before it.
    pub document: u64,
    pub first_kind: i32,
    pub second_kind: i32,
    pub first_mark: yaml_c_mark,
    pub second_mark: yaml_c_mark,
}

const _: () = prove!(size_of::<yaml_c_parting>() == 232);

// An answer without a place beside it.
fn without_place(answer: yaml_c_answer) -> yaml_c_parting
    ensures answer { result.answer ≡ answer }
    ensures nowhere { TellsNoPlace result }
{
    yaml_c_parting {
        answer,
        document: 0,
        first_kind: 0,
        second_kind: 0,
        first_mark: yaml_c_mark::default(),
        second_mark: yaml_c_mark::default(),
    }
}

// A place, with its path.
fn with_place(path: Vec<u8>, difference: &yaml_difference_t) -> yaml_c_parting
    ensures { TellsPartingPlace path.items difference.now result }
{
    yaml_c_parting {
        answer: text_answer(path, 0),
        document: difference.document,
        first_kind: difference.first_type as i32,
        second_kind: difference.second_type as i32,
        first_mark: mark_told(difference.first_mark),
        second_mark: mark_told(difference.second_mark),
    }
}

// What C receives of a search for a difference: out of memory where the path has no room.
fn parting_told(
    alloc: Global,
    parted: &Result<Option<yaml_difference_t>, (yaml_side_t, yaml_fault_t)>,
) -> yaml_c_parting
    ensures { TellsParting parted.now result }
{
    match parted {
        Ok(None) => without_place(said(1)),
        Ok(Some(difference)) => match path_text(alloc, &difference.path) {
            Ok(path) => with_place(path, difference),
            Err(_) => without_place(refused(alloc, &yaml_memory_fault(yaml_origin_t::Parser), 0)),
        },
        Err((yaml_side_t::First, fault)) => without_place(refused(alloc, fault, 0)),
        Err((yaml_side_t::Second, fault)) => without_place(refused(alloc, fault, 1)),
    }
}

/// What a search for a difference of two contents answers, where its numbers mean something.
pub fn parted_by(
    alloc: Global,
    first: &[u8],
    first_from: i32,
    second: &[u8],
    second_from: i32,
) -> yaml_c_parting
    ensures { PartingMeant (both (encoding_meant first_from) (encoding_meant second_from))
        (Parts first.now second.now) result }
{
    match both_of(first_from, second_from) {
        Some((a, b)) => parting_told(alloc, &yaml_diff(alloc, first, a, second, b)),
        None => without_place(misused()),
    }
}

/// What a search for a difference of two inputs' loaded documents answers, where its numbers mean
/// something.
pub fn documents_parted_by(
    alloc: Global,
    first: &[u8],
    first_from: i32,
    second: &[u8],
    second_from: i32,
) -> yaml_c_parting
    ensures { PartingMeant (both (encoding_meant first_from) (encoding_meant second_from))
        (PartsDocuments first.now second.now) result }
{
    match both_of(first_from, second_from) {
        Some((a, b)) => parting_told(alloc, &yaml_diff_documents(alloc, first, a, second, b)),
        None => without_place(misused()),
    }
}
