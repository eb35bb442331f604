//! Where two inputs differ.

ghost use Rattle.std.specs.Prelude.{◌≡◌};
ghost use Rattle.yaml_round_answers.specs.Numbers.{encoding_meant};
ghost use Rattle.yaml_round_answers.specs.Told.{IsExact, both};
ghost use Rattle.yaml_round_answers.specs.Parting.{PartingMeant, Parts, PartsDocuments};

use std::alloc::Global;
use yaml_round_answers::{documents_parted_by, parted_by, yaml_c_parting};

/// Where the contents of two texts differ: the answer of `yaml_diff`.
#[unsafe(no_mangle)]
pub extern "C" fn yaml_c_diff(
    alloc: Global,
    first: &[u8],
    first_from: i32,
    second: &[u8],
    second_from: i32,
    parting: &mut yaml_c_parting,
) -> i32
    ensures told { PartingMeant (both (encoding_meant first_from) (encoding_meant second_from))
        (Parts first.now second.now) parting.new }
    ensures exact { IsExact (both (encoding_meant first_from) (encoding_meant second_from)) result }
    ensures kind { result ≡ parting.new.answer.kind }
{
    *parting = parted_by(alloc, first, first_from, second, second_from);
    parting.answer.kind
}

/// Where the loaded documents of two texts differ: the answer of `yaml_diff_documents`.
#[unsafe(no_mangle)]
pub extern "C" fn yaml_c_diff_documents(
    alloc: Global,
    first: &[u8],
    first_from: i32,
    second: &[u8],
    second_from: i32,
    parting: &mut yaml_c_parting,
) -> i32
    ensures told { PartingMeant (both (encoding_meant first_from) (encoding_meant second_from))
        (PartsDocuments first.now second.now) parting.new }
    ensures exact { IsExact (both (encoding_meant first_from) (encoding_meant second_from)) result }
    ensures kind { result ≡ parting.new.answer.kind }
{
    *parting = documents_parted_by(alloc, first, first_from, second, second_from);
    parting.answer.kind
}
