//! Whether the keys of a mapping differ by numbers of their texts, as they mostly do: then none is
//! reported.

ghost use Rattle.std.specs.Prelude.{◌≡◌, map, true, OnOk};
ghost use Rattle.std.specs.List.Sorted.{IsStrictlyIncreasing};
ghost use Rattle.yaml_round_documents.specs.Texts.{IfApart, NoneIsTold, key_number};
ghost use Rattle.yaml_round_documents.specs.Telling.{pair_keys};

use crate::shape::{number_of, scalar_text};
use std::alloc::AllocError;
use yaml_parse_model::{yaml_document_get_node, yaml_document_t, yaml_node_pair_t};

// The number of a key's text.
fn key_number(document: &yaml_document_t, key: i32) -> u64
    ensures { result ≡ key_number document.now.nodes key }
{
    match yaml_document_get_node(document, key) {
        None => number_of(b""),
        Some(node) => number_of(scalar_text(&node.body)),
    }
}

// Puts the numbers of keys into a room.
#[tactic(auto, using(crate::proofs::Texts::numbers_next, crate::proofs::Texts::numbers_all))]
fn put_numbers(
    room: &mut Vec<u64>,
    document: &yaml_document_t,
    pairs: &[yaml_node_pair_t],
) -> Result<(), AllocError>
    ensures { OnOk result (room.new.items
        ≡ map (key_number document.now.nodes) (pair_keys pairs.now)) }
{
    room.clear();
    for place in 0..pairs.len() {
        room.push(key_number(document, pairs[place].key))?;
    }
    Ok(())
}

// Whether each number is below the next one.
fn rises(numbers: &[u64]) -> bool
    ensures { result ≡ true → IsStrictlyIncreasing numbers.now }
{
    for at in 1..numbers.len() {
        if numbers[at - 1] >= numbers[at] {
            return false;
        }
    }
    true
}

/// Whether the keys of a mapping have numbers that differ.
pub(crate) fn are_apart(
    room: &mut Vec<u64>,
    document: &yaml_document_t,
    pairs: &[yaml_node_pair_t],
) -> Result<bool, AllocError>
    ensures { IfApart (NoneIsTold document.now.nodes (pair_keys pairs.now)) result }
{
    put_numbers(room, document, pairs)?;
    room.sort_unstable();
    let apart = rises(room);
    Ok(apart)
}
