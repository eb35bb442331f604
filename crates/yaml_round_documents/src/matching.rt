//! Keys of two collections, matched by their labels.

ghost use Rattle.std.specs.Prelude.{◌≡◌, [], map, IfOk, OnOk};
ghost use Rattle.std.specs.FinMap as finite;
ghost use Rattle.yaml_round_documents.specs.Shapes.{list_of};
ghost use Rattle.yaml_round_documents.specs.Matching.{ArePlaces, Counts, in_order, matched, name_of, numbered, order_after, places_in, put_first};

use crate::shape::narrowed;
use crate::shapes::{Name, ShapeTable};
use std::alloc::{AllocError, Global};

/// A label, with how often it is before it.
#[derive(Clone, Copy)]
pub struct Numbered {
    label: u32,
    number: u32,
}

// A label with its number as a name.
fn name_of(alloc: Global, name: Numbered) -> Name
    ensures { list_of result ≡ name_of name }
{
    (u64::from(name.label), name.number, Vec::new(alloc))
}

// How often a label was counted; it is counted once more.
fn count(alloc: Global, counts: &mut ShapeTable, label: u32) -> Result<u32, AllocError>
    ensures { Counts counts.old label result counts.new }
{
    let name = (u64::from(label), 0, Vec::new(alloc));
    let number = match counts.get(&name) {
        None => 0,
        Some(number) => number,
    };
    if number == u32::MAX {
        return Err(AllocError);
    }
    counts.insert(name, number + 1)?;
    Ok(number)
}

// Each label, with how often it is before it.
#[tactic(auto, using(crate::proofs::Numbering::all_numbered))]
fn number_labels(alloc: Global, labels: &[u32]) -> Result<Vec<Numbered>, AllocError>
    ensures { IfOk result (λ names. map name_of names.items ≡ numbered [] labels.now) }
{
    let mut counts = ShapeTable::new(alloc);
    let mut names = Vec::new(alloc);
    for at in 0..labels.len() {
        let label = labels[at];
        let number = count(alloc, &mut counts, label)?;
        names.push(Numbered { label, number })?;
    }
    Ok(names)
}

// Puts the place of a name, where it has none.
fn put_place(
    alloc: Global,
    places: &mut ShapeTable,
    name: Numbered,
    at: usize,
) -> Result<(), AllocError>
    ensures { OnOk result (places.new
        ≡ put_first (finite.get places.old (name_of name)) places.old (name_of name) at) }
{
    let name = name_of(alloc, name);
    match places.get(&name) {
        Some(_) => Ok(()),
        None => places.insert(name, narrowed(at)?),
    }
}

// The first place of each name.
#[tactic(auto, using(crate::proofs::Placing::none_placed, crate::proofs::Placing::placed_next, crate::proofs::Placing::all_placed))]
fn places_of(alloc: Global, names: &[Numbered]) -> Result<ShapeTable, AllocError>
    ensures { IfOk result (λ places. ArePlaces (map name_of names.now) places) }
{
    let mut places = ShapeTable::new(alloc);
    for at in 0..names.len() {
        put_place(alloc, &mut places, names[at], at)?;
    }
    Ok(places)
}

// The place of each name.
#[tactic(auto, using(crate::proofs::Holding::mapped_next, crate::proofs::Holding::all_mapped))]
fn find_places(
    alloc: Global,
    names: &[Numbered],
    places: &ShapeTable,
) -> Result<Vec<Option<u32>>, AllocError>
    ensures { IfOk result (λ found. found.items
        ≡ map (λ n. finite.get places.now (name_of n)) names.now) }
{
    let mut found = Vec::new(alloc);
    for at in 0..names.len() {
        let place = places.get(&name_of(alloc, names[at]));
        found.push(place)?;
    }
    Ok(found)
}

// Of each name the place among the others.
fn partners_of(
    alloc: Global,
    names: &[Numbered],
    others: &[Numbered],
) -> Result<Vec<Option<u32>>, AllocError>
    ensures { IfOk result (λ found. found.items
        ≡ places_in (map name_of others.now) (map name_of names.now)) }
{
    let places = places_of(alloc, others)?;
    find_places(alloc, names, &places)
}

/// Of each label of one and of the other, the place with which it is matched.
#[derive(Drop)]
pub struct Matched {
    pub partners: Vec<Option<u32>>,
    pub back: Vec<Option<u32>>,
}

/// Matches labels.
#[tactic(auto, using(crate::proofs::Placing::matched_by))]
pub(crate) fn match_labels(
    alloc: Global,
    own: &[u32],
    others: &[u32],
) -> Result<Matched, AllocError>
    ensures partners { IfOk result (λ m. m.partners.items ≡ matched own.now others.now) }
    ensures back { IfOk result (λ m. m.back.items ≡ matched others.now own.now) }
{
    let names = number_labels(alloc, own)?;
    let other_names = number_labels(alloc, others)?;
    let partners = partners_of(alloc, &names, &other_names)?;
    let back = partners_of(alloc, &other_names, &names)?;
    Ok(Matched { partners, back })
}

// The place from which it has to go on; none where that isn't in order.
fn order_after(from: usize, partner: Option<u32>) -> Option<usize>
    ensures { result ≡ order_after from partner }
{
    match partner {
        None => Some(from),
        Some(place) => {
            let place = place as usize;
            if place < from { None } else { Some(place + 1) }
        }
    }
}

/// Whether what is matched is so in order.
#[tactic(auto, using(crate::proofs::Ordering::order_next, crate::proofs::Ordering::order_all, crate::proofs::Ordering::order_lost))]
pub(crate) fn in_order(partners: &[Option<u32>]) -> bool
    ensures { result ≡ in_order 0 partners.now }
{
    let mut from = 0;
    for at in 0..partners.len() {
        match order_after(from, partners[at]) {
            None => return false,
            Some(next) => from = next,
        }
    }
    true
}
