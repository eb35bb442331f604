//! What an emitter makes of records that continues from another one's checkpoint.

ghost use Rattle.std.specs.Prelude.{◌≡◌, ◌≤◌, ◌<◌, ◌^◌, false, None, Some, option_map, IsSome, IfOk, IfErr, IfSome};
ghost use Rattle.yaml_parse.specs.scan_types.Faults.{fault_of, IsMemoryFault, emit_layers, Answers};
ghost use Rattle.yaml_round_answers.specs.Meaning.{events_meant};
ghost use Rattle.yaml_round_answers.specs.Leading.{requested, all_events};
ghost use Rattle.yaml_round_answers.specs.Standing.{stand_meant, at_meant};
ghost use Rattle.yaml_round_answers.specs.Onward.{most_on, StartsAt, IsStandBy, TellsStandPlace, TellsStand, TellsAt, Means, GoneTold, GoneOn, IsOnwardAt, onward_of};

use crate::answer::handed_out;
use crate::emitter::{Asked, emitter_under, fault_in, give_all, no_memory};
use crate::event::all_directives;
use crate::listing::{Listing, push_directives};
use crate::number::{flag, is_set};
use crate::record::{yaml_c_directive, yaml_c_event};
use crate::standing::{
    ends_implicitly, innermost_of, innermost_told, levels_of, levels_told, outer_if, place_number,
    place_of, spelling_number, spelling_of, yaml_c_place, yaml_c_stand,
};
use std::alloc::{AllocError, Global};
use yaml_emit::{
    Cursor, yaml_emitter_delete, yaml_emitter_directives, yaml_emitter_fresh,
    yaml_emitter_into_output, yaml_emitter_outer, yaml_emitter_resume, yaml_emitter_stand,
    yaml_emitter_stand_t, yaml_emitter_t,
};
use yaml_parse::yaml_fault_t;

/// A text, and where the emitter is after it.
#[derive(Drop)]
pub struct Onward {
    pub text: Vec<u8>,
    pub stand: yaml_c_stand,
}

// No text has more bytes than these: an output that goes on in a line keeps count of its columns.
const MOST: u64 = 4_611_686_018_427_387_904;

fn most_on(limit: u64) -> u64
    ensures is { result ≡ most_on limit }
    ensures most { result ≤ 2 ^ 62 }
{
    if limit <= MOST { limit } else { MOST }
}

// An emitter's checkpoint by its numbers, where these mean something.
fn stand_by(given: &yaml_c_place) -> Option<yaml_emitter_stand_t>
    ensures { IfSome result (IsStandBy given.now) }
{
    let encoding = spelling_of(given.encoding)?;
    let place = place_of(given.state, is_set(given.implicit))?;
    let innermost = innermost_of(given.innermost)?;
    Some(yaml_emitter_stand_t {
        encoding,
        place,
        innermost,
        cursor: Cursor {
            column: given.column,
            white: is_set(given.white),
            bare: is_set(given.bare),
            kept: is_set(given.kept),
        },
        waiting: given.waiting,
    })
}

// An emitter that continues from a checkpoint at which events were given.
fn resumed(
    alloc: Global,
    asked: &Asked,
    limit: u64,
    given: &yaml_c_stand,
) -> Result<yaml_emitter_t, yaml_fault_t>
    requires most { limit ≤ 2 ^ 62 }
    requires few { given.now.place.column < 2 ^ 62 }
    ensures starts { IfOk result (λ e. StartsAt e (requested asked.now) limit
        (option_map Some (at_meant given.now.place given.now.levels.now given.now.directives.now
        given.now.bytes.now))) }
    ensures memory { IfErr result (λ f. IsMemoryFault emit_layers (fault_of f)) }
{
    let Some(stand) = stand_by(&given.place) else {
        return Err(no_memory());
    };
    let Some(levels) = levels_of(alloc, given.levels) else {
        return Err(no_memory());
    };
    let Some(directives) = all_directives(alloc, given.bytes, given.directives) else {
        return Err(no_memory());
    };
    yaml_emitter_resume(alloc, asked.settings, limit, stand, levels, directives)
}

// An emitter that continues from a checkpoint.
fn emitter_from(
    alloc: Global,
    asked: &Asked,
    limit: u64,
    given: &yaml_c_stand,
) -> Result<yaml_emitter_t, yaml_fault_t>
    requires most { limit ≤ 2 ^ 62 }
    requires stand { IsSome (stand_meant given.now.place given.now.levels.now
        given.now.directives.now given.now.bytes.now) }
    ensures starts { IfOk result (λ e. StartsAt e (requested asked.now) limit
        (stand_meant given.now.place given.now.levels.now given.now.directives.now
        given.now.bytes.now)) }
    ensures memory { IfErr result (λ f. IsMemoryFault emit_layers (fault_of f)) }
{
    if is_set(given.place.encoding) {
        resumed(alloc, asked, limit, given)
    } else {
        emitter_under(alloc, asked, limit)
    }
}

// Where an emitter is as C reads it.
fn place_told(stand: yaml_emitter_stand_t) -> yaml_c_place
    ensures { TellsStandPlace stand result }
{
    let implicit = flag(ends_implicitly(stand.place));
    let white = flag(stand.cursor.white);
    let bare = flag(stand.cursor.bare);
    let kept = flag(stand.cursor.kept);
    yaml_c_place {
        state: place_number(stand.place),
        encoding: spelling_number(stand.encoding),
        implicit,
        white,
        bare,
        kept,
        column: stand.cursor.column,
        waiting: stand.waiting,
        innermost: innermost_told(stand.innermost),
    }
}

// The checkpoint of an emitter that was given no event.
fn nowhere() -> yaml_c_stand
    ensures means { Means result None }
    ensures told { TellsAt result None 0 }
{
    yaml_c_stand {
        place: yaml_c_place::default(),
        levels: &[],
        directives: &[],
        bytes: b"",
    }
}

// The checkpoint of an emitter that was given events.
fn somewhere(alloc: Global, emitter: &yaml_emitter_t) -> Result<yaml_c_stand, AllocError>
    requires { emitter.now.fresh ≡ false }
    ensures { IfOk result (TellsStand emitter.now) }
{
    let mut listing = Listing::new(alloc);
    push_directives(&mut listing, yaml_emitter_directives(emitter))?;
    let stand = yaml_emitter_stand(emitter);
    let levels = levels_told(
        alloc,
        outer_if(stand.innermost, yaml_emitter_outer(emitter)),
    )?;
    let place = place_told(stand);
    let Listing {
        events,
        directives,
        bytes,
    } = listing;
    drop(events);
    Ok(yaml_c_stand {
        place,
        levels: handed_out(levels),
        directives: handed_out(directives),
        bytes: handed_out(bytes),
    })
}

// An emitter's checkpoint. Refused only when out of memory.
fn stand_behind(alloc: Global, emitter: &yaml_emitter_t) -> Result<yaml_c_stand, AllocError>
    ensures { IfOk result (TellsStand emitter.now) }
{
    if yaml_emitter_fresh(emitter) {
        Ok(nowhere())
    } else {
        somewhere(alloc, emitter)
    }
}

// An emitter's checkpoint, unless it has a fault.
fn stand_told(alloc: Global, emitter: &yaml_emitter_t) -> Result<yaml_c_stand, yaml_fault_t>
    ensures { GoneTold emitter.now result }
{
    match fault_in(emitter) {
        Some(fault) => Err(fault),
        None => match stand_behind(alloc, emitter) {
            Ok(stand) => Ok(stand),
            Err(_) => Err(no_memory()),
        },
    }
}

// The text, and the emitter's checkpoint; or its fault.
fn finished_on(alloc: Global, emitter: yaml_emitter_t) -> Result<Onward, yaml_fault_t>
    ensures { GoneOn emitter result }
{
    let told = stand_told(alloc, &emitter);
    let text = yaml_emitter_into_output(emitter);
    match told {
        Ok(stand) => Ok(Onward { text, stand }),
        Err(fault) => Err(fault),
    }
}

/// The text that an emitter adds, from another one's checkpoint, for the events that records mean,
/// those that waited there among them, and its own checkpoint then; or its fault.
pub fn emitted_on(
    alloc: Global,
    bytes: &[u8],
    list: &[yaml_c_directive],
    records: &[yaml_c_event],
    asked: &Asked,
    stand: &yaml_c_stand,
) -> Result<Onward, yaml_fault_t>
    requires events { IsSome (events_meant bytes.now list.now records.now) }
    requires stand { IsSome (stand_meant stand.now.place stand.now.levels.now
        stand.now.directives.now stand.now.bytes.now) }
    ensures { Answers emit_layers onward_of (IsOnwardAt (requested asked.now)
        (most_on asked.now.limit)
        (stand_meant stand.now.place stand.now.levels.now stand.now.directives.now
        stand.now.bytes.now) (all_events (events_meant bytes.now list.now records.now))) result }
{
    let limit = most_on(asked.limit);
    let mut emitter = emitter_from(alloc, asked, limit, stand)?;
    match give_all(alloc, bytes, list, records, &mut emitter) {
        Ok(()) => finished_on(alloc, emitter),
        Err(fault) => {
            yaml_emitter_delete(emitter);
            Err(fault)
        }
    }
}
