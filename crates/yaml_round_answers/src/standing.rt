//! An emitter's checkpoint, as C holds it from call to call.

ghost use Rattle.std.specs.Prelude.{◌≡◌, None, Some, map, pos, true, false, is_some, ◌&&◌, nat_lt, ◌^◌, IfOk, IfSome, IsSome};
ghost use Rattle.std.specs.Ordering.{int_eq};
ghost use Rattle.yaml_emit.specs.Judged.{refused_at};
ghost use Rattle.yaml_round_answers.specs.Numbers.{is_set, flag_told};
ghost use Rattle.yaml_round_answers.specs.Records.{part_at, directive_at, all_directives};
ghost use Rattle.yaml_round_answers.specs.Standing.{place_meant, spelling_meant, phase_meant, level_meant, innermost_meant, levels_meant, stand_meant, at_meant, ends_implicitly, place_number, spelling_number, phase_number, level_told, innermost_told, outer_if, IsFew};

use crate::number::{flag, is_set};
use crate::record::{part_at, yaml_c_directive, yaml_c_span};
use std::alloc::{AllocError, Global};
use yaml_emit::{Encoding, Expected, Level, Phase};

/// How an open collection goes on: `state` is libyaml's number of the state in which an emitter waits for what is next in it, 5 to 10
/// in flow style and 11 to 16 in block style, and `indent` its indentation in columns.
#[repr(C)]
#[derive(Clone, Copy, Drop, Default)]
pub struct yaml_c_level {
    pub state: i32,
    pub indent: u64,
}

/// An emitter's checkpoint, except the collections round the innermost one and the document's directives. Flags are off at 0 and on at
/// every other number.
#[repr(C)]
#[derive(Clone, Copy, Drop, Default)]
pub struct yaml_c_place {
    /// What is expected next, by libyaml's numbers: 0 the stream's start, 1 the first document, 2 another one, 3 a node or the end of
    /// the innermost collection, 4 the document's end, 17 nothing.
    pub state: i32,
    /// That of the text, by libyaml's number; 0 where no event was given yet, and then all else counts for nothing.
    pub encoding: i32,
    /// Whether the last document ended implicitly.
    pub implicit: i32,
    /// Whether white space or what opens a flow collection was written last.
    pub white: i32,
    /// Whether the line holds only indentation and block indicators.
    pub bare: i32,
    /// Whether the document's last block scalar keeps its breaks.
    pub kept: i32,
    /// Characters since the last line break.
    pub column: u64,
    /// How many of the events that were given wait for later ones, the last ones: they are to be given again.
    pub waiting: u64,
    /// The innermost open collection; its state is 0 where none is open.
    pub innermost: yaml_c_level,
}

/// An emitter's checkpoint: its place, the collections round the innermost one, the outermost first, and the document's directives with
/// the bytes of their texts. All three lists are the caller's to free, where they have any item.
#[repr(C)]
#[derive(Drop)]
pub struct yaml_c_stand {
    pub place: yaml_c_place,
    pub levels: &'static [yaml_c_level],
    pub directives: &'static [yaml_c_directive],
    pub bytes: &'static [u8],
}

const _: () = prove!(size_of::<yaml_c_level>() == 16);

const _: () = prove!(size_of::<yaml_c_place>() == 56);

const _: () = prove!(size_of::<yaml_c_stand>() == 104);

// A column that is no less than this can't be gone on from.
const COLUMNS: u64 = 4_611_686_018_427_387_904;

/// What is expected next, by its number, and by whether the last document ended implicitly.
#[tactic(auto, unfolding(crate::specs::Standing::place_meant))]
pub(crate) fn place_of(state: i32, implicit: bool) -> Option<Expected>
    ensures is { result ≡ place_meant state implicit }
    ensures right { IfSome result (λ p. refused_at p ≡ None) }
{
    match state {
        0 => Some(Expected::StreamStart),
        1 => Some(Expected::Documents(true, implicit)),
        2 => Some(Expected::Documents(false, implicit)),
        3 => Some(Expected::Node),
        4 => Some(Expected::DocumentEnd),
        17 => Some(Expected::End),
        _ => None,
    }
}

/// The number of what is expected next, where no event was refused.
#[tactic(auto, unfolding(crate::specs::Standing::place_meant))]
pub(crate) fn place_number(place: Expected) -> i32
    ensures is { refused_at place ≡ None → place_meant result (ends_implicitly place) ≡ Some place }
    ensures told { result ≡ place_number place }
{
    match place {
        Expected::StreamStart => 0,
        Expected::Documents(first, _) => { if first { 1 } else { 2 } }
        Expected::Node => 3,
        Expected::DocumentEnd => 4,
        Expected::End => 17,
        Expected::Refused(_) => 0,
    }
}

/// Whether the last document ended implicitly, where another one is expected.
pub(crate) fn ends_implicitly(place: Expected) -> bool
    ensures { result ≡ ends_implicitly place }
{
    match place {
        Expected::Documents(_, implicit) => implicit,
        _ => false,
    }
}

/// The encoding of a text, by its number.
#[tactic(auto, unfolding(crate::specs::Standing::spelling_meant))]
pub(crate) fn spelling_of(encoding: i32) -> Option<Encoding>
    ensures { result ≡ spelling_meant encoding }
{
    match encoding {
        1 => Some(Encoding::Utf8),
        2 => Some(Encoding::Utf16Le),
        3 => Some(Encoding::Utf16Be),
        _ => None,
    }
}

/// The number of an encoding of a text.
#[tactic(auto, unfolding(crate::specs::Standing::spelling_meant, crate::specs::Numbers::is_set))]
pub(crate) fn spelling_number(encoding: Encoding) -> i32
    ensures is { spelling_meant result ≡ Some encoding }
    ensures some { is_set result ≡ true }
    ensures told { result ≡ spelling_number encoding }
{
    match encoding {
        Encoding::Utf8 => 1,
        Encoding::Utf16Le => 2,
        Encoding::Utf16Be => 3,
    }
}

// What is next in a collection, and whether it is in flow style.
#[tactic(auto, unfolding(crate::specs::Standing::phase_meant))]
fn phase_of(state: i32) -> Option<(Phase, bool)>
    ensures { result ≡ phase_meant state }
{
    match state {
        5 => Some((Phase::Items(true), true)),
        6 => Some((Phase::Items(false), true)),
        7 => Some((Phase::Keys(true), true)),
        8 => Some((Phase::Keys(false), true)),
        9 => Some((Phase::Value(true), true)),
        10 => Some((Phase::Value(false), true)),
        11 => Some((Phase::Items(true), false)),
        12 => Some((Phase::Items(false), false)),
        13 => Some((Phase::Keys(true), false)),
        14 => Some((Phase::Keys(false), false)),
        15 => Some((Phase::Value(true), false)),
        16 => Some((Phase::Value(false), false)),
        _ => None,
    }
}

// The number of what is next in a collection.
#[tactic(auto, unfolding(crate::specs::Standing::phase_meant))]
fn number_of(phase: Phase, flow: bool) -> i32
    ensures is { phase_meant result ≡ Some (phase, flow) }
    ensures some { int_eq result (pos 0) ≡ false }
    ensures told { result ≡ phase_number phase flow }
{
    match (phase, flow) {
        (Phase::Items(true), true) => 5,
        (Phase::Items(false), true) => 6,
        (Phase::Keys(true), true) => 7,
        (Phase::Keys(false), true) => 8,
        (Phase::Value(true), true) => 9,
        (Phase::Value(false), true) => 10,
        (Phase::Items(true), false) => 11,
        (Phase::Items(false), false) => 12,
        (Phase::Keys(true), false) => 13,
        (Phase::Keys(false), false) => 14,
        (Phase::Value(true), false) => 15,
        (Phase::Value(false), false) => 16,
    }
}

/// The open collection that a record means.
pub(crate) fn level_of(given: yaml_c_level) -> Option<Level>
    ensures { result ≡ level_meant given }
{
    let (phase, flow) = phase_of(given.state)?;
    Some(Level {
        phase,
        flow,
        indent: given.indent,
    })
}

/// An open collection as C reads it.
pub(crate) fn level_told(level: Level) -> yaml_c_level
    ensures is { level_meant result ≡ Some level }
    ensures some { int_eq result.state (pos 0) ≡ false }
    ensures told { result ≡ level_told level }
{
    yaml_c_level {
        state: number_of(level.phase, level.flow),
        indent: level.indent,
    }
}

// The innermost open collection that a record means, if one is open.
#[tactic(auto, unfolding(crate::specs::Standing::innermost_meant))]
pub(crate) fn innermost_of(given: yaml_c_level) -> Option<Option<Level>>
    ensures { result ≡ innermost_meant given }
{
    if given.state == 0 {
        return Some(None);
    }
    Some(Some(level_of(given)?))
}

// The innermost open collection as C reads it.
#[tactic(auto, unfolding(crate::specs::Standing::innermost_meant))]
pub(crate) fn innermost_told(innermost: Option<Level>) -> yaml_c_level
    ensures is { innermost_meant result ≡ Some innermost }
    ensures told { result ≡ innermost_told innermost }
{
    match innermost {
        Some(level) => level_told(level),
        None => yaml_c_level {
            state: 0,
            indent: 0,
        },
    }
}

/// The open collections round the innermost one, and none where that is none.
pub(crate) fn outer_if(innermost: Option<Level>, outer: &[Level]) -> &[Level]
    ensures { result.now ≡ outer_if innermost outer.now }
{
    match innermost {
        Some(_) => outer,
        None => &[],
    }
}

// Whether each record means an open collection.
fn are_levels(levels: &[yaml_c_level]) -> bool
    ensures { result ≡ is_some (levels_meant levels.now) }
{
    levels.iter().all(|level| level_of(*level).is_some())
}

fn is_within(bytes: &[u8], span: yaml_c_span) -> bool
    ensures { result ≡ is_some (part_at bytes.now span) }
{
    part_at(bytes, span).is_some()
}

// Whether a directive's spans lie within the bytes.
#[tactic(auto, using(crate::proofs::Stands::both_spans))]
fn is_spanned(bytes: &[u8], directive: &yaml_c_directive) -> bool
    ensures { result ≡ is_some (directive_at bytes.now directive.now) }
{
    is_within(bytes, directive.handle) && is_within(bytes, directive.prefix)
}

// Whether those of each do.
fn are_spanned(bytes: &[u8], list: &[yaml_c_directive]) -> bool
    ensures { result ≡ is_some (all_directives bytes.now list.now) }
{
    list.iter().all(|directive| is_spanned(bytes, directive))
}

// Whether the numbers of a place mean something.
fn has_numbers(place: &yaml_c_place) -> bool
    ensures { result ≡ (is_some (spelling_meant place.now.encoding)
        && (is_some (place_meant place.now.state (is_set place.now.implicit))
        && (is_some (innermost_meant place.now.innermost) && nat_lt place.now.column (2 ^ 62)))) }
{
    spelling_of(place.encoding).is_some()
        && (place_of(place.state, is_set(place.implicit)).is_some()
            && (innermost_of(place.innermost).is_some() && place.column < COLUMNS))
}

// Whether the records mean a checkpoint at which events were given.
#[tactic(auto, using(crate::proofs::Stands::at_is))]
fn is_at(stand: &yaml_c_stand) -> bool
    ensures { result ≡ is_some (at_meant stand.now.place stand.now.levels.now
        stand.now.directives.now stand.now.bytes.now) }
{
    has_numbers(&stand.place)
        && (are_levels(stand.levels) && are_spanned(stand.bytes, stand.directives))
}

/// Whether C's records mean a checkpoint. Nothing is copied, so that no refusal of memory hides a
/// number that means nothing.
pub fn is_stand(stand: &yaml_c_stand) -> bool
    ensures { result ≡ is_some (stand_meant stand.now.place stand.now.levels.now
        stand.now.directives.now stand.now.bytes.now) }
{
    if is_set(stand.place.encoding) {
        is_at(stand)
    } else {
        true
    }
}

fn level_in(given: &yaml_c_level) -> Option<Level>
    ensures { IfSome result (λ l. level_meant given.now ≡ Some l) }
{
    level_of(*given)
}

// The open collections that records mean; none where memory was refused.
pub(crate) fn levels_of(alloc: Global, levels: &[yaml_c_level]) -> Option<Vec<Level>>
    ensures { IfSome result (λ v. levels_meant levels.now ≡ Some v.items) }
{
    let mut listed = Vec::new(alloc);
    for level in levels {
        let level = level_in(level)?;
        match listed.push(level) {
            Ok(()) => (),
            Err(_) => return None,
        }
    }
    Some(listed)
}

// Open collections as C reads them.
pub(crate) fn levels_told(alloc: Global, levels: &[Level]) -> Result<Vec<yaml_c_level>, AllocError>
    ensures { IfOk result (λ v. v.items ≡ map level_told levels.now) }
{
    levels.iter().map(|level| level_told(*level)).collect(alloc)
}
