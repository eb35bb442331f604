//! An emitter that continues from another one's checkpoint.

ghost use Rattle.std.specs.Prelude.{◌≡◌, ◌≤◌, ◌<◌, ◌^◌, map, None, Option, true, IfOk};
ghost use Rattle.std.specs.List.{list_all};
ghost use Rattle.yaml_parse_model.specs.Events.{directive_of};
ghost use Rattle.yaml_emit_layout.specs.State.{top_of};
ghost use Rattle.yaml_emit_core.specs.Levels.{stack};
ghost use Rattle.yaml_emit_machine.specs.Judged.{refused_at};
ghost use Rattle.yaml_emit_machine.specs.Resuming.{resumed, StandsWhere, is_narrow};
ghost use Rattle.yaml_emit_core.specs.Standing.{IsPlaced, IsStand};

use super::yaml_emitter_t;
use crate::held::Held;
use std::alloc::{AllocError, Global};
use yaml_emit_core::{Core, yaml_emitter_stand_t};
use yaml_emit_layout::{Expected, Level, RequestedSettings, settled};
use yaml_scan_model::{yaml_encoding_t, yaml_tag_directive_t};

fn is_narrow(level: Level) -> bool
    ensures { result ≡ is_narrow level }
{
    level.indent <= 2147483647
}

fn are_narrow(levels: &[Level]) -> bool
    ensures { result ≡ list_all is_narrow levels.now }
{
    for i in 0..levels.len() {
        if !is_narrow(levels[i]) {
            return false;
        }
    }
    true
}

// Whether a collection may be open where that is expected.
#[tactic(auto, using(crate::proofs::Stands::node_placed, crate::proofs::Stands::refused_placed))]
fn may_be_open(place: Expected) -> bool
    ensures { result ≡ true → (innermost : Option _) → IsPlaced place innermost }
{
    matches!(place, Expected::Node | Expected::Refused(_))
}

// Whether an emitter may be there.
fn is_stand(stand: &yaml_emitter_stand_t, outer: &[Level]) -> bool
    ensures { result ≡ true → IsStand stand.now outer.now }
{
    match stand.innermost {
        None => true,
        Some(level) => may_be_open(stand.place) & is_narrow(level) & are_narrow(outer),
    }
}

/// An emitter that goes on from there, with no event held, and a text of its own of at most `limit` bytes. Refused when out of memory,
/// and for no emitter's checkpoint: a collection is open where no node comes, or is indented by
/// more than 2,147,483,647 columns.
#[tactic(auto, using(yaml_emit_core::proofs::Fresh::settled_step))]
pub fn resumed(
    alloc: Global,
    requested_settings: RequestedSettings,
    limit: u64,
    stand: yaml_emitter_stand_t,
    outer: Vec<Level>,
    directives: Vec<yaml_tag_directive_t>,
) -> Result<yaml_emitter_t, AllocError>
    requires column { stand.cursor.column < 2 ^ 62 }
    requires limit { limit ≤ 2 ^ 62 }
    requires right { refused_at stand.place ≡ None }
    ensures { IfOk result (λ e. e ≡ resumed requested_settings limit stand outer.items
        (map directive_of directives.items)) }
{
    if !is_stand(&stand, &outer) {
        return Err(AllocError);
    }
    let settings = settled(requested_settings, yaml_encoding_t::YAML_ANY_ENCODING);
    let core = Core::resumed(alloc, settings, limit, stand, outer, directives)?;
    Ok(yaml_emitter_t {
        requested_settings,
        limit,
        alloc,
        core,
        held: Held::nothing(),
        fresh: false,
        opened: false,
        closed: false,
        fault: None,
    })
}

/// Its checkpoint.
pub fn stand(emitter: &yaml_emitter_t) -> yaml_emitter_stand_t
    ensures { StandsWhere emitter.now result }
{
    emitter.core.stand(emitter.held.len())
}

/// The open collections round the innermost one, the outermost first.
pub fn outer(emitter: &yaml_emitter_t) -> &[Level]
    ensures { stack (top_of emitter.now.course.state.levels) result.now
        ≡ emitter.now.course.state.levels }
{
    emitter.core.outer()
}

/// The directives of the document.
pub fn directives(emitter: &yaml_emitter_t) -> &[yaml_tag_directive_t]
    ensures { map directive_of result.now ≡ emitter.now.course.state.directives }
{
    emitter.core.directives()
}
