//! An emitter that continues from another one's checkpoint.

ghost use Rattle.std.specs.Prelude.{◌≡◌, ◌≤◌, ◌<◌, ◌^◌, map, None, IfOk, IfErr};
ghost use Rattle.yaml_emit_machine.specs.scan_types.Faults.{fault_of, memory_fault};
ghost use Rattle.yaml_emit_machine.specs.scan_model.declared.fault.yaml_origin_t.TheVariants as from;
ghost use Rattle.yaml_emit_machine.specs.parse_model.Events.{directive_of};
ghost use Rattle.yaml_emit_machine.specs.emit_layout.State.{top_of};
ghost use Rattle.yaml_emit_machine.specs.emit_core.Levels.{stack};
ghost use Rattle.yaml_emit_machine.specs.Judged.{refused_at};
ghost use Rattle.yaml_emit_machine.specs.Resuming.{resumed, StandsWhere};

use std::alloc::Global;
use yaml_emit_machine::{
    Level, RequestedSettings, directives, outer, resumed, stand, yaml_emitter_stand_t,
    yaml_emitter_t, yaml_fault_t, yaml_memory_fault, yaml_origin_t, yaml_tag_directive_t,
};

/// An emitter that continues from another one's checkpoint: that, the open collections round the innermost one, the outermost
/// first, and the document's directives. Its text is what is written from there on, of at most `limit` bytes. The settings are those
/// that were requested, except the encoding, which is the checkpoint's; no event is held, so those
/// that waited have to be given again. Refused when out of memory, and for no emitter's checkpoint:
/// a collection is open where no node comes, or is indented by more than 2,147,483,647 columns.
pub fn yaml_emitter_resume(
    alloc: Global,
    settings: RequestedSettings,
    limit: u64,
    at: yaml_emitter_stand_t,
    around: Vec<Level>,
    tag_directives: Vec<yaml_tag_directive_t>,
) -> Result<yaml_emitter_t, yaml_fault_t>
    requires column { at.cursor.column < 2 ^ 62 }
    requires limit { limit ≤ 2 ^ 62 }
    requires right { refused_at at.place ≡ None }
    ensures is { IfOk result (λ e. e ≡ resumed settings limit at around.items
        (map directive_of tag_directives.items)) }
    ensures memory { IfErr result (λ f. fault_of f ≡ memory_fault from.Emitter) }
{
    match resumed(alloc, settings, limit, at, around, tag_directives) {
        Ok(emitter) => Ok(emitter),
        Err(_) => Err(yaml_memory_fault(yaml_origin_t::Emitter)),
    }
}

/// An emitter's checkpoint.
pub fn yaml_emitter_stand(emitter: &yaml_emitter_t) -> yaml_emitter_stand_t
    ensures { StandsWhere emitter.now result }
{
    let told = stand(emitter);
    told
}

/// The open collections round the innermost one, the outermost first.
pub fn yaml_emitter_outer(emitter: &yaml_emitter_t) -> &[Level]
    ensures { stack (top_of emitter.now.course.state.levels) result.now
        ≡ emitter.now.course.state.levels }
{
    outer(emitter)
}

/// The directives of the document.
pub fn yaml_emitter_directives(emitter: &yaml_emitter_t) -> &[yaml_tag_directive_t]
    ensures { map directive_of result.now ≡ emitter.now.course.state.directives }
{
    directives(emitter)
}
