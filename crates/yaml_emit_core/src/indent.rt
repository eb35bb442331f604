//! How deep a collection is indented.

ghost use Rattle.std.specs.Prelude.{◌≡◌, ◌<◌, ◌^◌, Bool, false};
ghost use Rattle.yaml_emit_layout.specs.Nodes.{deeper, indent_of};
ghost use Rattle.yaml_emit_layout.specs.State.{position_of};
ghost use Rattle.yaml_emit_core.specs.Levels.{level_of, IsPlain};

use crate::level::Level;
use yaml_emit_layout::Settings;
use yaml_emit_output::Draft;

/// Whether a node is in a flow collection.
#[tactic(auto, using(crate::proofs::Stacks::flow_is))]
pub fn is_in_flow(level: &Level) -> bool
    requires plain { IsPlain level.now }
    ensures { (simple : Bool) → result ≡ (position_of (level_of level.now) simple).flow }
{
    level.flow
}

/// One indent deeper than the innermost collection.
#[tactic(auto, using(crate::proofs::Stacks::deeper_is))]
pub fn deeper(settings: &Settings, level: &Level) -> u64
    requires step { settings.now.indent < 2 ^ 31 }
    requires narrow { level.now.indent < 2 ^ 31 }
    requires plain { IsPlain level.now }
    ensures value { (simple : Bool) → result ≡ deeper settings.now (position_of
        (level_of level.now) simple).around }
    ensures few { result < 2 ^ 32 }
{
    level.indent + settings.indent
}

// Of a block collection: a sequence that is a key or a value keeps the indentation round it where the line isn't bare.
fn block_indent(draft: &Draft, settings: &Settings, level: &Level, sequence: bool) -> u64
    requires step { settings.now.indent < 2 ^ 31 }
    requires narrow { level.now.indent < 2 ^ 31 }
    ensures value { (simple : Bool) → result
        ≡ indent_of settings.now (position_of
        (level_of level.now) simple) sequence false draft.now.output.cursor }
    ensures few { result < 2 ^ 32 }
{
    if !level.state.is_inside() {
        0
    } else if sequence & (!level.state.is_item() & !draft.is_bare()) {
        level.indent
    } else {
        level.indent + settings.indent
    }
}

/// The indentation of a collection that opens at the cursor.
pub fn indent_of(
    draft: &Draft,
    settings: &Settings,
    level: &Level,
    sequence: bool,
    flow: bool,
) -> u64
    requires step { settings.now.indent < 2 ^ 31 }
    requires narrow { level.now.indent < 2 ^ 31 }
    requires plain { IsPlain level.now }
    ensures value { (simple : Bool) → result
        ≡ indent_of settings.now (position_of
        (level_of level.now) simple) sequence flow draft.now.output.cursor }
    ensures few { result < 2 ^ 32 }
{
    if flow {
        deeper(settings, level)
    } else {
        block_indent(draft, settings, level, sequence)
    }
}
