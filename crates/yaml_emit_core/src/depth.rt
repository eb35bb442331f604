//! How deep a collection is.

ghost use Rattle.std.specs.Prelude.{◌≡◌, ◌≢◌, ◌<◌, None, OnOk};
ghost use Rattle.yaml_emit_layout.specs.Layout.{stay, opener, when};
ghost use Rattle.yaml_emit_layout.specs.Nodes.{checked};
ghost use Rattle.yaml_emit_output.specs.Draft.{Lays};
ghost use Rattle.yaml_emit_core.specs.Levels.{phase_of, stepped, opened};

use crate::level::{Level, Levels};
use std::alloc::AllocError;
use yaml_emit_layout::Status;
use yaml_emit_output::Draft;

/// The largest indentation, in columns.
pub const DEEPEST: u64 = 2147483647;

/// What opens a flow collection.
pub fn put_opener(draft: &mut Draft, flow: bool, bracket: u8)
    requires { bracket < 0x80 }
    ensures { Lays draft.old draft.new (when flow (opener bracket)) stay }
{
    if flow {
        draft.put_opener(bracket);
    }
}

/// A collection that is a node opens; one that is too deep is marked, and nothing more is written. Refused only when out of
/// memory.
pub fn open(
    draft: &mut Draft,
    levels: &mut Levels,
    level: Level,
    simple: bool,
) -> Result<(), AllocError>
    requires open { phase_of level.state ≢ None }
    ensures text { Lays draft.old draft.new (checked level.indent) stay }
    ensures cursor { draft.new.output.status ≡ Status.Going → draft.new.output.cursor
        ≡ draft.old.output.cursor }
    ensures state { OnOk result (draft.new.output.status ≡ Status.Going → levels.new
        ≡ opened (stepped levels.old simple) level) }
{
    if DEEPEST < level.indent {
        draft.stop_deep();
        Ok(())
    } else {
        levels.step(simple);
        levels.push(level)
    }
}
