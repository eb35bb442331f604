//! What comes before nodes in their collections.

ghost use Rattle.std.specs.Prelude.{◌≡◌, ◌<◌, ◌≤◌, ◌+◌, ◌^◌, true};
ghost use Rattle.yaml_emit_layout.specs.Layout.{stay, is_past};
ghost use Rattle.yaml_emit_layout.specs.State.{before_node};
ghost use Rattle.yaml_emit_output.specs.Draft.{Lays};
ghost use Rattle.yaml_emit_core.specs.Levels.{level_of, is_entry};
ghost use Rattle.yaml_emit_core.specs.Pages.{IsOf, entry, behind_comma, mark_of};

use crate::level::{Level, State};
use yaml_emit_layout::Settings;
use yaml_emit_output::Draft;

// Whether the column is past the width, after a comma where one is due.
fn is_past(draft: &Draft, comma: bool) -> bool
    ensures { result ≡ is_past draft.now.width (behind_comma comma draft.now.output.cursor) }
{
    if comma {
        draft.left() == 0
    } else {
        draft.is_past()
    }
}

// An entry of a flow collection: a comma where one is due, in canonical form and past the width a line, and a character, of which 0 is
// none.
fn put_entry(draft: &mut Draft, settings: &Settings, comma: bool, indent: u64, mark: u8)
    requires on { IsOf settings.now draft.old }
    requires indent { indent < 2 ^ 32 }
    requires mark { mark < 0x80 }
    ensures { Lays draft.old draft.new (entry settings.now comma indent mark) stay }
{
    if settings.canonical {
        draft.put_line(comma, indent as usize, mark, false);
    } else if is_past(draft, comma) {
        draft.put_line(comma, indent as usize, mark, false);
    } else {
        draft.put_inline(comma, mark);
    }
}

// The character before an entry, of which 0 is none: in block collections `-` too.
fn mark_of(state: State, flow: bool, simple: bool) -> u8
    ensures mark { result ≡ mark_of state flow simple }
    ensures ascii { result < 0x80 }
{
    match state {
        State::FirstItem | State::Item => if flow { 0 } else { b'-' },
        State::FirstKey | State::Key => if simple { 0 } else { b'?' },
        State::Value => b':',
        _ => 0,
    }
}

// The same for an entry of any collection.
fn put_lead(draft: &mut Draft, settings: &Settings, level: &Level, simple: bool)
    requires on { IsOf settings.now draft.old }
    requires narrow { level.now.indent < 2 ^ 31 }
    requires entry { is_entry level.now.state ≡ true }
    ensures { Lays draft.old draft.new (before_node settings.now (level_of level.now) simple) stay }
{
    let mark = mark_of(level.state, level.flow, simple);
    if level.flow {
        put_entry(
            draft,
            settings,
            level.state.is_further(),
            level.indent,
            mark,
        );
    } else {
        draft.put_line(false, level.indent as usize, mark, true);
    }
}

/// What comes before a node in its collection, by whether the node is a simple key.
// Inlined: the node's level stays in registers.
#[inline(always)]
pub fn put_before(draft: &mut Draft, settings: &Settings, level: &Level, simple: bool)
    requires on { IsOf settings.now draft.old }
    requires narrow { level.now.indent < 2 ^ 31 }
    ensures { Lays draft.old draft.new (before_node settings.now (level_of level.now) simple) stay }
{
    if level.state.is_entry() {
        put_lead(draft, settings, level, simple);
    } else if level.state.is_behind_simple() {
        draft.put_text(b":");
    }
}
