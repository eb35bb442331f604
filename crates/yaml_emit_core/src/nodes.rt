//! Events of nodes.

ghost use Rattle.std.specs.Prelude.{◌≡◌, ◌<◌, ◌^◌, ◌∷◌, ◌&&◌, Bool, List, true, not, nat_le, length, if◌then◌else◌};
ghost use Rattle.std.specs.Str.{IsAscii};
ghost use Rattle.yaml_scan_types.specs.Ascii as ascii;
ghost use Rattle.yaml_emit_layout.specs.declared.Cursor.{Cursor};
ghost use Rattle.yaml_emit_layout.specs.Layout.{◌▹◌, stay, when, char, line, word};
ghost use Rattle.yaml_emit_layout.specs.Content as said;
ghost use Rattle.yaml_emit_layout.specs.Nodes.{simple_key_bytes};
ghost use Rattle.yaml_parse_model.specs.Events.{TagDirective};
ghost use Rattle.yaml_emit_layout.specs.State.{before_node, next, piece};
ghost use Rattle.yaml_emit_output.specs.Draft.{Lays};
ghost use Rattle.yaml_emit_core.specs.Levels.{level_of, awaits_node, may_end, ending, bracket_of, is_further, state_at};
ghost use Rattle.yaml_emit_core.specs.Pages.{IsOf, closer_by};

use crate::before::put_before;
use crate::level::{Level, Levels};
use crate::names::SIMPLE_KEY_BYTES;
use yaml_emit_layout::Settings;
use yaml_emit_output::Draft;

// The space after an alias that is a simple key, or 0.
fn space_behind(simple: bool) -> u8
    ensures mark { result ≡ (if simple then ascii.space else 0) }
    ensures ascii { result < 0x80 }
{
    if simple { b' ' } else { 0 }
}

// What ends a collection: of a flow collection in canonical form a comma in the line before, and the bracket at the indentation round
// it.
fn put_end(draft: &mut Draft, settings: &Settings, level: &Level, bracket: u8)
    requires on { IsOf settings.now draft.old }
    requires narrow { level.now.indent < 2 ^ 31 }
    requires bracket { (0 < bracket) × (bracket < 0x80) }
    ensures { Lays draft.old draft.new (when level.now.flow (closer_by settings.now
        level.now.indent (is_further level.now.state) bracket)) stay }
{
    if level.flow {
        if settings.canonical & level.state.is_further() {
            let indent = level.indent.saturating_sub(settings.indent);
            draft.put_line(true, indent as usize, bracket, false);
        } else {
            draft.put_text(&[bracket]);
        }
    }
}

fn bracket_of(sequence: bool) -> u8
    ensures bracket { result ≡ bracket_of sequence }
    ensures ascii { (0 < result) × (result < 0x80) }
{
    if sequence { b']' } else { b'}' }
}

/// The end of a sequence or a mapping, where it may come.
pub fn lay_end(draft: &mut Draft, settings: &Settings, levels: &mut Levels, sequence: bool)
    requires on { IsOf settings.now draft.old }
    requires due { may_end sequence levels.old.state ≡ true }
    ensures text { (unended empty : Bool) (directives : List TagDirective)
        → Lays draft.old draft.new
        (piece settings.now (state_at levels.old unended directives) (ending sequence) empty) stay }
    ensures state { (unended empty : Bool) (directives : List TagDirective) (behind : Cursor)
        → state_at levels.new unended directives
        ≡ next settings.now (state_at levels.old unended directives)
        (ending sequence) empty behind }
{
    let level = levels.top();
    put_end(draft, settings, level, bracket_of(sequence));
    levels.pop();
}

/// An alias where a node may come, of a name that was judged: a word after `*`, and as a simple key a space after it.
pub fn lay_alias(draft: &mut Draft, settings: &Settings, levels: &mut Levels, name: &[u8])
    requires on { IsOf settings.now draft.old }
    requires due { awaits_node levels.old.state ≡ true }
    requires name { IsAscii name.now }
    ensures text { (unended empty : Bool) (directives : List TagDirective)
        → Lays draft.old draft.new
        (piece settings.now (state_at levels.old unended directives)
        (said.alias name.now) empty) stay }
    ensures state { (unended empty : Bool) (directives : List TagDirective) (behind : Cursor)
        → state_at levels.new unended directives
        ≡ next settings.now (state_at levels.old unended directives)
        (said.alias name.now) empty behind }
{
    let level = levels.top();
    let simple = level.state.awaits_key()
        & (!settings.canonical & (name.len() <= SIMPLE_KEY_BYTES));
    put_before(draft, settings, level, simple);
    draft.put_word(false, b'*', name, space_behind(simple));
    levels.step(simple);
}
