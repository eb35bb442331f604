//! Lines, and what ends a document.

ghost use Rattle.std.specs.Prelude.{◌≡◌};
ghost use Rattle.yaml_emit_layout.specs.Layout.{stay, when};
ghost use Rattle.yaml_emit_layout.specs.Nodes.{dots, line_at};
ghost use Rattle.yaml_emit_output.specs.Draft.{Lays};
ghost use Rattle.yaml_emit_core.specs.Pages.{IsOf};

use crate::names::put_front;
use yaml_emit_layout::Settings;
use yaml_emit_output::Draft;

/// A line that isn't indented.
pub fn put_line(draft: &mut Draft, settings: &Settings)
    requires { IsOf settings.now draft.old }
    ensures { Lays draft.old draft.new (line_at settings.now 0) stay }
{
    draft.put_line(false, 0, 0, false);
}

/// `...` and a line.
pub fn put_dots(draft: &mut Draft, settings: &Settings)
    requires { IsOf settings.now draft.old }
    ensures { Lays draft.old draft.new (dots settings.now) stay }
{
    put_front(draft, b"...");
    put_line(draft, settings);
}

/// `...` and a line, where it is due.
pub fn put_dots_if(draft: &mut Draft, settings: &Settings, due: bool)
    requires { IsOf settings.now draft.old }
    ensures { Lays draft.old draft.new (when due (dots settings.now)) stay }
{
    if due {
        put_dots(draft, settings);
    }
}
