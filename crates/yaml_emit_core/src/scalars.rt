//! Scalars, as one word where they are one.

ghost use Rattle.std.specs.Prelude.{◌≡◌, ◌≢◌, ◌≤◌, ◌+◌, ◌∷◌, [], true, length};
ghost use Rattle.yaml_scan_types.specs.Ascii as ascii;
ghost use Rattle.std.specs.Str.{chars};
ghost use Rattle.yaml_emit_layout.specs.Layout.{◌▹◌, stay, when, word};
ghost use Rattle.yaml_emit_layout.specs.Scalars.{scalar_text};
ghost use Rattle.yaml_emit_scalars.specs.Classes.{Covers};
ghost use Rattle.yaml_emit_output.specs.Draft.{Lays};
ghost use Rattle.yaml_emit_scalars.specs.On.{IsOn};

use crate::names::put_front;
use yaml_emit_layout::{Page, Style};
use yaml_emit_output::Draft;
use yaml_emit_scalars::{Manner, put_scalar, put_word};

/// `!` where it is due.
pub fn put_sign_if(draft: &mut Draft, marked: bool)
    ensures { Lays draft.old draft.new (when marked (word (ascii.exclamation ∷ []))) stay }
{
    if marked {
        put_front(draft, b"!");
    }
}

// One that isn't one word.
fn put_long(draft: &mut Draft, page: Page, manner: Manner, value: &str)
    requires { IsOn page draft.old }
    ensures { Lays draft.old draft.new (when manner.marked (word (ascii.exclamation ∷ []))
        ▹ scalar_text page manner.digit manner.flow manner.style (chars value.now)) stay }
{
    put_sign_if(draft, manner.marked);
    put_scalar(draft, page, manner, value);
}

/// A scalar whose bytes have no other classes than these.
pub fn put_value(draft: &mut Draft, page: Page, manner: Manner, value: &str, classes: u16)
    requires on { IsOn page draft.old }
    requires marked { manner.marked ≡ true → manner.style ≢ Style.Plain }
    requires classes { Covers classes value.now 0 (length value.now) }
    ensures { Lays draft.old draft.new (when manner.marked (word (ascii.exclamation ∷ []))
        ▹ scalar_text page manner.digit manner.flow manner.style (chars value.now)) stay }
{
    if !put_word(draft, page, manner, value, classes) {
        put_long(draft, page, manner, value);
    }
}
