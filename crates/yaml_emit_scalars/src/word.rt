//! Scalars that are one word: most are.

ghost use Rattle.std.specs.Prelude.{◌≡◌, ◌≢◌, ◌<◌, ◌≤◌, ◌+◌, ◌-◌, ◌∷◌, [], true, false, length};
ghost use Rattle.yaml_scan_types.specs.Ascii as ascii;
ghost use Rattle.std.specs.Str.{chars};
ghost use Rattle.yaml_emit_layout.specs.Layout.{◌▹◌, stay, when, char, letters, gap, word};
ghost use Rattle.yaml_emit_layout.specs.Scalars.{plain, scalar_text};
ghost use Rattle.yaml_emit_scalars.specs.Classes.{Covers};
ghost use Rattle.yaml_emit_output.specs.Draft.{Lays};
ghost use Rattle.yaml_emit_scalars.specs.On.{IsOn};
ghost use Rattle.yaml_emit_scalars.specs.Runs.{IsRun, is_word, puts_word, quote_of};
ghost use Rattle.yaml_emit_scalars.specs.declared.run.Body.TheVariants.{Open};

use crate::class::SPACE;
use crate::run::{Body, quoted_in, stops_of};
use crate::scalar::Manner;
use yaml_emit_layout::{Page, Style};
use yaml_emit_output::Draft;

// Whether a text is a run: no byte of its classes ends one, and no space in it may be past the width.
fn is_run(draft: &Draft, body: Body, cuts: bool, text: &[u8], classes: u16) -> bool
    requires { Covers classes text.now 0 (length text.now) }
    ensures is { result ≡ is_word body cuts classes (length text.now)
        (draft.now.width - draft.now.output.cursor.column) }
    ensures run { result ≡ true
        → IsRun body cuts draft.now.width draft.now.output.cursor.column text.now }
{
    if classes & stops_of(body) != 0 {
        return false;
    }
    if !cuts {
        return true;
    }
    if classes & SPACE == 0 {
        return true;
    }
    text.len() + 8 <= draft.left()
}

// A plain scalar. An empty one is nothing outside flow collections, not even a space.
fn put_plain_word(draft: &mut Draft, page: Page, flow: bool, value: &str, classes: u16) -> bool
    requires on { IsOn page draft.old }
    requires classes { Covers classes value.now 0 (length value.now) }
    ensures is { result ≡ is_word Open page.cuts classes (length value.now)
        (draft.old.width - draft.old.output.cursor.column) }
    ensures whole { result ≡ true → Lays draft.old draft.new
        (plain page flow (chars value.now)) stay }
    ensures none { result ≡ false → draft.new ≡ draft.old }
{
    let text = value.as_bytes();
    if !is_run(draft, Body::Open, page.cuts, text, classes) {
        return false;
    }
    if flow | !text.is_empty() {
        draft.put_word(false, 0, text, 0);
    } else {
        draft.set_after_text();
    }
    true
}

// The quote on both sides.
fn quote_of(body: Body) -> u8
    ensures quote { result ≡ quote_of body }
    ensures ascii { (0 < result) × (result < 0x80) }
{
    match body {
        Body::Single => b'\'',
        _ => b'"',
    }
}

// A text between quotes, after `!` where it is marked.
fn put_quoted(
    draft: &mut Draft,
    page: Page,
    body: Body,
    marked: bool,
    value: &str,
    classes: u16,
) -> bool
    requires { Covers classes value.now 0 (length value.now) }
    ensures is { result ≡ is_word body page.cuts classes (length value.now)
        (draft.old.width - draft.old.output.cursor.column) }
    ensures run { result ≡ true
        → IsRun body page.cuts draft.old.width draft.old.output.cursor.column value.now }
    ensures whole { result ≡ true → Lays draft.old draft.new
        (when marked (word (ascii.exclamation ∷ []))
        ▹ (gap ▹ (char (quote_of body) ▹ (letters value.now ▹ char (quote_of body))))) stay }
    ensures none { result ≡ false → draft.new ≡ draft.old }
{
    let text = value.as_bytes();
    if !is_run(draft, body, page.cuts, text, classes) {
        return false;
    }
    let quote = quote_of(body);
    draft.put_word(marked, quote, text, quote);
    true
}

/// A scalar in one word, after a space where one is due and `!` where it is marked: where no byte of its classes ends a
/// run and no space in it may be past the width. Else nothing is put.
pub fn put_word(draft: &mut Draft, page: Page, manner: Manner, value: &str, classes: u16) -> bool
    requires on { IsOn page draft.old }
    requires marked { manner.marked ≡ true → manner.style ≢ Style.Plain }
    requires classes { Covers classes value.now 0 (length value.now) }
    ensures is { result ≡ puts_word manner.style page.unicode page.cuts classes
        (length value.now) (draft.old.width - draft.old.output.cursor.column) }
    ensures whole { result ≡ true → Lays draft.old draft.new
        (when manner.marked (word (ascii.exclamation ∷ []))
        ▹ scalar_text page manner.digit manner.flow manner.style (chars value.now)) stay }
    ensures none { result ≡ false → draft.new ≡ draft.old }
{
    match manner.style {
        Style::Plain => put_plain_word(draft, page, manner.flow, value, classes),
        Style::Single => put_quoted(draft, page, Body::Single, manner.marked, value, classes),
        Style::Double => {
            let body = quoted_in(page.unicode);
            put_quoted(draft, page, body, manner.marked, value, classes)
        }
        Style::Literal | Style::Folded => false,
    }
}
