//! Scalars where nodes come.

ghost use Rattle.std.specs.Prelude.{◌≡◌, ◌≢◌, ◌<◌, ◌≤◌, ◌+◌, ◌^◌, ◌∷◌, ◌&&◌, [], ℕ, Bool, List, true, not, nat_le, length};
ghost use Rattle.yaml_scan_types.specs.Ascii as ascii;
ghost use Rattle.yaml_scan_types.specs.Classes.{has_break};
ghost use Rattle.std.specs.Str.{chars};
ghost use Rattle.yaml_emit_layout.specs.declared.Cursor.{Cursor};
ghost use Rattle.yaml_emit_layout.specs.Layout.{Layout, ◌▹◌, stay, when, word};
ghost use Rattle.yaml_emit_layout.specs.Scalars.{scalar_text};
ghost use Rattle.yaml_emit_layout.specs.Content as said;
ghost use Rattle.yaml_emit_layout.specs.Nodes.{MOST, checked, deeper, is_plain, simple_key_bytes};
ghost use Rattle.yaml_parse_model.specs.Events.{TagDirective};
ghost use Rattle.yaml_emit_layout.specs.State.{next, piece, position_of};
ghost use Rattle.yaml_emit_scalars.specs.Classes.{Covers};
ghost use Rattle.yaml_emit_output.specs.Draft.{Lays};
ghost use Rattle.yaml_emit_scalars.specs.On.{IsOn};
ghost use Rattle.yaml_emit_core.specs.Levels.{level_of, is_key, awaits_node, state_at};
ghost use Rattle.yaml_emit_core.specs.Names.{names_size, name_in, IsName};
ghost use Rattle.yaml_emit_core.specs.Pages.{IsOf};
ghost use Rattle.yaml_emit_core.specs.Says.{Says, style_by, is_marked, page_by};

use crate::before::put_before;
use crate::depth::DEEPEST;
use crate::indent::{deeper, is_in_flow};
use crate::level::{Level, Levels, State};
use crate::names::{Properties, are_short, put_properties};
use crate::scalars::{put_sign_if, put_value};
use yaml_emit_layout::{Page, Settings, Style};
use yaml_emit_output::Draft;
use yaml_emit_scalars::{BREAK, Manner, allowed_by, taken};
use yaml_scan_types::{has_break, yaml_scalar_style_t};

/// A scalar: whether it may be untagged where it is plain and where it isn't, the style that is asked for, and classes that its bytes
/// have.
#[derive(Clone, Copy)]
pub struct Scalar<'a> {
    pub properties: Properties<'a>,
    pub value: &'a str,
    pub plain: bool,
    pub quoted: bool,
    pub style: yaml_scalar_style_t,
    pub classes: u16,
}

// Whether the value has a break: mostly its classes show that it has none.
fn is_broken(scalar: &Scalar) -> bool
    requires { Covers scalar.now.classes scalar.now.value.now 0 (length scalar.now.value.now) }
    ensures { result ≡ has_break scalar.now.value.now }
{
    if scalar.classes & BREAK == 0 {
        false
    } else {
        has_break(scalar.value.as_bytes())
    }
}

// Whether it is a simple key: it has no break, and isn't long.
fn is_simple(settings: &Settings, state: State, scalar: &Scalar) -> bool
    requires { Covers scalar.now.classes scalar.now.value.now 0 (length scalar.now.value.now) }
    ensures { result ≡ (is_key state && (not settings.now.canonical
        && (not (has_break scalar.now.value.now)
        && nat_le (names_size scalar.now.properties + length scalar.now.value.now)
        simple_key_bytes))) }
{
    state.awaits_key()
        && !settings.canonical
        && !is_broken(scalar)
        && are_short(&scalar.properties, scalar.value.len())
}

// The style that it is written in: in canonical form all are double quoted.
fn style_of(settings: &Settings, scalar: &Scalar, flow: bool, simple: bool) -> Style
    requires { Covers scalar.now.classes scalar.now.value.now 0 (length scalar.now.value.now) }
    ensures { result ≡ style_by settings.now scalar.now flow simple }
{
    if settings.canonical {
        Style::Double
    } else {
        taken(
            allowed_by(settings.unicode, scalar.value, scalar.classes),
            scalar.style,
            scalar.properties.tag.is_some() | scalar.plain,
            flow,
            simple,
            scalar.value.is_empty(),
        )
    }
}

fn is_plain(style: Style) -> bool
    ensures { result ≡ is_plain style }
{
    matches!(style, Style::Plain)
}

// Whether `!` comes before it: it isn't plain, has no tag, and may not lack one.
fn is_marked(scalar: &Scalar, style: Style) -> bool
    ensures value { result ≡ is_marked scalar.now style }
    ensures plain { result ≡ true → style ≢ Style.Plain }
{
    scalar.properties.tag.is_none() & (!scalar.quoted & !is_plain(style))
}

// What follows anchor and tag, in lines of that indentation. One that is too deep is marked, and nothing more is put.
fn put_inside(draft: &mut Draft, page: Page, manner: Manner, scalar: &Scalar)
    requires on { IsOn page draft.old }
    requires marked { manner.marked ≡ true → manner.style ≢ Style.Plain }
    requires classes { Covers scalar.now.classes scalar.now.value.now 0
        (length scalar.now.value.now) }
    ensures { Lays draft.old draft.new (when manner.marked (word (ascii.exclamation ∷ []))
        ▹ (checked page.indentation ▹ scalar_text page manner.digit manner.flow manner.style
        (chars scalar.now.value.now))) stay }
{
    if DEEPEST < page.indentation {
        put_sign_if(draft, manner.marked);
        draft.stop_deep();
    } else {
        put_value(draft, page, manner, scalar.value, scalar.classes);
    }
}

fn page_of(settings: &Settings, indentation: u64, simple: bool) -> Page
    ensures { result ≡ page_by settings.now indentation simple }
{
    Page {
        width: settings.width,
        indentation,
        unicode: settings.unicode,
        cuts: !simple,
        line_break: settings.line_break,
    }
}

/// A scalar where a node may come: what comes before it, an anchor and a tag, `!` where it is due, and its text in the style that its
/// value allows.
pub fn lay_scalar(draft: &mut Draft, settings: &Settings, levels: &mut Levels, scalar: &Scalar)
    requires on { IsOf settings.now draft.old }
    requires step { settings.now.indent < 2 ^ 31 }
    requires due { awaits_node levels.old.state ≡ true }
    requires name { IsName (name_in scalar.now.properties) }
    requires classes { Covers scalar.now.classes scalar.now.value.now 0
        (length scalar.now.value.now) }
    ensures text { (unended empty : Bool) (directives : List TagDirective) (q : said.Scalar)
        → Says settings.now directives scalar.now q
        → Lays draft.old draft.new (piece settings.now (state_at levels.old unended directives)
        (said.scalar q) empty) stay }
    ensures state { (unended empty : Bool) (directives : List TagDirective) (q : said.Scalar)
        (behind : Cursor)
        → Says settings.now directives scalar.now q → state_at levels.new unended directives
        ≡ next settings.now (state_at levels.old unended directives) (said.scalar q) empty behind }
{
    let level = levels.top();
    let simple = is_simple(settings, level.state, scalar);
    put_before(draft, settings, level, simple);
    put_properties(draft, &scalar.properties);
    let flow = is_in_flow(level);
    let style = style_of(settings, scalar, flow, simple);
    let manner = Manner {
        style,
        flow,
        digit: settings.indent,
        marked: is_marked(scalar, style),
    };
    let page = page_of(settings, deeper(settings, level), simple);
    put_inside(draft, page, manner, scalar);
    levels.step(simple);
}
