//! Scalars in their style.

ghost use Rattle.std.specs.Str.{chars};
ghost use Rattle.yaml_emit_layout.specs.Layout.{stay};
ghost use Rattle.yaml_emit_layout.specs.Scalars.{block, scalar_text};
ghost use Rattle.yaml_emit_output.specs.Draft.{Lays};
ghost use Rattle.yaml_emit_scalars.specs.On.{IsOn};

use crate::block::put_block;
use crate::flow::{put_plain, put_single_quoted};
use crate::quoted::put_double_quoted;
use yaml_emit_layout::{Page, Style};
use yaml_emit_output::Draft;

/// How a scalar is written, inside a flow collection or not. The digit is the indent's, for block scalars.
#[derive(Clone, Copy)]
pub struct Manner {
    pub style: Style,
    pub flow: bool,
    pub digit: u64,
    /// `!` comes before it.
    pub marked: bool,
}

/// A scalar in its style, without `!` before it.
#[tactic(auto, unfolding(yaml_emit_layout::specs::Scalars::scalar_text))]
pub fn put_scalar(draft: &mut Draft, page: Page, manner: Manner, value: &str)
    requires { IsOn page draft.old }
    ensures { Lays draft.old draft.new
        (scalar_text page manner.digit manner.flow manner.style (chars value.now)) stay }
{
    match manner.style {
        Style::Plain => put_plain(draft, page, manner.flow, value),
        Style::Single => put_single_quoted(draft, page, value),
        Style::Double => put_double_quoted(draft, page, value),
        Style::Literal => put_block(draft, page, manner.digit, false, value),
        Style::Folded => put_block(draft, page, manner.digit, true, value),
    }
}
