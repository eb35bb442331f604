//! Plain and single quoted scalars (YAML 1.1, 9.1.3 and 9.1.2).

ghost use Rattle.std.specs.Prelude.{◌≡◌, false, not, ◌&&◌, ◌||◌, ◌==◌};
ghost use Rattle.yaml_scan_types.specs.Ascii as ascii;
ghost use Rattle.std.specs.Str.{chars};
ghost use Rattle.yaml_emit_layout.specs.Text.{is_break};
ghost use Rattle.yaml_emit_layout.specs.Layout.{◌▹◌, stay, when, char, break, new_line, gap, line, is_past};
ghost use Rattle.yaml_emit_layout.specs.Quoted.{first, is_empty};
ghost use Rattle.yaml_emit_layout.specs.Scalars.{value_break, cut, quote_char, flow_char, flow_body, plain, single_quoted};
ghost use Rattle.yaml_emit_output.specs.Draft.{Lays};
ghost use Rattle.yaml_emit_scalars.specs.On.{IsOn};

use crate::letters::{first, is_break, is_empty};
use crate::run::{flow_in, put_run, put_run_or};
use yaml_emit_layout::Page;
use yaml_emit_output::{Draft, split_first};

pub(crate) fn put_line_if(draft: &mut Draft, due: bool, page: Page)
    requires { IsOn page draft.old }
    ensures { Lays draft.old draft.new (when due (line page.line_break page.indentation)) stay }
{
    if due {
        draft.put_line(false, page.indentation as usize, 0, false);
    }
}

fn put_new_line_if(draft: &mut Draft, due: bool)
    ensures { Lays draft.old draft.new (when due (new_line draft.old.line_break)) stay }
{
    if due {
        draft.put_new_line();
    }
}

// A space that may be cut.
pub(crate) fn put_cut(draft: &mut Draft, page: Page, c: char)
    requires { IsOn page draft.old }
    ensures { Lays draft.old draft.new (cut page c) stay }
{
    if draft.is_past() {
        draft.put_line(false, page.indentation as usize, 0, false);
    } else {
        draft.put_char(c);
    }
}

// A break of a value, LF as the break that is set and the others as they are.
fn put_value_break(draft: &mut Draft, c: char)
    ensures { Lays draft.old draft.new (value_break draft.old.line_break c) stay }
{
    if c == '\n' {
        draft.put_new_line();
    } else {
        draft.put_break(c);
    }
}

// A break of a value, after a new line where one is due.
pub(crate) fn put_breaks(draft: &mut Draft, due: bool, page: Page, c: char)
    requires { IsOn page draft.old }
    ensures { Lays draft.old draft.new
        (when due (new_line page.line_break) ▹ value_break page.line_break c) stay }
{
    put_new_line_if(draft, due);
    put_value_break(draft, c);
}

pub(crate) fn put_char_if(draft: &mut Draft, due: bool, c: char)
    ensures { Lays draft.old draft.new (when due (char c)) stay }
{
    if due {
        draft.put_char(c);
    }
}

// In single quotes `'` is doubled.
fn put_quote_char(draft: &mut Draft, quote: bool, c: char)
    ensures { Lays draft.old draft.new (quote_char quote c) stay }
{
    put_char_if(draft, quote & (c == '\''), '\'');
    draft.put_char(c);
}

#[tactic(auto, unfolding(yaml_emit_layout::specs::Scalars::flow_char))]
fn put_flow_char(draft: &mut Draft, page: Page, quote: bool, before: char, c: char, rest: &str)
    requires { IsOn page draft.old }
    ensures { Lays draft.old draft.new (flow_char page quote before c (chars rest.now)) stay }
{
    if is_break(c) {
        put_breaks(draft, c == '\n' && !is_break(before), page, c);
    } else {
        put_line_if(draft, is_break(before), page);
        if page.cuts && c == ' ' && before != ' ' && first(rest) != ' ' && !is_empty(rest) {
            put_cut(draft, page, c);
        } else {
            put_quote_char(draft, quote, c);
        }
    }
}

fn put_flow_body(draft: &mut Draft, page: Page, quote: bool, value: &str)
    requires { IsOn page draft.old }
    ensures { Lays draft.old draft.new (flow_body page quote ascii.space (chars value.now)) stay }
{
    let body = flow_in(quote);
    let (mut last, mut left) = put_run(draft, body, page.cuts, ' ', value);
    while let Some((c, rest)) = split_first(left) {
        put_flow_char(draft, page, quote, last, c, rest);
        let (latest, behind) = put_run_or(draft, body, page.cuts, c, rest);
        last = latest;
        left = behind;
    }
    put_line_if(draft, is_break(last), page);
}

fn put_gap_if(draft: &mut Draft, due: bool)
    ensures { Lays draft.old draft.new (when due gap) stay }
{
    if due {
        draft.put_gap();
    }
}

/// A plain scalar, after a space where one is due. After the width a space becomes a line of the page's indentation,
/// unless the scalar is a simple key, a space is beside it, or it is first or last. Outside flow collections an empty one is
/// nothing, not even a space.
pub fn put_plain(draft: &mut Draft, page: Page, flow: bool, value: &str)
    requires { IsOn page draft.old }
    ensures { Lays draft.old draft.new (plain page flow (chars value.now)) stay }
{
    put_gap_if(draft, flow | !is_empty(value));
    put_flow_body(draft, page, false, value);
    draft.set_after_text();
}

/// A single quoted scalar, after a space where one is due. `'` is doubled, spaces are cut as in plain scalars, and a
/// run of breaks that begins with a line feed gets one break more before it.
pub fn put_single_quoted(draft: &mut Draft, page: Page, value: &str)
    requires { IsOn page draft.old }
    ensures { Lays draft.old draft.new (single_quoted page (chars value.now)) stay }
{
    draft.put_gap();
    draft.put_char('\'');
    put_flow_body(draft, page, true, value);
    draft.put_char('\'');
}
