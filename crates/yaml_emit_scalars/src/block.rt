//! Literal and folded scalars (YAML 1.1, 9.2 and 9.3).

ghost use Rattle.std.specs.Prelude.{◌≡◌, ◌+◌, true, false, not, ◌&&◌, ◌||◌, ◌==◌, if◌then◌else◌};
ghost use Rattle.yaml_scan_types.specs.Ascii as ascii;
ghost use Rattle.std.specs.Str.{chars};
ghost use Rattle.yaml_emit_layout.specs.Text.{is_break};
ghost use Rattle.yaml_emit_layout.specs.Layout.{◌▹◌, stay, when, char, break, line, keep};
ghost use Rattle.yaml_emit_layout.specs.Quoted.{first};
ghost use Rattle.yaml_emit_output.specs.Draft.{Lays};
ghost use Rattle.yaml_emit_scalars.specs.On.{IsOn};
ghost use Rattle.yaml_emit_layout.specs.Style.{is_blank};
ghost use Rattle.yaml_emit_layout.specs.Scalars.{behind_breaks, line_blank, block_char, block_body, ends_in_break, chomp, chomp_mark, digit_char, block_header, block};

use crate::flow::{put_breaks, put_char_if, put_cut, put_line_if};
use crate::letters::{first, is_break, split_last};
use crate::run::{Body, last_of, put_run_or};
use yaml_emit_layout::{Chomp, Page};
use yaml_emit_output::{Draft, split_first};

pub(crate) fn is_blank(c: char) -> bool
    ensures { result ≡ is_blank c }
{
    c == ' ' || c == '\t'
}

// The first character after a run of breaks; the end counts as a space.
fn behind_breaks(text: &str) -> char
    ensures { result ≡ behind_breaks (chars text.now) }
{
    let mut left = text;
    while let Some((c, rest)) = split_first(left) {
        if !is_break(c) {
            return c;
        }
        left = rest;
    }
    ' '
}

fn line_blank(blank: bool, before: char, c: char) -> bool
    ensures { result ≡ line_blank blank before c }
{
    if is_break(before) && !is_break(c) {
        is_blank(c)
    } else {
        blank
    }
}

// What is before a character: the last one, and whether its line is blank so far.
#[derive(Clone, Copy)]
struct Behind {
    last: char,
    blank: bool,
}

#[tactic(auto, unfolding(yaml_emit_layout::specs::Scalars::block_char))]
fn put_block_char(draft: &mut Draft, page: Page, folded: bool, behind: Behind, c: char, rest: &str)
    requires { IsOn page draft.old }
    ensures { Lays draft.old draft.new
        (block_char page folded behind.blank behind.last c (chars rest.now)) stay }
{
    let before = behind.last;
    let blank = behind.blank;
    if is_break(c) {
        let starts = folded && c == '\n' && !is_break(before);
        let due = starts && !blank && !is_blank(behind_breaks(rest));
        put_breaks(draft, due, page, c);
    } else {
        put_line_if(draft, is_break(before), page);
        if folded && c == ' ' && !blank && !is_break(before) && first(rest) != ' ' {
            put_cut(draft, page, c);
        } else {
            draft.put_char(c);
        }
    }
}

fn put_block_body(draft: &mut Draft, page: Page, folded: bool, value: &str)
    requires { IsOn page draft.old }
    ensures { Lays draft.old draft.new
        (block_body page folded true ascii.line_feed (chars value.now)) stay }
{
    let mut before = '\n';
    let mut blank = true;
    let mut left = value;
    while let Some((c, rest)) = split_first(left) {
        let behind = Behind {
            last: before,
            blank,
        };
        put_block_char(draft, page, folded, behind, c, rest);
        blank = line_blank(blank, before, c);
        let (last, others) = put_run_or(draft, Body::Open, folded, c, rest);
        before = last;
        left = others;
    }
}

// Whether a text ends in a break; an empty one is taken to.
fn ends_in_break(text: &str) -> bool
    ensures { result ≡ ends_in_break (chars text.now) }
{
    is_break(last_of('\n', text))
}

// By how a value ends.
fn chomp(value: &str) -> Chomp
    ensures { result ≡ chomp true true (chars value.now) }
{
    match split_last(value) {
        None => Chomp::Keep,
        Some((front, c)) => {
            if !is_break(c) {
                Chomp::Strip
            } else if ends_in_break(front) {
                Chomp::Keep
            } else {
                Chomp::Clip
            }
        }
    }
}

fn put_chomp(draft: &mut Draft, chomp: Chomp)
    ensures { Lays draft.old draft.new (chomp_mark chomp) stay }
{
    match chomp {
        Chomp::Strip => put_chomp_indicator(draft, '-', false),
        Chomp::Clip => draft.set_kept(false),
        Chomp::Keep => put_chomp_indicator(draft, '+', true),
    }
}

fn put_chomp_indicator(draft: &mut Draft, indicator: char, kept: bool)
    ensures { Lays draft.old draft.new (char indicator ▹ keep kept) stay }
{
    draft.put_char(indicator);
    draft.set_kept(kept);
}

// An indent of more than one digit means 2.
fn digit_char(digit: u64) -> char
    ensures { result ≡ digit_char digit }
{
    if digit < 10 {
        (48 + digit as u8) as char
    } else {
        '2'
    }
}

fn opening(folded: bool) -> char
    ensures { result ≡ (if folded then ascii.greater else ascii.bar) }
{
    if folded { '>' } else { '|' }
}

fn put_header(draft: &mut Draft, digit: u64, folded: bool, value: &str)
    ensures { Lays draft.old draft.new (block_header digit folded (chars value.now)) stay }
{
    draft.put_gap();
    draft.put_char(opening(folded));
    let c = first(value);
    put_char_if(draft, (c == ' ') | is_break(c), digit_char(digit));
    put_chomp(draft, chomp(value));
}

/// A literal or folded scalar, after a space where one is due: `|` or `>`, the indent's digit where the value begins with
/// a space or a break, `-` where it ends in no break and `+` where it ends in more than one or is one, and its lines, as they are
/// where it is literal. Folded, after the width a space becomes a line, but not in a line that begins with a blank, nor before a
/// space; and lines that begin with no blank are separated by one more break.
pub fn put_block(draft: &mut Draft, page: Page, digit: u64, folded: bool, value: &str)
    requires { IsOn page draft.old }
    ensures { Lays draft.old draft.new (block page digit folded (chars value.now)) stay }
{
    put_header(draft, digit, folded, value);
    draft.put_new_line();
    put_block_body(draft, page, folded, value);
    draft.set_after_block();
}
