//! Plain scalars.

ghost use Rattle.std.specs.Prelude.{◌≡◌, ◌<◌, ◌≤◌, ◌+◌, ◌-◌, ◌++◌, ◌&&◌, ◌||◌, ◌==◌, nat_lt, Bool, ℕ, true, false, length, slice_range, OnOk, if◌then◌else◌};
ghost use Rattle.yaml_scan_types.specs.Ascii as ascii;
ghost use Rattle.yaml_scan_types.specs.Marks.{byte, break_width, is_blank, is_blank_or_end};
ghost use Rattle.yaml_scan_history.specs.Plain as plain;
ghost use Rattle.yaml_scan_text.specs.Lines.{InHead, IsSpelled};
ghost use Rattle.yaml_scan_text.specs.Refused.{Keeps};
ghost use Rattle.yaml_scan_text.specs.PlainRead as spec;
ghost use Rattle.yaml_scan_runs.specs.Runs.{IsNarrow, RunsTo};

use crate::class::is_bracket;
use crate::fold::{Head, is_marked, take_line};
use crate::refusal::{Refusal, Wrong, wrong_at};
use crate::text::{
    break_width, byte, is_bad_tab, is_blank, is_blank_or_end, skip_blanks, skip_spaces, trim_blanks,
};
use yaml_scan_model::{Context, Problem};
use yaml_scan_runs::{BLOCK, FLOW, Run, run_to};

/// The part of a plain scalar on a line: where it ends, where the blanks after it end, whether characters beyond
/// ASCII are among it, and whether a `:` is after it as a mapping has it.
#[derive(Clone, Copy, Drop)]
pub struct PlainLine {
    pub end: usize,
    pub next: usize,
    pub wide: bool,
    pub colon: bool,
}

/// A plain scalar: where it ends, where the white after it ends and that line starts, whether a break is among the white, whether
/// characters beyond ASCII are in that line, and whether its value was joined.
#[derive(Clone, Copy, Drop)]
pub struct PlainScalar {
    pub end: usize,
    pub place: usize,
    pub line: usize,
    pub broke: bool,
    pub wide: bool,
    pub joined: bool,
}

/// What part of a plain scalar is on the line whose first character is there.
// Inlined with its runs: most scalars end here.
#[inline(always)]
pub fn plain_line(text: &[u8], first: usize, flow: bool) -> PlainLine
    requires { spec.IsWord text.now first }
    ensures line { spec.IsPlainLine flow text.now first result }
    ensures one { break_width text.now result.next ≡ 0 → (level : ℕ)
        → plain.plain_at flow level text.now first ≡ spec.one_line flow text.now first result }
{
    let from = first + 1;
    let mut at = from;
    let mut wide = false;
    'pieces: loop {
        let part = plain_run(text, at, flow);
        at = part.end;
        wide = wide | part.wide;
        let colon = is_colon(text, at);
        if colon || stops(text, at, flow) {
            return PlainLine {
                end: trim_blanks(text, from, at),
                next: at,
                wide,
                colon,
            };
        }
        wide = wide | (text[at] >= 128);
        at += 1;
    }
}

/// The bytes there that a plain scalar holds, whatever follows: blanks are among them.
// In line: called for each part of a scalar, with its kind known.
#[inline(always)]
fn plain_run(text: &[u8], from: usize, flow: bool) -> Run
    requires { from ≤ length text.now }
    ensures run { RunsTo (spec.may_stop flow) text.now from (length text.now) result.end }
    ensures narrow { result.wide ≡ false → IsNarrow text.now from result.end }
{
    if flow {
        run_to(text, from, text.len(), &FLOW)
    } else {
        run_to(text, from, text.len(), &BLOCK)
    }
}

/// Whether a `:` is there as a mapping has it.
// In line: asked after each run.
#[inline(always)]
fn is_colon(text: &[u8], at: usize) -> bool
    ensures { result ≡ spec.is_colon text.now at }
{
    byte(text, at) == b':' && is_blank_or_end(text, at + 1)
}

/// Whether the part of a plain scalar on a line ends there, `:` as a mapping has it aside: at a break or the end, a `#` after a blank,
/// or in brackets a bracket or a `:` before such a one.
// In line: asked after each run.
#[inline(always)]
#[tactic(auto, unfolding(yaml_scan_types::specs::Marks::break_of, yaml_scan_history::specs::Plain::is_bracket))]
fn stops(text: &[u8], at: usize, flow: bool) -> bool
    requires { (0 < at) × (at ≤ length text.now) }
    ensures { result ≡ spec.stops flow (is_blank (byte text.now (at - 1))) text.now at }
{
    match byte(text, at) {
        0 | b'\n' | b'\r' => true,
        0xC2 | 0xE2 => break_width(text, at) > 0,
        b'#' => is_blank(text[at - 1]),
        b':' => is_bad_colon(text, at, flow),
        first => flow && is_bracket(first),
    }
}

/// Whether in brackets a `:` is there before a bracket or a `?`.
// In line: asked after each run.
#[inline(always)]
pub fn is_bad_colon(text: &[u8], at: usize, flow: bool) -> bool
    ensures { result ≡ spec.is_bad_colon flow text.now at }
{
    flow && byte(text, at) == b':' && (is_bracket(byte(text, at + 1)) || byte(text, at + 1) == b'?')
}

/// The place after the breaks that are there, with the blanks of the lines after them, and where the last line starts.
// In line: one caller for each line.
#[inline(always)]
fn pass_breaks(text: &[u8], from: usize, margin: usize) -> Result<Head, Wrong>
    requires text { IsSpelled text.now }
    requires broke { 0 < break_width text.now from }
    ensures { spec.PassesBreaks margin text.now from result }
{
    let mut line = from + break_width(text, from);
    'lines: loop {
        let at = pass_indent(text, line, margin)?;
        let width = break_width(text, at);
        if width == 0 {
            return Ok(Head { at, line });
        }
        line = at + width;
    }
}

/// The place after the blanks of the line that starts there, in which no tab may be left of the margin.
fn pass_indent(text: &[u8], line: usize, margin: usize) -> Result<usize, Wrong>
    ensures { spec.PassesIndent margin text.now line result }
{
    let at = skip_spaces(text, line);
    if is_bad_tab(text, at, line, margin) {
        return Err(wrong_at(Problem::TabInIndentation, Context::PlainScalar, at));
    }
    Ok(skip_blanks(text, at))
}

/// Whether a plain scalar ends before what is after such white.
// In line: asked after each line.
#[inline(always)]
fn ends_behind(text: &[u8], head: Head, flow: bool, margin: usize) -> bool
    requires { InHead text.now head.line head.at }
    ensures { result ≡ plain.ends_at flow margin text.now head.at }
{
    if begins_nothing(text, head.at) {
        return true;
    }
    if is_marked(text, head) {
        return true;
    }
    is_apart(text, head, flow, margin)
}

/// Whether the end, a comment or a `:` as a mapping has it is there.
fn begins_nothing(text: &[u8], at: usize) -> bool
    ensures { result ≡ (byte text.now at == 0 || (byte text.now at == ascii.hash
        || spec.is_colon text.now at)) }
{
    byte(text, at) == 0 || byte(text, at) == b'#' || is_colon(text, at)
}

/// Whether what is after such white is no part of a plain scalar: in brackets a bracket, else what is left of the margin.
fn is_apart(text: &[u8], head: Head, flow: bool, margin: usize) -> bool
    requires { head.line ≤ head.at }
    ensures { result ≡ (if flow then plain.is_bracket (byte text.now head.at)
        else nat_lt (head.at - head.line) margin) }
{
    if flow {
        return is_bracket(byte(text, head.at));
    }
    head.at - head.line < margin
}

/// The plain scalar that starts there, where such a part of it is on the first line, and a break after. Its value is a part of
/// the text, where the scalar ends on that line, else joined from its lines.
// In line: mostly the scalar ends there.
#[inline(always)]
pub fn plain_lines(
    arena: &mut Vec<u8>,
    text: &[u8],
    start: usize,
    first: PlainLine,
    flow: bool,
    margin: usize,
) -> Result<PlainScalar, Refusal>
    requires text { IsSpelled text.now }
    requires start { start < length text.now }
    requires first { spec.IsPlainLine flow text.now start first }
    requires broke { 0 < break_width text.now first.next }
    ensures value { spec.ReadsPlain text.now start arena.old.items arena.new.items result
        (plain.plain_at flow margin text.now start) }
    ensures kept { Keeps arena.old.items arena.new.items }
{
    let head = pass_breaks(text, first.next, margin)?;
    if ends_behind(text, head, flow, margin) {
        return Ok(ended(first.end, head, false));
    }
    join_lines(arena, text, start, first, head, flow, margin)
}

/// The plain scalar that ends there, with such white after it.
fn ended(end: usize, head: Head, joined: bool) -> PlainScalar
    ensures { result ≡ record {
      end = end;
      place = head.at;
      line = head.line;
      broke = true;
      wide = false;
      joined = joined;
    } }
{
    PlainScalar {
        end,
        place: head.at,
        line: head.line,
        broke: true,
        wide: false,
        joined,
    }
}

/// The plain scalar that starts there, and goes on after such a part on the first line and such white after that, joined from its
/// lines.
// Out of line: it is rare, and callers stay small.
#[inline(never)]
fn join_lines(
    arena: &mut Vec<u8>,
    text: &[u8],
    start: usize,
    first: PlainLine,
    behind: Head,
    flow: bool,
    margin: usize,
) -> Result<PlainScalar, Refusal>
    requires text { IsSpelled text.now }
    requires start { start < length text.now }
    requires joins { spec.LineGoesOn flow margin text.now start first behind }
    ensures value { spec.ReadsPlain text.now start arena.old.items arena.new.items result
        (plain.plain_at flow margin text.now start) }
    ensures kept { Keeps arena.old.items arena.new.items }
{
    let mut from = start;
    let mut part = first;
    let mut head = behind;
    'lines: loop {
        if is_bad_colon(text, head.at, flow) {
            return Err(Refusal::Wrong(wrong_at(
                Problem::UnexpectedColon,
                Context::PlainScalar,
                head.at,
            )));
        }
        take_line(arena, text, from, part.end, head.at)?;
        from = head.at;
        part = plain_line(text, from, flow);
        if break_width(text, part.next) == 0 {
            return last_line(arena, text, from, part, head.line, flow);
        }
        let next = pass_breaks(text, part.next, margin)?;
        if ends_behind(text, next, flow, margin) {
            arena.extend_from_slice(&text[from..part.end])?;
            return Ok(ended(part.end, next, true));
        }
        head = next;
    }
}

/// The plain scalar whose last line has such a part, which starts there, and no break after; that line starts there too.
fn last_line(
    arena: &mut Vec<u8>,
    text: &[u8],
    from: usize,
    part: PlainLine,
    line: usize,
    flow: bool,
) -> Result<PlainScalar, Refusal>
    requires order { from ≤ part.end }
    requires inside { part.end ≤ length text.now }
    ensures value { spec.EndsLine flow text.now from part line arena.old.items arena.new.items
        result }
    ensures kept { Keeps arena.old.items arena.new.items }
{
    if is_bad_colon(text, part.next, flow) {
        return Err(Refusal::Wrong(wrong_at(
            Problem::UnexpectedColon,
            Context::PlainScalar,
            part.next,
        )));
    }
    arena.extend_from_slice(&text[from..part.end])?;
    Ok(PlainScalar {
        end: part.end,
        place: part.next,
        line,
        broke: false,
        wide: part.wide,
        joined: true,
    })
}
