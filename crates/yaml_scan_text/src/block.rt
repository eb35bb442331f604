//! Block scalars.

ghost use Rattle.std.specs.Prelude.{◌≡◌, ◌<◌, ◌≤◌, ◌+◌, ◌-◌, ◌++◌, ◌&&◌, ◌||◌, ◌⊎◌, ◌==◌, ◌^◌, nat_lt, ℕ, suc, true, false, not, length, slice_range, OnOk, if◌then◌else◌};
ghost use Rattle.yaml_scan_types.specs.Ascii as ascii;
ghost use Rattle.yaml_scan_types.specs.Marks.{byte, break_width, column_at, is_blank, splits_break};
ghost use Rattle.yaml_scan_types.specs.Classes.{is_digit_byte};
ghost use Rattle.yaml_scan_model.specs.Breaks.{feed_at, is_feed};
ghost use Rattle.yaml_scan_model.specs.Runs.{line_end};
ghost use Rattle.yaml_scan_history.specs.Header as headers;
ghost use Rattle.yaml_scan_history.specs.Block as blocks;
ghost use Rattle.yaml_scan_history.specs.Lines as lines;
ghost use Rattle.yaml_scan_history.specs.Value.{at_end, between, space_or};
ghost use Rattle.yaml_scan_text.specs.Folds.{feeds};
ghost use Rattle.yaml_scan_text.specs.Lines.{AtLine, line_start};
ghost use Rattle.yaml_scan_text.specs.Refused.{Keeps};
ghost use Rattle.yaml_scan_text.specs.BlockRead as spec;

use crate::fold::push_breaks;
use crate::refusal::{Refusal, Wrong, wrong_at};
use crate::text::{
    break_width, byte, feed, is_bad_tab, is_blank, is_digit, is_text, line_end, skip_blanks,
    skip_spaces,
};
use std::alloc::AllocError;
use yaml_scan_history::Chomp;
use yaml_scan_model::{Context, Problem};

/// What a header says: what happens to the last breaks, and the indentation's digit, or 0; and the place after it, and where its line
/// starts.
#[derive(Clone, Copy)]
pub(crate) struct Header {
    pub chomp: Chomp,
    pub digit: usize,
    pub at: usize,
    pub line: usize,
}

/// The header whose indicator is before that place, in a line that starts there.
fn read_header(text: &[u8], at: usize, line: usize) -> Result<Header, Wrong>
    requires inside { at ≤ length text.now }
    requires whole { splits_break text.now at ≡ false }
    requires line { line ≡ line_start text.now at }
    ensures { spec.ReadsHeader text.now result (headers.header_at text.now at) }
{
    let digit = behind_if(at, is_chomping(byte(text, at)));
    if byte(text, digit) == b'0' {
        return Err(wrong_at(Problem::ZeroIndentation, Context::BlockScalar, digit));
    }
    let end = header_end(text, at);
    if is_text(text, end) {
        return Err(wrong_at(Problem::NoCommentOrBreak, Context::BlockScalar, end));
    }
    let chomp = behind_if(at, is_digit(byte(text, at)));
    Ok(Header {
        chomp: chomp_of(byte(text, chomp)),
        digit: digit_of(byte(text, digit)),
        at: end + break_width(text, end),
        line: line_behind(text, end, line),
    })
}

/// The place, or the one after it.
fn behind_if(at: usize, other: bool) -> usize
    requires { at + 1 < 2 ^ 64 }
    ensures { result ≡ (if other then at + 1 else at) }
{
    if other { at + 1 } else { at }
}

/// `+` or `-`.
#[tactic(auto, unfolding(yaml_scan_history::specs::Header::is_chomping))]
fn is_chomping(byte: u8) -> bool
    ensures { result ≡ headers.is_chomping byte }
{
    byte == b'+' || byte == b'-'
}

#[tactic(auto, unfolding(yaml_scan_history::specs::Header::chomp_of))]
fn chomp_of(byte: u8) -> Chomp
    ensures { result ≡ headers.chomp_of byte }
{
    match byte {
        b'+' => Chomp::Keep,
        b'-' => Chomp::Strip,
        _ => Chomp::Clip,
    }
}

/// The digit's value, or 0.
#[tactic(auto, unfolding(yaml_scan_history::specs::Header::digit_of, yaml_scan_types::specs::Classes::is_digit_byte))]
fn digit_of(byte: u8) -> usize
    ensures value { result ≡ headers.digit_of byte }
    ensures small { result < 10 }
{
    match byte {
        b'0'..=b'9' => (byte - b'0') as usize,
        _ => 0,
    }
}

/// How many of two bytes are a chomping indicator and a digit, in either order.
#[tactic(auto, unfolding(yaml_scan_history::specs::Header::indicators))]
fn indicators(first: u8, second: u8) -> usize
    ensures { result ≡ headers.indicators first second }
{
    if is_chomping(first) {
        if is_digit(second) { 2 } else { 1 }
    } else if is_digit(first) {
        if is_chomping(second) { 2 } else { 1 }
    } else {
        0
    }
}

/// The place after the indicators there, blanks and a comment.
#[tactic(auto, using(crate::proofs::Words::within, crate::proofs::BlockLemmas::few_indicators), unfolding(yaml_scan_history::specs::Header::past_comment))]
fn header_end(text: &[u8], at: usize) -> usize
    requires { at ≤ length text.now }
    ensures { result ≡ headers.header_end text.now at }
{
    let behind = at + indicators(byte(text, at), byte(text, at + 1));
    let end = skip_blanks(text, behind);
    if byte(text, end) == b'#' {
        return line_end(text, end);
    }
    end
}

/// Where the line starts after the break that is there, or else the one that is given.
#[tactic(auto, using(crate::proofs::LinesLemmas::line_next, crate::proofs::TextLemmas::break_inside))]
pub(crate) fn line_behind(text: &[u8], at: usize, line: usize) -> usize
    requires { line ≡ line_start text.now at }
    ensures { result ≡ line_start text.now (at + break_width text.now at) }
{
    let width = break_width(text, at);
    if width > 0 {
        return at + width;
    }
    line
}

/// The column of the text after a header with that digit: that of the digit after the margin, or the greatest one that spaces
/// reach in the blank lines there and in the line after them, at the margin or right of it.
fn text_column(text: &[u8], from: usize, margin: usize, digit: usize) -> Result<usize, Wrong>
    requires margin { margin ≤ length text.now + 1 }
    requires digit { digit < 10 }
    requires first { 0 < byte text.now from → column_at text.now from ≡ 0 }
    ensures { spec.FindsColumn text.now from result (blocks.column_of margin text.now digit from) }
{
    if digit > 0 {
        return Ok(margin.saturating_sub(1) + digit);
    }
    deepest(text, from, margin.max(1))
}

/// The greatest of that column and those that spaces reach in the blank lines there and in the line after them.
fn deepest(text: &[u8], from: usize, least: usize) -> Result<usize, Wrong>
    requires { 0 < byte text.now from → column_at text.now from ≡ 0 }
    ensures { spec.FindsColumn text.now from result (blocks.larger_of least
        (blocks.deepest (suc (length text.now)) text.now from)) }
{
    let mut at = from;
    let mut column = least;
    'lines: loop {
        let end = skip_spaces(text, at);
        if byte(text, end) == b'\t' {
            return Err(wrong_at(Problem::TabForSpace, Context::BlockScalar, end));
        }
        column = column.max(end - at);
        let width = break_width(text, end);
        if width == 0 {
            return Ok(column);
        }
        at = end + width;
    }
}

/// The place after the spaces there, at most that many.
fn past_indent(text: &[u8], from: usize, most: usize) -> usize
    ensures value { result ≡ from + lines.spaces most text.now from }
    ensures spaces { spec.AreSpaces text.now from result }
{
    let end = skip_spaces(text, from);
    from + (end - from).min(most)
}

/// What is after the indentation of a line of a block scalar.
#[derive(Clone, Copy)]
enum Seen {
    /// Its break.
    Empty,
    Text,
    /// What doesn't belong to the scalar.
    Other,
}

/// What is there, in a line that starts at the other place.
fn seen_at(text: &[u8], line: usize, at: usize, column: usize) -> Result<Seen, Wrong>
    requires order { line ≤ at }
    requires column { 0 < byte text.now at → column_at text.now at ≡ at - line }
    ensures { spec.IsSeen text.now at result (lines.spot_behind column text.now at) }
{
    if is_bad_tab(text, at, line, column) {
        return Err(wrong_at(Problem::TabForSpace, Context::BlockScalar, at));
    }
    if break_width(text, at) > 0 {
        return Ok(Seen::Empty);
    }
    if is_other(text, at, line, column) {
        return Ok(Seen::Other);
    }
    Ok(Seen::Text)
}

/// Whether the end is there, or another column than that one is reached.
fn is_other(text: &[u8], at: usize, line: usize, column: usize) -> bool
    requires { line ≤ at }
    ensures { result ≡ (byte text.now at == 0 || not (at - line == column)) }
{
    byte(text, at) == 0 || at - line != column
}

/// The lines of a block scalar up to a place: where the next one starts, or the text ends; where the line starts that the place is
/// in; where the last text ends, or any place with no break where none was; whether that text begins with a blank; and from where on
/// empty lines follow.
#[derive(Clone, Copy)]
pub(crate) struct Stack {
    pub at: usize,
    pub line: usize,
    pub end: usize,
    pub blank: bool,
    pub empties: usize,
}

/// After the break of an empty line.
#[tactic(auto, using(crate::proofs::TextLemmas::break_inside))]
fn behind_empty(text: &[u8], stack: Stack, break_at: usize) -> Stack
    requires { 0 < break_width text.now break_at }
    ensures { result ≡ spec.after_empty text.now stack break_at }
{
    let at = break_at + break_width(text, break_at);
    Stack {
        at,
        line: at,
        ..stack
    }
}

/// After the line whose text starts and ends there.
fn behind_text(text: &[u8], stack: Stack, first: usize, end: usize) -> Stack
    requires { stack.line ≡ line_start text.now end }
    ensures { result ≡ spec.after_text text.now stack first end }
{
    let at = end + break_width(text, end);
    Stack {
        at,
        line: line_behind(text, end, stack.line),
        end,
        blank: is_blank(byte(text, first)),
        empties: at,
    }
}

/// Whether the break that is there reads as a line feed.
#[tactic(auto, using(crate::proofs::BlockLemmas::feed_test))]
fn is_line_feed(text: &[u8], at: usize) -> bool
    ensures { result ≡ is_feed (feed_at text.now at) }
{
    matches!(break_width(text, at), 1 | 2)
}

/// Whether the break between the last text and the one that starts there is folded.
fn joins_text(text: &[u8], stack: Stack, first: usize, folded: bool) -> bool
    ensures { result ≡ (folded && ((not stack.blank && not (is_blank (byte text.now first)))
        && is_feed (feed_at text.now stack.end))) }
{
    folded && !stack.blank && !is_blank(byte(text, first)) && is_line_feed(text, stack.end)
}

/// Appends what is between two texts: the first one's break, unless it is folded, and those of the empty lines between, or a
/// space where the fold leaves nothing.
fn put_between(
    arena: &mut Vec<u8>,
    text: &[u8],
    stack: Stack,
    joins: bool,
) -> Result<(), AllocError>
    requires { stack.at ≤ length text.now }
    ensures value { OnOk result (arena.new.items ≡ arena.old.items
        ++ (if joins then space_or (feeds text.now stack.empties stack.at)
        else feed_at text.now stack.end ++ feeds text.now stack.empties stack.at)) }
    ensures kept { Keeps arena.old.items arena.new.items }
{
    if !joins {
        arena.extend_from_slice(feed(text, stack.end))?;
        return push_breaks(arena, text, stack.empties, stack.at);
    }
    let kept = arena.len();
    push_breaks(arena, text, stack.empties, stack.at)?;
    if arena.len() == kept {
        arena.push(b' ')?;
    }
    Ok(())
}

/// Appends a line's text, which starts and ends there, and what is before it.
#[tactic(auto, unfolding(yaml_scan_history::specs::Value::between))]
fn put_line(
    arena: &mut Vec<u8>,
    text: &[u8],
    stack: Stack,
    first: usize,
    end: usize,
    folded: bool,
) -> Result<(), AllocError>
    requires before { stack.at ≤ first }
    requires order { first ≤ end }
    requires inside { end ≤ length text.now }
    ensures value { OnOk result (arena.new.items ≡ (arena.old.items
        ++ between folded (not stack.blank && not (is_blank (byte text.now first)))
        (feed_at text.now stack.end) (feeds text.now stack.empties stack.at))
        ++ slice_range text.now first end) }
    ensures kept { Keeps arena.old.items arena.new.items }
{
    put_between(arena, text, stack, joins_text(text, stack, first, folded))?;
    arena.extend_from_slice(&text[first..end])?;
    Ok(())
}

/// Appends what stays after the last text: of its break, and of the empty lines.
fn put_end(arena: &mut Vec<u8>, text: &[u8], stack: Stack, chomp: Chomp) -> Result<(), AllocError>
    requires { stack.at ≤ length text.now }
    ensures value { OnOk result (arena.new.items ≡ arena.old.items
        ++ at_end chomp (feed_at text.now stack.end) (feeds text.now stack.empties stack.at)) }
    ensures kept { Keeps arena.old.items arena.new.items }
{
    match chomp {
        Chomp::Strip => Ok(()),
        Chomp::Clip => arena.extend_from_slice(feed(text, stack.end)),
        Chomp::Keep => {
            arena.extend_from_slice(feed(text, stack.end))?;
            push_breaks(arena, text, stack.empties, stack.at)
        }
    }
}

/// A block scalar: where its last line ends, where its lines stop, and where that line starts.
#[derive(Clone, Copy, Drop)]
pub struct BlockScalar {
    pub end: usize,
    pub place: usize,
    pub line: usize,
}

/// The block scalar whose indicator is there, in a line that starts at the other place. Its value is joined from its lines. The
/// margin is the column of the innermost block level and one, or 0.
pub fn block_scalar(
    arena: &mut Vec<u8>,
    text: &[u8],
    start: usize,
    line: usize,
    margin: usize,
) -> Result<BlockScalar, Refusal>
    requires indicator { (byte text.now start ≡ ascii.bar) ⊎ (byte text.now start ≡ ascii.greater) }
    requires whole { splits_break text.now start ≡ false }
    requires line { line ≡ line_start text.now start }
    requires margin { margin ≤ length text.now + 1 }
    ensures value { spec.ReadsBlock text.now arena.old.items arena.new.items result
        (blocks.block_at margin text.now start) }
    ensures kept { Keeps arena.old.items arena.new.items }
{
    let header = read_header(text, start + 1, line)?;
    let column = text_column(text, header.at, margin, header.digit)?;
    block_lines(arena, text, start, header, column)
}

/// The lines after the header of the block scalar whose indicator is there, whose text is at that column.
fn block_lines(
    arena: &mut Vec<u8>,
    text: &[u8],
    start: usize,
    header: Header,
    column: usize,
) -> Result<BlockScalar, Refusal>
    requires start { break_width text.now start ≡ 0 }
    requires seat { AtLine text.now header.line header.at }
    requires first { 0 < byte text.now header.at → column_at text.now header.at ≡ 0 }
    ensures value { spec.ReadsBlock text.now arena.old.items arena.new.items result
        (spec.lines_at (byte text.now start == ascii.greater) header.chomp column text.now
        header.at) }
    ensures kept { Keeps arena.old.items arena.new.items }
{
    let folded = byte(text, start) == b'>';
    let mut stack = Stack {
        at: header.at,
        line: header.line,
        end: start,
        blank: false,
        empties: header.at,
    };
    'lines: loop {
        let first = past_indent(text, stack.at, column);
        match seen_at(text, stack.line, first, column)? {
            Seen::Other => {
                put_end(arena, text, stack, header.chomp)?;
                return Ok(BlockScalar {
                    end: stack.at,
                    place: first,
                    line: stack.line,
                });
            }
            Seen::Empty => stack = behind_empty(text, stack, first),
            Seen::Text => {
                let end = line_end(text, first);
                put_line(arena, text, stack, first, end, folded)?;
                stack = behind_text(text, stack, first, end);
            }
        }
    }
}
