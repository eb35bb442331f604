//! Directives.

ghost use Rattle.std.specs.Prelude.{◌≡◌, ◌<◌, ◌≤◌, ◌+◌, ◌-◌, ◌&&◌, ◌||◌, ◌==◌, false, length};
ghost use Rattle.yaml_scan_types.specs.Ascii as ascii;
ghost use Rattle.yaml_scan_types.specs.Marks.{byte, column_at, splits_break};
ghost use Rattle.yaml_scan_types.specs.Classes.{is_digit_byte};
ghost use Rattle.yaml_scan_history.specs.Directives as directives;
ghost use Rattle.yaml_scan_history.specs.Directives.{name_of};
ghost use Rattle.yaml_scan_text.specs.DirectivesRead as spec;
ghost use Rattle.yaml_scan_text.specs.Lines.{line_start};
ghost use Rattle.yaml_scan_text.specs.Refused.{Keeps};

use crate::block::line_behind;
use crate::class::alphas;
use crate::refusal::{Refusal, Wrong, wrong_at};
use crate::text::{
    break_width, byte, is_blank, is_blank_or_end, is_digit, is_text, line_end, skip_blanks,
};
use crate::uri::some_uri;
use yaml_scan_history::DirectiveName;
use yaml_scan_model::{Context, Problem};

/// A directive's value: whether it is a tag's handle and prefix, or else a version's two numbers; where both parts are; and whether
/// the second one was spelled out.
#[derive(Clone, Copy, Drop)]
pub struct Value {
    pub is_tag: bool,
    pub first: usize,
    pub first_end: usize,
    pub second: usize,
    pub second_end: usize,
    pub joined: bool,
}

/// A directive: its value, and the place after its line, in a line that starts at the other place.
#[derive(Clone, Copy, Drop)]
pub struct Directive {
    pub value: Value,
    pub place: usize,
    pub line: usize,
}

/// The directive whose `%` is there, in a line that starts at the other place: `%YAML` with a version, or `%TAG` with a handle and
/// a prefix. After it blanks, a comment and the break are passed.
pub fn read_directive(
    arena: &mut Vec<u8>,
    text: &[u8],
    start: usize,
    line: usize,
) -> Result<Directive, Refusal>
    requires mark { byte text.now start ≡ ascii.percent }
    requires whole { splits_break text.now start ≡ false }
    requires line { line ≡ line_start text.now start }
    ensures value { spec.ReadsDirective text.now arena.old.items arena.new.items result
        (directives.directive_at text.now start) }
    ensures kept { Keeps arena.old.items arena.new.items }
{
    let value = read_value(arena, text, start)?;
    let end = finish_line(text, value.second_end, line)?;
    Ok(Directive {
        value,
        place: end.place,
        line: end.line,
    })
}

/// The place after a line, and where the line starts that it is in.
#[derive(Clone, Copy)]
pub(crate) struct LineEnd {
    pub place: usize,
    pub line: usize,
}

/// The place after blanks, a comment and a break there, or the end.
fn finish_line(text: &[u8], from: usize, line: usize) -> Result<LineEnd, Wrong>
    requires inside { from ≤ length text.now }
    requires whole { splits_break text.now from ≡ false }
    requires line { line ≡ line_start text.now from }
    ensures { spec.EndsLine text.now result (directives.line_end_at text.now from) }
{
    let end = comment_end(text, skip_blanks(text, from));
    if is_text(text, end) {
        return Err(wrong_at(Problem::NoCommentOrBreak, Context::Directive, end));
    }
    Ok(LineEnd {
        place: end + break_width(text, end),
        line: line_behind(text, end, line),
    })
}

/// The place after the comment there, if one starts there.
fn comment_end(text: &[u8], at: usize) -> usize
    ensures { result ≡ directives.comment_end text.now at }
{
    if byte(text, at) == b'#' {
        return line_end(text, at);
    }
    at
}

/// The name after a `%`, and the place after it.
#[derive(Clone, Copy)]
pub(crate) struct Name {
    pub told: DirectiveName,
    pub end: usize,
}

/// The name after the `%` that is there.
fn read_name(text: &[u8], start: usize) -> Result<Name, Wrong>
    requires { start < length text.now }
    ensures { spec.ReadsName text.now start result (directives.name_at text.now start) }
{
    let end = alphas(text, start + 1);
    match name_told(text, start + 1, end) {
        Ok(told) => Ok(Name { told, end }),
        Err(problem) => Err(wrong_at(problem, Context::Directive, end)),
    }
}

/// What the name between two places means.
fn name_told(text: &[u8], from: usize, end: usize) -> Result<DirectiveName, Problem>
    requires order { from ≤ end }
    requires inside { end ≤ length text.now }
    ensures { directives.name_between text.now from end ≡ name_of result end }
{
    if from == end {
        return Err(Problem::NoDirectiveName);
    }
    if !is_blank_or_end(text, end) {
        return Err(Problem::NotAlphabetical);
    }
    if is_yaml(text, from) && end - from == 4 {
        return Ok(DirectiveName::Yaml);
    }
    if is_tag(text, from) && end - from == 3 {
        return Ok(DirectiveName::Tag);
    }
    Err(Problem::UnknownDirective)
}

/// `YAML`
fn is_yaml(text: &[u8], at: usize) -> bool
    requires { at ≤ length text.now }
    ensures { result ≡ directives.is_yaml text.now at }
{
    byte(text, at) == b'Y'
        && (byte(text, at + 1) == b'A'
            && (byte(text, at + 2) == b'M' && byte(text, at + 3) == b'L'))
}

/// `TAG`
fn is_tag(text: &[u8], at: usize) -> bool
    requires { at ≤ length text.now }
    ensures { result ≡ directives.is_tag text.now at }
{
    byte(text, at) == b'T' && (byte(text, at + 1) == b'A' && byte(text, at + 2) == b'G')
}

/// The value of the directive whose `%` is there.
fn read_value(arena: &mut Vec<u8>, text: &[u8], start: usize) -> Result<Value, Refusal>
    requires { byte text.now start ≡ ascii.percent }
    ensures value { spec.ReadsValue text.now start arena.old.items arena.new.items result
        (directives.value_at text.now start) }
    ensures kept { Keeps arena.old.items arena.new.items }
{
    let name = read_name(text, start)?;
    match name.told {
        DirectiveName::Yaml => Ok(version(text, name.end)?),
        DirectiveName::Tag => tag_value(arena, text, name.end),
    }
}

/// That many digits a version's number has at most.
const DIGITS: usize = 9;

/// The version there, after blanks.
fn version(text: &[u8], from: usize) -> Result<Value, Wrong>
    requires { from ≤ length text.now }
    ensures { spec.ReadsVersion text.now from result (directives.version_at text.now from) }
{
    let first = skip_blanks(text, from);
    let first_end = number(text, first)?;
    if byte(text, first_end) != b'.' {
        return Err(wrong_at(Problem::NoDigitOrDot, Context::VersionDirective, first_end));
    }
    let second = first_end + 1;
    let second_end = number(text, second)?;
    Ok(Value {
        is_tag: false,
        first,
        first_end,
        second,
        second_end,
        joined: false,
    })
}

/// The place after the digits there, of one to nine.
fn number(text: &[u8], from: usize) -> Result<usize, Wrong>
    requires { from ≤ length text.now }
    ensures { spec.ReadsNumber text.now from result (directives.number_at text.now from) }
{
    let mut at = from;
    'digits: while is_digit(byte(text, at)) {
        if at - from == DIGITS {
            return Err(wrong_at(Problem::LongVersionNumber, Context::VersionDirective, at));
        }
        at += 1;
    }
    if at == from {
        return Err(wrong_at(Problem::NoVersionNumber, Context::VersionDirective, at));
    }
    Ok(at)
}

/// The handle and the prefix there, after blanks.
fn tag_value(arena: &mut Vec<u8>, text: &[u8], from: usize) -> Result<Value, Refusal>
    requires { from ≤ length text.now }
    ensures value { spec.ReadsValue text.now from arena.old.items arena.new.items result
        (directives.tag_directive_at text.now from) }
    ensures kept { Keeps arena.old.items arena.new.items }
{
    let first = skip_blanks(text, from);
    let first_end = handle(text, first)?;
    if !is_blank(byte(text, first_end)) {
        return Err(Refusal::Wrong(wrong_at(
            Problem::NoWhitespace,
            Context::TagDirective,
            first_end,
        )));
    }
    let second = skip_blanks(text, first_end);
    let prefix = some_uri(arena, text, second, Context::TagDirectiveUri, true)?;
    if !is_blank_or_end(text, prefix.end) {
        return Err(Refusal::Wrong(wrong_at(
            Problem::NoWhitespaceOrBreak,
            Context::TagDirective,
            prefix.end,
        )));
    }
    Ok(Value {
        is_tag: true,
        first,
        first_end,
        second,
        second_end: prefix.end,
        joined: prefix.joined,
    })
}

/// The place after the handle there: `!` or `!alphas!`.
fn handle(text: &[u8], from: usize) -> Result<usize, Wrong>
    ensures { spec.ReadsHandle text.now from result (directives.handle_at text.now from) }
{
    let problem = Problem::NoExclamationMark;
    if byte(text, from) != b'!' {
        return Err(wrong_at(problem, Context::TagDirectiveStart, from));
    }
    let end = alphas(text, from + 1);
    if byte(text, end) == b'!' {
        return Ok(end + 1);
    }
    if end != from + 1 {
        return Err(wrong_at(problem, Context::TagDirectiveHandle, end));
    }
    Ok(end)
}
