//! Which styles a value allows, and which one is taken.

ghost use Rattle.std.specs.Prelude.{◌≡◌, ◌<◌, ◌≤◌, ◌⊎◌, ℕ, length, take, get_or, IsUtf8, Bool, true, false, not, ◌&&◌, ◌||◌, ◌==◌};
ghost use Rattle.yaml_scan_runs.specs.Runs.{RunsTo};
ghost use Rattle.yaml_scan_types.specs.Ascii as ascii;
ghost use Rattle.std.specs.Str.{chars};
ghost use Rattle.yaml_emit_layout.specs.Text.{is_break};
ghost use Rattle.yaml_emit_layout.specs.Quoted.{is_printable, first, is_empty};
ghost use Rattle.yaml_emit_layout.specs.Style.{is_blank, ends_word, is_special, is_not_plain, is_not_flow, last_or, is_indicator, is_badly_begun, behind, allowed, single_or, block_or, plain_or, taken, looked, seen, joined, starts_badly};
ghost use Rattle.yaml_emit_layout.specs.Tame.{IsTame};
ghost use Rattle.yaml_emit_scalars.specs.Classes.{Covers};
ghost use Rattle.yaml_emit_scalars.specs.Calm.{IsCalm, tells};

use crate::block::is_blank;
use crate::class::{BREAK, FLOW, LEAD, MARK, SPECIAL, WIDE, is_of};
use crate::letters::{first, is_break, is_empty};
use crate::quoted::is_printable;
use crate::run::{cut, last_of, run_by};
use yaml_emit_layout::{Allowed, Seen, Style};
use yaml_emit_output::split_first;
use yaml_scan_runs as runs;
use yaml_scan_runs::run_end;
use yaml_scan_types::yaml_scalar_style_t;

// The classes of bytes that may say something against a style.
const TELLING: u16 = BREAK | SPECIAL | WIDE | FLOW | MARK;

fn ends_word(c: char) -> bool
    ensures { result ≡ ends_word c }
{
    is_blank(c) || is_break(c) || c == '\0'
}

fn is_special(unicode: bool, c: char, next: char) -> bool
    ensures { (before : ℕ) → result ≡ is_special unicode before c next }
{
    let n = c as u32;
    !is_printable(c) || (!unicode && 0x80 <= n) || (c == ' ' && is_break(next))
}

fn is_not_plain(before: char, c: char, next: char) -> bool
    ensures { result ≡ is_not_plain before c next }
{
    is_break(c) || (c == ':' && ends_word(next)) || (c == '#' && ends_word(before))
}

fn is_not_flow(c: char) -> bool
    ensures { (before next : ℕ) → result ≡ is_not_flow before c next }
{
    c == ',' || c == '?' || c == ':' || c == '[' || c == ']' || c == '{' || c == '}'
}

fn is_indicator(c: char) -> bool
    ensures { result ≡ is_indicator c }
{
    matches!(c, ' ' | '#' | ',' | '[' | ']' | '{' | '}' | '&' | '*')
        || matches!(c, '!' | '|' | '>' | '\'' | '"' | '%' | '@' | '`')
}

fn is_badly_begun(a: char, b: char, c: char) -> bool
    ensures { result ≡ is_badly_begun a b c }
{
    is_indicator(a)
        || ((a == '-' || a == '?') && ends_word(b))
        || (a == '-' && b == '-' && c == '-')
        || (a == '.' && b == '.' && c == '.')
}

fn single_or(a: Allowed) -> Style
    ensures { result ≡ single_or a }
{
    if a.single {
        Style::Single
    } else {
        Style::Double
    }
}

fn block_or(a: Allowed, flow: bool, simple: bool, style: Style) -> Style
    ensures { result ≡ block_or a flow simple style }
{
    if a.block && !(flow || simple) {
        style
    } else {
        Style::Double
    }
}

fn plain_or(a: Allowed, untagged: bool, flow: bool, simple: bool, empty: bool) -> Style
    ensures { result ≡ plain_or a untagged flow simple empty }
{
    let fits = if flow { a.flow_plain } else { a.plain };
    if fits && !(empty && simple) && untagged {
        Style::Plain
    } else {
        single_or(a)
    }
}

/// The style that was asked for, where the value allows it. Any style is plain; plain also needs that the scalar may be
/// untagged in that style or that its tag is written, block styles that it is neither in a flow collection nor a simple
/// key. Plain falls back to single quoted, that and block styles to double quoted.
#[tactic(auto, unfolding(yaml_emit_layout::specs::Style::taken))]
pub fn taken(
    a: Allowed,
    style: yaml_scalar_style_t,
    untagged: bool,
    flow: bool,
    simple: bool,
    empty: bool,
) -> Style
    ensures { result ≡ taken a style untagged flow simple empty }
{
    match style {
        yaml_scalar_style_t::YAML_ANY_SCALAR_STYLE => plain_or(a, untagged, flow, simple, empty),
        yaml_scalar_style_t::YAML_PLAIN_SCALAR_STYLE => plain_or(a, untagged, flow, simple, empty),
        yaml_scalar_style_t::YAML_SINGLE_QUOTED_SCALAR_STYLE => single_or(a),
        yaml_scalar_style_t::YAML_DOUBLE_QUOTED_SCALAR_STYLE => Style::Double,
        yaml_scalar_style_t::YAML_LITERAL_SCALAR_STYLE => block_or(a, flow, simple, Style::Literal),
        yaml_scalar_style_t::YAML_FOLDED_SCALAR_STYLE => block_or(a, flow, simple, Style::Folded),
    }
}

// What was seen, with what a character adds, after another one and before the next.
fn seen_with(all: Seen, unicode: bool, before: char, c: char, next: char) -> Seen
    ensures { result ≡ joined all (seen unicode before c next) }
{
    Seen {
        special: all.special | is_special(unicode, c, next),
        broken: all.broken | (is_break(c) & (next == ' ')),
        not_plain: all.not_plain | is_not_plain(before, c, next),
        not_flow: all.not_flow | is_not_flow(c),
    }
}

// The place of the first byte that may rule out a style.
fn calm_end(unicode: bool, bytes: &[u8]) -> usize
    ensures { RunsTo (tells unicode) bytes.now 0 (length bytes.now) result }
{
    if unicode {
        run_end(bytes, 0, bytes.len(), &runs::TELLING)
    } else {
        run_by(bytes, 0, bytes.len(), TELLING).end
    }
}

// How many bytes at the start say nothing against a style, except a space that something follows.
fn calm_length(unicode: bool, text: &str) -> usize
    ensures { IsCalm unicode text.now result }
{
    let bytes = text.as_bytes();
    let count = calm_end(unicode, bytes);
    if count == bytes.len() {
        return count;
    }
    if count == 0 {
        return count;
    }
    if bytes[count - 1] != b' ' {
        return count;
    }
    count - 1
}

// Past what says nothing against a style, after a character: the last character before what is left, and that.
fn past_calm(unicode: bool, before: char, left: &str) -> (char, &str)
    ensures seen { looked unicode before (chars left.now)
        ≡ looked unicode result.0 (chars result.1.now) }
    ensures last { last_or before (chars left.now) ≡ last_or result.0 (chars result.1.now) }
    ensures utf8 { IsUtf8 result.1.now }
    ensures shorter { length result.1.now ≤ length left.now }
{
    let (run, rest) = cut(left, calm_length(unicode, left));
    (last_of(before, run), rest)
}

// One look at a value: what was seen, and its last character.
fn look(unicode: bool, value: &str) -> (Seen, char)
    ensures seen { result.0 ≡ looked unicode ascii.space (chars value.now) }
    ensures last { result.1 ≡ last_or ascii.space (chars value.now) }
{
    let mut all = Seen {
        special: false,
        broken: false,
        not_plain: false,
        not_flow: false,
    };
    let (mut last, mut left) = past_calm(unicode, ' ', value);
    while let Some((c, more)) = split_first(left) {
        all = seen_with(all, unicode, last, c, first(more));
        let (latest, behind) = past_calm(unicode, c, more);
        last = latest;
        left = behind;
    }
    (all, last)
}

fn rest_behind(text: &str) -> &str
    ensures { chars result.now ≡ behind (chars text.now) }
{
    match split_first(text) {
        None => text,
        Some((_, rest)) => rest,
    }
}

// Whether no plain scalar may begin so.
fn starts_badly(value: &str) -> bool
    ensures { result ≡ starts_badly (chars value.now) }
{
    let second = rest_behind(value);
    is_badly_begun(first(value), first(second), first(rest_behind(second)))
}

// The styles that a value allows, by one look.
#[inline(never)]
fn allowed_for(unicode: bool, value: &str) -> Allowed
    ensures { result ≡ allowed unicode (chars value.now) }
{
    let (all, last) = look(unicode, value);
    let spaced = last == ' ';
    let unfit = all.special | all.broken | spaced | starts_badly(value) | all.not_plain;
    Allowed {
        plain: is_empty(value) | !unfit,
        flow_plain: !unfit & !all.not_flow,
        single: !(all.special | all.broken),
        block: !(all.special | spaced),
    }
}

// Whether a value allows every style, whose bytes have no other classes than these.
fn is_tame(value: &[u8], classes: u16) -> bool
    requires { Covers classes value.now 0 (length value.now) }
    ensures { result ≡ true → IsTame value.now }
{
    if value.is_empty() {
        return false;
    }
    if is_of(value[0], LEAD) {
        return false;
    }
    if value[value.len() - 1] == b' ' {
        return false;
    }
    classes & TELLING == 0
}

/// The styles that a value allows, whose bytes have no other classes than these. Characters that are not printable, with unicode off
/// those that are not ASCII, and a space before a break need double quotes. An empty one may be plain outside flow collections.
pub fn allowed_by(unicode: bool, value: &str, classes: u16) -> Allowed
    requires { Covers classes value.now 0 (length value.now) }
    ensures { result ≡ allowed unicode (chars value.now) }
{
    if is_tame(value.as_bytes(), classes) {
        Allowed {
            plain: true,
            flow_plain: true,
            single: true,
            block: true,
        }
    } else {
        allowed_for(unicode, value)
    }
}
