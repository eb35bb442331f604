//! Runs of a value, each put at once.

ghost use Rattle.std.specs.Prelude.{◌≡◌, ◌≤◌, ◌-◌, ◌++◌, ℕ, List, false, true, length, take, drop, bit_and, IsUtf8};
ghost use Rattle.std.specs.Str.{chars, IsCharBoundary};
ghost use Rattle.yaml_scan_runs.specs.Runs.{RunsTo, IsNarrow};
ghost use Rattle.yaml_emit_layout.specs.Layout.{Layout};
ghost use Rattle.yaml_emit_layout.specs.Text.{is_break};
ghost use Rattle.yaml_emit_layout.specs.Style.{last_or};
ghost use Rattle.yaml_emit_scalars.specs.Classes.{is_of};
ghost use Rattle.yaml_emit_output.specs.Draft.{Lays};
ghost use Rattle.yaml_emit_scalars.specs.Runs.{Begins, KeepsRuns, ends, ends_word, goes_on, quoted_in, flow_in, stops};

use crate::class::{BREAK, ESCAPED, QUOTE, SPACE, SPECIAL, WIDE, first_of};
use crate::letters::{is_break, split_last};
use yaml_emit_output::Draft;
use yaml_scan_runs as runs;
use yaml_scan_runs::{Run, run_to};

/// The context of a run, which decides what ends one.
#[derive(Clone, Copy)]
pub(crate) enum Body {
    /// A plain scalar, or a block scalar.
    Open,
    /// Single quotes.
    Single,
    /// Double quotes.
    Double,
    /// Double quotes between which what is beyond ASCII is escaped.
    Ascii,
}

/// Between double quotes.
pub(crate) fn quoted_in(unicode: bool) -> Body
    ensures { result ≡ quoted_in unicode }
{
    if unicode { Body::Double } else { Body::Ascii }
}

/// In a plain scalar, or between single quotes.
pub(crate) fn flow_in(quote: bool) -> Body
    ensures { result ≡ flow_in quote }
{
    if quote { Body::Single } else { Body::Open }
}

const OPEN: u16 = BREAK | SPECIAL | WIDE;

/// The classes of bytes that end a run of ASCII.
pub(crate) fn stops_of(body: Body) -> u16
    ensures { result ≡ stops body }
{
    match body {
        Body::Open => OPEN,
        Body::Single => OPEN | QUOTE,
        Body::Double | Body::Ascii => OPEN | ESCAPED,
    }
}

// The run from a place to another one, at most, before the bytes of these classes, among which is what is beyond ASCII.
pub(crate) fn run_by(text: &[u8], from: usize, to: usize, classes: u16) -> Run
    requires places { (from ≤ to) × (to ≤ length text.now) }
    requires wide { bit_and 0x010 classes ≡ 0x010 }
    ensures run { RunsTo (is_of classes) text.now from to result.end }
    ensures narrow { IsNarrow text.now from result.end }
{
    Run {
        end: first_of(&text[..to], from, classes),
        wide: false,
    }
}

// The run from a place to another one, at most.
fn run_between(body: Body, text: &[u8], from: usize, to: usize) -> Run
    requires { (from ≤ to) × (to ≤ length text.now) }
    ensures run { RunsTo (ends body) text.now from to result.end }
    ensures narrow { result.wide ≡ false → IsNarrow text.now from result.end }
{
    match body {
        Body::Open => run_to(text, from, to, &runs::LINE),
        Body::Single => run_to(text, from, to, &runs::SINGLE),
        Body::Double => run_to(text, from, to, &runs::QUOTED),
        Body::Ascii => run_by(text, from, to, stops_of(body)),
    }
}

// The run from a place on, up to a space.
fn word_from(body: Body, text: &[u8], from: usize) -> Run
    requires { from ≤ length text.now }
    ensures run { RunsTo (ends_word body) text.now from (length text.now) result.end }
    ensures narrow { result.wide ≡ false → IsNarrow text.now from result.end }
{
    let to = text.len();
    match body {
        Body::Open => run_to(text, from, to, &runs::WORD),
        Body::Single => run_to(text, from, to, &runs::SINGLE_WORD),
        Body::Double => run_to(text, from, to, &runs::QUOTED_WORD),
        Body::Ascii => run_by(text, from, to, stops_of(body) | SPACE),
    }
}

// How many of that many bytes are put at columns that aren't past the width, where that counts.
fn free_of(draft: &Draft, cuts: bool, count: usize) -> usize
    ensures inside { result ≤ count }
    ensures free { cuts ≡ true → result ≤ draft.now.width - draft.now.output.cursor.column }
{
    if cuts { draft.left().min(count) } else { count }
}

// The run at the start of a text: at columns that aren't past the width there may be spaces in it.
fn run_of(draft: &Draft, body: Body, cuts: bool, text: &str) -> Run
    ensures { Begins body cuts draft.now.width draft.now.output.cursor.column text.now
        result.end result.wide }
{
    let bytes = text.as_bytes();
    let free = free_of(draft, cuts, bytes.len());
    let first = run_between(body, bytes, 0, free);
    if first.end < free {
        return first;
    }
    if free == bytes.len() {
        return first;
    }
    let rest = word_from(body, bytes, free);
    Run {
        end: rest.end,
        wide: first.wide | rest.wide,
    }
}

// A text, cut after that many bytes.
pub(crate) fn cut<'a>(left: &'a str, count: usize) -> (&'a str, &'a str)
    requires { IsCharBoundary left.now count }
    ensures run { result.0.now ≡ take count left.now }
    ensures rest { result.1.now ≡ drop count left.now }
    ensures letters { chars left.now ≡ chars result.0.now ++ chars result.1.now }
    ensures utf8 { (IsUtf8 result.0.now) × IsUtf8 result.1.now }
    ensures shorter { length result.1.now ≤ length left.now }
{
    let run = &left[..count];
    let rest = &left[count..];
    (run, rest)
}

// The last character of a run, or another one.
pub(crate) fn last_of(before: char, run: &str) -> char
    ensures { result ≡ last_or before (chars run.now) }
{
    match split_last(run) {
        None => before,
        Some((_, c)) => c,
    }
}

/// Puts the next run as it is, after a character: returns the last character before what is left,
/// and that.
pub(crate) fn put_run<'a>(
    draft: &mut Draft,
    body: Body,
    cuts: bool,
    before: char,
    left: &'a str,
) -> (char, &'a str)
    ensures text { (walk : ℕ → List ℕ → Layout) → KeepsRuns
        (goes_on body cuts draft.old.width) walk before
        → Lays draft.old draft.new (walk before (chars left.now))
        (walk result.0 (chars result.1.now)) }
    ensures utf8 { IsUtf8 result.1.now }
    ensures shorter { length result.1.now ≤ length left.now }
{
    let run = run_of(draft, body, cuts, left);
    let (text, rest) = cut(left, run.end);
    draft.put_part(text, run.wide);
    (last_of(before, text), rest)
}

/// The same, where no run begins after a break.
pub(crate) fn put_run_or<'a>(
    draft: &mut Draft,
    body: Body,
    cuts: bool,
    before: char,
    left: &'a str,
) -> (char, &'a str)
    ensures text { (walk : ℕ → List ℕ → Layout) →
        (is_break before ≡ false → KeepsRuns (goes_on body cuts draft.old.width) walk before)
        → Lays draft.old draft.new (walk before (chars left.now))
        (walk result.0 (chars result.1.now)) }
    ensures utf8 { IsUtf8 result.1.now }
    ensures shorter { length result.1.now ≤ length left.now }
{
    if is_break(before) {
        (before, left)
    } else {
        put_run(draft, body, cuts, before, left)
    }
}
