//! The marks of places: an index into the text means its mark, and each index after the text's end that of the stream's
//! end, on a line of its own.

ghost use Rattle.std.specs.Prelude.{ℕ, List, ◌≡◌, ◌+◌, ◌<◌, ◌≤◌, ◌⊎◌, length};
ghost use Rattle.yaml_scan_model.specs.scan_types.Marks.{byte, ends_break, mark_at};
ghost use Rattle.yaml_scan_core.specs.Shown.{place_mark};
ghost use Rattle.yaml_scan_core.specs.Told.{IsRun, Locates, may_split};

use crate::text::{byte, continuing};
use yaml_scan_model::{starts, yaml_mark_t};
use yaml_scan_runs::{LINE, run_to};

/// Finds the marks of places in a text, each from the last one where it isn't before that.
#[derive(Clone, Copy)]
pub struct Locator {
    pub(crate) mark: yaml_mark_t,
}

impl Locator {
    /// At the start of any text.
    pub fn new() -> Locator
        ensures { (text : List ℕ) → Locates text result }
    {
        Locator {
            mark: yaml_mark_t {
                index: 0,
                line: 0,
                column: 0,
            },
        }
    }

    /// The mark of a place, also of one inside a break or a character. After the text's end it is that of the stream's end.
    pub fn locate(&mut self, text: &[u8], place: usize) -> yaml_mark_t
        requires { Locates text.now self.old }
        ensures mark { result ≡ place_mark text.now place }
        ensures locates { Locates text.now self.new }
    {
        if place > text.len() {
            self.reach(text, text.len());
            return yaml_mark_t {
                index: self.mark.index,
                line: self.mark.line + 1,
                column: 0,
            };
        }
        self.reach(text, place);
        self.mark
    }

    /// Goes to a place in the text.
    fn reach(&mut self, text: &[u8], place: usize)
        requires locates { Locates text.now self.old }
        requires inside { place ≤ length text.now }
        ensures mark { self.new.mark ≡ mark_at text.now place }
        ensures locates { Locates text.now self.new }
    {
        self.mark = counted(text, self.before(place), place);
    }

    /// The mark that it has, or the text's start where the place is before that.
    fn before(&self, place: usize) -> yaml_mark_t
        ensures order { result.index ≤ place }
        ensures mark { (text : List ℕ) → Locates text self.now
            → result ≡ mark_at text result.index }
    {
        if self.mark.index <= place as u64 {
            self.mark
        } else {
            Locator::new().mark
        }
    }
}

/// The mark of a place, by a locator that starts at the text's start.
pub fn mark_in(text: &[u8], place: usize) -> yaml_mark_t
    ensures { result ≡ place_mark text.now place }
{
    let mut locator = Locator::new();
    locator.locate(text, place)
}

/// The mark of a place that isn't before another, whose mark is given.
fn counted(text: &[u8], from: yaml_mark_t, place: usize) -> yaml_mark_t
    requires mark { from ≡ mark_at text.now from.index }
    requires order { from.index ≤ place }
    requires inside { place ≤ length text.now }
    ensures { result ≡ mark_at text.now place }
{
    let mut mark = from;
    'runs: while mark.index < place as u64 {
        mark = byte_before(text, run_behind(text, mark, place), place);
    }
    mark
}

/// The mark after the byte there, if it is before the other place.
fn byte_before(text: &[u8], mark: yaml_mark_t, to: usize) -> yaml_mark_t
    requires mark { mark ≡ mark_at text.now mark.index }
    requires order { mark.index ≤ to }
    requires inside { to ≤ length text.now }
    ensures mark { result ≡ mark_at text.now result.index }
    ensures order { result.index ≤ to }
    ensures further { (mark.index < result.index) ⊎ (result.index ≡ to) }
{
    if mark.index < to as u64 {
        byte_behind(text, mark)
    } else {
        mark
    }
}

/// The mark after the byte there.
fn byte_behind(text: &[u8], mark: yaml_mark_t) -> yaml_mark_t
    requires mark { mark ≡ mark_at text.now mark.index }
    requires inside { mark.index < length text.now }
    ensures { result ≡ mark_at text.now (mark.index + 1) }
{
    let at = mark.index as usize;
    if ends_break(text, at) {
        return yaml_mark_t {
            index: mark.index + 1,
            line: mark.line + 1,
            column: 0,
        };
    }
    yaml_mark_t {
        index: mark.index + 1,
        line: mark.line,
        column: mark.column + starts(text[at]) as u64,
    }
}

/// The mark after bytes there that end no break, which are before the other place.
fn run_behind(text: &[u8], mark: yaml_mark_t, to: usize) -> yaml_mark_t
    requires mark { mark ≡ mark_at text.now mark.index }
    requires order { mark.index ≤ to }
    requires inside { to ≤ length text.now }
    ensures mark { result ≡ mark_at text.now result.index }
    ensures order { mark.index ≤ result.index }
    ensures inside { result.index ≤ to }
{
    let from = mark.index as usize;
    let run = run_to(text, from, to, &LINE);
    if run.wide {
        return wide_behind(text, mark, run.end);
    }
    yaml_mark_t {
        index: run.end as u64,
        line: mark.line,
        column: mark.column + (run.end - from) as u64,
    }
}

/// The same after a run of them, some of which may be beyond ASCII; where a break may go on there, it is the mark itself.
fn wide_behind(text: &[u8], mark: yaml_mark_t, end: usize) -> yaml_mark_t
    requires mark { mark ≡ mark_at text.now mark.index }
    requires order { mark.index ≤ end }
    requires run { IsRun text.now mark.index end }
    requires inside { end ≤ length text.now }
    ensures mark { result ≡ mark_at text.now result.index }
    ensures order { mark.index ≤ result.index }
    ensures inside { result.index ≤ end }
{
    let from = mark.index as usize;
    if may_split(byte(text, from.saturating_sub(1))) {
        return mark;
    }
    let columns = end - from - continuing(text, from, end);
    yaml_mark_t {
        index: end as u64,
        line: mark.line,
        column: mark.column + columns as u64,
    }
}

/// Whether a break of several bytes may go on after the byte.
fn may_split(byte: u8) -> bool
    ensures { result ≡ may_split byte }
{
    byte == 0x80 || byte == 0xC2 || byte == 0xE2
}

/// Whether the byte there is the last of a break.
#[tactic(auto, using(crate::proofs::Words::within, crate::proofs::ToldLemmas::ends_feed, crate::proofs::ToldLemmas::ends_return, crate::proofs::ToldLemmas::ends_next, crate::proofs::ToldLemmas::ends_wide, crate::proofs::ToldLemmas::ends_narrow, crate::proofs::ToldLemmas::ends_other))]
fn ends_break(text: &[u8], at: usize) -> bool
    ensures { result ≡ ends_break text.now at }
{
    let before = byte(text, at.saturating_sub(1));
    match byte(text, at) {
        b'\n' => true,
        b'\r' => byte(text, at + 1) != b'\n',
        0x85 => before == 0xC2,
        0xA8 | 0xA9 => before == 0x80 && byte(text, at.saturating_sub(2)) == 0xE2,
        _ => false,
    }
}
