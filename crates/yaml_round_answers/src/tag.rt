//! Whether a node's tag is written where it begins.

ghost use Rattle.std.specs.Prelude.{◌≡◌, ◌≤◌, drop, take, length, true};
ghost use Rattle.yaml_scan_model.specs.scan_types.Marks.{byte};
ghost use Rattle.yaml_scan_history.specs.Between.{step_at};
ghost use Rattle.yaml_round_answers.specs.Characters.{behind_gap, stands_behind, begins_tag, has_tag};

use yaml_scan::IS_BOM;
use yaml_scan_text::{break_width, byte, line_end};

// What is after that many bytes of a text.
fn past(text: &[u8], count: u64) -> &[u8]
    ensures { result.now ≡ drop count text.now }
{
    &text[text.len().min(count as usize)..]
}

// That many bytes of a text.
fn up_to(text: &[u8], count: u64) -> &[u8]
    ensures { result.now ≡ take count text.now }
{
    &text[..text.len().min(count as usize)]
}

// Past U+FEFF, where the text begins with it.
#[tactic(auto, using(crate::proofs::Gaps::mark_step, crate::proofs::Gaps::mark_stays))]
fn past_mark(text: &[u8], at: usize) -> usize
    requires { byte text.now at ≡ 0xEF }
    ensures { result ≡ (step_at true text.now at).place }
{
    if at != 0 {
        return at;
    }
    if IS_BOM(text, 0) {
        return 3;
    }
    0
}

// Past the blank, the comment or the break that is there; the same place, where a lexeme does.
#[tactic(auto, using(crate::proofs::Gaps::blank_step, crate::proofs::Gaps::comment_step, crate::proofs::Gaps::other_step, crate::proofs::Gaps::width_inside))]
fn past_white(text: &[u8], at: usize) -> usize
    requires { at ≤ length text.now }
    ensures { result ≡ (step_at true text.now at).place }
{
    match byte(text, at) {
        b' ' | b'\t' => at + 1,
        b'#' => line_end(text, at),
        0xEF => past_mark(text, at),
        _ => at + break_width(text, at),
    }
}

// The byte after the gap with which a text begins.
fn behind_gap(text: &[u8]) -> u8
    ensures { result ≡ behind_gap text.now }
{
    let mut at = 0;
    let mut next = past_white(text, 0);
    'gap: while at < next {
        at = next;
        next = past_white(text, at);
    }
    byte(text, at)
}

// Whether the tag's `!` is after an anchor.
// Out of line: few nodes have an anchor.
#[cold]
#[inline(never)]
fn stands_behind(part: &[u8], name: u64) -> bool
    ensures { result ≡ stands_behind part.now name }
{
    behind_gap(past(past(part, 1), name)) == b'!'
}

// Whether a node begins with its tag, or has it after its anchor.
fn begins_tag(part: &[u8], name: u64) -> bool
    ensures { result ≡ begins_tag part.now name }
{
    match part.first() {
        Some(b'!') => true,
        Some(b'&') => stands_behind(part, name),
        _ => false,
    }
}

/// Whether the node between two places in a text has a tag, which is first or after the anchor; `name` is the length of the
/// anchor's name.
pub(crate) fn has_tag(text: &[u8], start: u64, end: u64, name: u64) -> bool
    ensures { result ≡ has_tag text.now start end name }
{
    begins_tag(up_to(past(text, start), end.saturating_sub(start)), name)
}
