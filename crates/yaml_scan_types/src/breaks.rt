//! Whether a text has a break anywhere.

ghost use Rattle.std.specs.Prelude.{◌≡◌, ◌+◌, ◌<◌, ◌≤◌, true, false, length};
ghost use Rattle.yaml_scan_types.specs.Classes.{any_below, has_break, is_break};

use crate::class::IS_BREAK;

// How many bytes are looked at in a row.
const ROW: usize = 32;

// Whether the byte there says by itself that no break begins there, as most do.
// Inlined: two comparisons a byte.
#[inline(always)]
#[tactic(auto, unfolding(crate::specs::Marks::break_of))]
fn tells_none(text: &[u8], place: usize) -> bool
    requires { place < length text.now }
    ensures { result ≡ true → is_break text.now place ≡ false }
{
    let byte = text[place];
    (b'\r' < byte) & (byte < 0xC2)
}

// Whether that many bytes are there, and all show it.
// Inlined into the loop over such rows; without an early exit, so that the bytes are looked at side by side.
#[inline(always)]
fn row_tells_none(text: &[u8], at: usize) -> bool
    ensures inside { result ≡ true → at + 32 ≤ length text.now }
    ensures none { result ≡ true → any_below at (is_break text.now) ≡ false
        → any_below (at + 32) (is_break text.now) ≡ false }
{
    if text.len().saturating_sub(at) < ROW {
        return false;
    }
    let mut all = true;
    let mut count = 0;
    'bytes: while count < ROW {
        all = all & tells_none(text, at + count);
        count += 1;
    }
    all
}

// How many bytes come first in rows that show it.
fn rows_without(text: &[u8]) -> usize
    ensures inside { result ≤ length text.now }
    ensures none { any_below result (is_break text.now) ≡ false }
{
    let mut end = 0;
    'rows: while row_tells_none(text, end) {
        end += ROW;
    }
    end
}

// Whether a break begins there. Most bytes show by themselves that none does.
// Inlined: two comparisons a byte.
#[inline(always)]
fn begins_break(text: &[u8], place: usize) -> bool
    requires { place < length text.now }
    ensures { result ≡ is_break text.now place }
{
    if tells_none(text, place) {
        false
    } else {
        IS_BREAK(text, place)
    }
}

/// Whether a break begins somewhere in the text.
pub fn has_break(text: &[u8]) -> bool
    ensures { result ≡ has_break text.now }
{
    for i in rows_without(text)..text.len() {
        if begins_break(text, i) {
            return true;
        }
    }
    false
}
