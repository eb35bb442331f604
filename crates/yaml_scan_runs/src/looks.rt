//! Runs, and what stops them.

ghost use Rattle.std.specs.Prelude.{◌≡◌, ℕ, ◌+◌, ◌≤◌, Bool, false, List, map, length, take};
ghost use Rattle.std.specs.List.{count_by, slice_range, position_or_len};
ghost use Rattle.std.specs.Simd.Lanes.{mask_l};
ghost use Rattle.yaml_scan_runs.specs.Runs.{RunsTo, IsNarrow, CopiesTo, is_stop, is_neither, is_no_space, is_no_blank, is_unplain, is_continuing};

use std::simd::prelude::*;

/// That many bytes are looked at together.
pub const LANES: usize = 16;

// What may stop a run, beside control bytes and the first bytes of NEL, LS and PS, which always may.

/// What may end a line.
pub const LINE: [u8; 0] = [];

/// What may end a plain scalar outside brackets.
pub const BLOCK: [u8; 2] = *b":#";

/// What may end one inside them.
pub const FLOW: [u8; 7] = *b":#,[]{}";

/// What may end a scalar between single quotes.
pub const SINGLE: [u8; 1] = *b"'";

/// What may end one between double quotes, or is escaped there.
pub const DOUBLE: [u8; 2] = *b"\"\\";

/// What is escaped in an event's line.
pub const ESCAPES: [u8; 1] = *b"\\";

/// What is escaped between double quotes as they are written: DEL and U+FEFF, too.
pub const QUOTED: [u8; 4] = *b"\"\\\x7F\xEF";

/// What may show that a value can't be written in each style.
pub const TELLING: [u8; 10] = *b":#,[]{}?\x7F\xEF";

/// Those of writing, and the space, at which a line may be cut.
pub const WORD: [u8; 1] = *b" ";

/// The same between single quotes.
pub const SINGLE_WORD: [u8; 2] = *b"' ";

/// The same between double quotes.
pub const QUOTED_WORD: [u8; 5] = *b"\"\\\x7F\xEF ";

/// Bytes that none stops: where they end, and whether some of them may be beyond ASCII.
#[derive(Clone, Copy)]
pub struct Run {
    pub end: usize,
    pub wide: bool,
}

/// Which lanes stop a run. With the bit of small letters the first bytes of NEL, and of LS and PS, are one.
// Inlined: some operations on lanes.
#[inline(always)]
fn among<const N: usize>(lanes: u8x16, stops: &[u8; N]) -> u64
    ensures { result ≡ mask_l (map (is_stop stops.now) lanes) }
{
    let small = lanes | u8x16::splat(0x20);
    let mut found = lanes.simd_lt(u8x16::splat(0x20)) | small.simd_eq(u8x16::splat(0xE2));
    'stops: for i in 0..N {
        found = found | lanes.simd_eq(u8x16::splat(stops[i]));
    }
    found.to_bitmask()
}

/// Whether a byte does.
// Inlined: some comparisons.
#[inline(always)]
fn is_among<const N: usize>(byte: u8, stops: &[u8; N]) -> bool
    ensures { result ≡ is_stop stops.now byte }
{
    let mut found = (byte < 0x20) | (byte | 0x20 == 0xE2);
    'stops: for i in 0..N {
        found = found | (byte == stops[i]);
    }
    found
}

/// Whether a lane may be beyond ASCII.
// Inlined: two operations.
#[inline(always)]
fn is_wide(lanes: u8x16) -> bool
    ensures { result ≡ false → IsNarrow lanes 0 16 }
{
    lanes.simd_ge(u8x16::splat(128)).to_bitmask() != 0
}

/// After the lanes.
const END: u64 = 1 << 16;

/// How many lanes are before the first that is set.
// Inlined: two operations.
#[inline(always)]
fn leading(found: u64) -> usize
    ensures { (test : ℕ → Bool) (lanes : List ℕ) → length lanes ≡ 16
        → found ≡ mask_l (map test lanes) → result ≡ position_or_len test lanes }
{
    (found | END).trailing_zeros() as usize
}

/// The first of sixteen bytes that stops a run, or the place after them.
// Inlined: lanes stay in registers.
#[inline(always)]
fn look<const N: usize>(text: &[u8], from: usize, stops: &[u8; N]) -> usize
    requires { from + 16 ≤ length text.now }
    ensures { RunsTo (is_stop stops.now) text.now from (from + 16) result }
{
    from + leading(among(u8x16::from_slice(&text[from..]), stops))
}

/// The run from a place on: it ends at the first byte that stops it, or at the other place. Most end in the first look.
// Inlined: most runs end in the first look, with stops that are known.
#[inline(always)]
pub fn run_to<const N: usize>(text: &[u8], from: usize, to: usize, stops: &[u8; N]) -> Run
    requires { (from ≤ to) × (to ≤ length text.now) }
    ensures run { RunsTo (is_stop stops.now) text.now from to result.end }
    ensures narrow { result.wide ≡ false → IsNarrow text.now from result.end }
{
    if text.len() - from < LANES {
        return run_on(text, from, to, stops, false);
    }
    let end = look(text, from, stops);
    let wide = is_wide(u8x16::from_slice(&text[from..]));
    if end < from + LANES || to <= end {
        return Run {
            end: end.min(to),
            wide,
        };
    }
    run_on(text, end, to, stops, wide)
}

/// The same after the first look.
// A call: it is rare, and callers stay small.
#[inline(never)]
fn run_on<const N: usize>(text: &[u8], from: usize, to: usize, stops: &[u8; N], before: bool) -> Run
    requires { (from ≤ to) × (to ≤ length text.now) }
    ensures run { RunsTo (is_stop stops.now) text.now from to result.end }
    ensures narrow { result.wide ≡ false → (before ≡ false) × IsNarrow text.now from result.end }
{
    let mut at = from;
    let mut seen = u8x16::splat(0);
    'looks: while at < to && text.len() - at >= LANES {
        let lanes = u8x16::from_slice(&text[at..]);
        let found = among(lanes, stops);
        seen = seen | lanes;
        if found != 0 {
            let end = at + found.trailing_zeros() as usize;
            return Run {
                end: end.min(to),
                wide: before | is_wide(seen),
            };
        }
        at += LANES;
    }
    let mut wide = before | is_wide(seen);
    'bytes: while at < to && !is_among(text[at], stops) {
        wide = wide | (text[at] >= 128);
        at += 1;
    }
    Run {
        end: at.min(to),
        wide,
    }
}

/// Where it ends.
// Inlined: as the run.
#[inline(always)]
pub fn run_end<const N: usize>(text: &[u8], from: usize, to: usize, stops: &[u8; N]) -> usize
    requires { (from ≤ to) × (to ≤ length text.now) }
    ensures { RunsTo (is_stop stops.now) text.now from to result }
{
    run_to(text, from, to, stops).end
}

/// Which lanes are neither of the two.
// Inlined: some operations on lanes.
#[inline(always)]
fn others(lanes: u8x16, a: u8, b: u8) -> u64
    ensures { result ≡ mask_l (map (is_neither a b) lanes) }
{
    (lanes.simd_ne(u8x16::splat(a)) & lanes.simd_ne(u8x16::splat(b))).to_bitmask()
}

/// The place after the bytes there that are one of the two.
// Inlined: most end in the first look.
#[inline(always)]
fn skip(text: &[u8], from: usize, a: u8, b: u8) -> usize
    requires { from ≤ length text.now }
    ensures { RunsTo (is_neither a b) text.now from (length text.now) result }
{
    if text.len() - from < LANES {
        return skip_on(text, from, a, b);
    }
    let end = from + leading(others(u8x16::from_slice(&text[from..]), a, b));
    if end < from + LANES {
        return end;
    }
    skip_on(text, end, a, b)
}

/// The same after the first look.
// A call: it is rare, and callers stay small.
#[inline(never)]
fn skip_on(text: &[u8], from: usize, a: u8, b: u8) -> usize
    requires { from ≤ length text.now }
    ensures { RunsTo (is_neither a b) text.now from (length text.now) result }
{
    let mut at = from;
    'looks: while text.len() - at >= LANES {
        let found = others(u8x16::from_slice(&text[at..]), a, b);
        if found != 0 {
            return at + found.trailing_zeros() as usize;
        }
        at += LANES;
    }
    'bytes: while at < text.len() && (text[at] == a || text[at] == b) {
        at += 1;
    }
    at
}

/// The place after the spaces there.
pub fn skip_spaces(text: &[u8], from: usize) -> usize
    requires { from ≤ length text.now }
    ensures { RunsTo is_no_space text.now from (length text.now) result }
{
    skip(text, from, b' ', b' ')
}

/// The place after the blanks there.
pub fn skip_blanks(text: &[u8], from: usize) -> usize
    requires { from ≤ length text.now }
    ensures { RunsTo is_no_blank text.now from (length text.now) result }
{
    skip(text, from, b' ', b'\t')
}

/// Copies sixteen bytes, and says how many of them are before one that stops a run.
// Inlined: some moves.
#[inline(always)]
pub fn copy_look<const N: usize>(out: &mut [u8], at: usize, text: &[u8], stops: &[u8; N]) -> usize
    requires { (16 ≤ length text.now) × (at + 16 ≤ length out.old) }
    ensures copied { CopiesTo out.old out.new at (take 16 text.now) }
    ensures run { RunsTo (is_stop stops.now) text.now 0 16 result }
{
    let end = look(text, 0, stops);
    u8x16::from_slice(text).copy_to_slice(&mut out[at..]);
    end
}

/// Which lanes are no ASCII characters that a stream may hold.
// Inlined: some operations on lanes.
#[inline(always)]
fn unplain(lanes: u8x16) -> u64
    ensures { result ≡ mask_l (map is_unplain lanes) }
{
    let printed = (lanes - u8x16::splat(0x20)).simd_lt(u8x16::splat(0x5F));
    let blank = lanes.simd_eq(u8x16::splat(b'\n'))
        | lanes.simd_eq(u8x16::splat(b'\r'))
        | lanes.simd_eq(u8x16::splat(b'\t'));
    (!(printed | blank)).to_bitmask()
}

/// The place after the ASCII characters there that a stream may hold.
pub fn plain_end(text: &[u8], from: usize) -> usize
    requires { from ≤ length text.now }
    ensures { RunsTo is_unplain text.now from (length text.now) result }
{
    let mut at = from;
    'looks: while text.len() - at >= LANES {
        let found = unplain(u8x16::from_slice(&text[at..]));
        if found != 0 {
            return at + found.trailing_zeros() as usize;
        }
        at += LANES;
    }
    'bytes: while at < text.len()
        && (text[at] >= 0x20 && text[at] < 0x7F || matches!(text[at], b'\n' | b'\r' | b'\t'))
    {
        at += 1;
    }
    at
}

/// Which lanes continue a character.
// Inlined: some operations on lanes.
#[inline(always)]
fn continue_among(lanes: u8x16) -> u64
    ensures { result ≡ mask_l (map is_continuing lanes) }
{
    (lanes & u8x16::splat(0xC0))
        .simd_eq(u8x16::splat(0x80))
        .to_bitmask()
}

/// How many bytes between two places continue a character.
pub fn continuing(text: &[u8], from: usize, to: usize) -> usize
    requires { (from ≤ to) × (to ≤ length text.now) }
    ensures { result ≡ count_by is_continuing (slice_range text.now from to) }
{
    let mut at = from;
    let mut count = 0;
    'looks: while to - at >= LANES {
        count += continue_among(u8x16::from_slice(&text[at..])).count_ones() as usize;
        at += LANES;
    }
    if text.len() - at >= LANES {
        let all = continue_among(u8x16::from_slice(&text[at..]));
        return count + (all & ((1 << (to - at)) - 1)).count_ones() as usize;
    }
    'bytes: while at < to {
        count += (text[at] & 0xC0 == 0x80) as usize;
        at += 1;
    }
    count
}
