//! Bytes placed in a buffer that has room for them. Each call returns the place of the next byte.

ghost use Rattle.std.specs.Prelude.{◌≡◌, ◌+◌, ◌<◌, ◌≤◌, length, take, replicate};
ghost use Rattle.yaml_scan_runs.specs.Placed.{Placed, due_byte};

use std::simd::Simd;

/// Spaces are placed by that many: what is too much counts for nothing.
pub const BLANKS: usize = 16;

/// A byte that is placed always, and counts only where it is due.
pub fn place_if(buf: &mut [u8], at: usize, due: bool, byte: u8) -> usize
    requires { at < length buf.old }
    ensures { Placed buf.old buf.new at (due_byte due byte) result }
{
    buf[at] = byte;
    at + due as usize
}

// A row of spaces.
fn place_row_of_blanks(buf: &mut [u8], at: usize)
    requires { at + 16 ≤ length buf.old }
    ensures { Placed buf.old buf.new at (replicate 16 0x20) (at + 16) }
{
    Simd::<u8, 16>::splat(b' ').copy_to_slice(&mut buf[at..]);
}

/// That many spaces.
pub fn place_blanks(buf: &mut [u8], at: usize, count: usize) -> usize
    requires { at + count + 16 ≤ length buf.old }
    ensures { Placed buf.old buf.new at (replicate count 0x20) result }
{
    let end = at + count;
    let mut next = at;
    while next < end {
        place_row_of_blanks(buf, next);
        next += BLANKS;
    }
    end
}

// The first N bytes of a text are one load and one store.
fn place_front<const N: usize>(buf: &mut [u8], at: usize, text: &[u8])
    requires { (N ≤ length text.now) × (at + N ≤ length buf.old) }
    ensures { Placed buf.old buf.new at (take N text.now) (at + N) }
{
    Simd::<u8, N>::from_slice(text).copy_to_slice(&mut buf[at..]);
}

// A text of N to 2 N bytes: its front and its end.
fn place_ends<const N: usize>(buf: &mut [u8], at: usize, text: &[u8])
    requires fits { at + length text.now ≤ length buf.old }
    requires covers { (N ≤ length text.now) × (length text.now ≤ N + N) }
    ensures { Placed buf.old buf.new at text.now (at + length text.now) }
{
    let last = text.len() - N;
    place_front::<N>(buf, at, text);
    place_front::<N>(buf, at + last, &text[last..]);
}

// A text of 16 bytes or more: rows, and the last one over again where they aren't a whole number.
fn place_rows(buf: &mut [u8], at: usize, text: &[u8])
    requires { (16 ≤ length text.now) × (at + length text.now ≤ length buf.old) }
    ensures { Placed buf.old buf.new at text.now (at + length text.now) }
{
    let last = text.len() - 16;
    let mut done = 0;
    while done < last {
        place_front::<16>(buf, at + done, &text[done..]);
        done += 16;
    }
    place_front::<16>(buf, at + last, &text[last..]);
}

// A text, by its length.
fn place_sized(buf: &mut [u8], at: usize, text: &[u8])
    requires { at + length text.now ≤ length buf.old }
    ensures { Placed buf.old buf.new at text.now (at + length text.now) }
{
    let count = text.len();
    if count >= 16 {
        place_rows(buf, at, text)
    } else if count >= 8 {
        place_ends::<8>(buf, at, text)
    } else if count >= 4 {
        place_ends::<4>(buf, at, text)
    } else if count >= 2 {
        place_ends::<2>(buf, at, text)
    } else if count == 1 {
        place_front::<1>(buf, at, text)
    }
}

/// A text.
// A copy by a call takes as many instructions as all else that is put of a short scalar: 10 in 100.
pub fn place_text(buf: &mut [u8], at: usize, text: &[u8]) -> usize
    requires { at + length text.now ≤ length buf.old }
    ensures { Placed buf.old buf.new at text.now result }
{
    place_sized(buf, at, text);
    at + text.len()
}
