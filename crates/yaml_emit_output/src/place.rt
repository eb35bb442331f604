//! Bytes placed in a buffer that has room for them. Each call returns the place of the next byte.

ghost use Rattle.std.specs.Prelude.{◌≡◌, ◌+◌, ◌<◌, ◌≤◌, [], ◌∷◌, length};
ghost use Rattle.yaml_scan_runs.specs.Placed.{Placed};
ghost use Rattle.yaml_emit_output.specs.Placed.{break_bytes, broken_bytes, mark_bytes, sign_bytes};

use yaml_emit_layout::LineBreak;

/// A byte.
pub fn place_byte(buf: &mut [u8], at: usize, byte: u8) -> usize
    requires { at < length buf.old }
    ensures { Placed buf.old buf.new at (byte ∷ []) result }
{
    buf[at] = byte;
    at + 1
}

/// The break that is set.
pub fn place_break(buf: &mut [u8], at: usize, line_break: LineBreak) -> usize
    requires { at + 2 ≤ length buf.old }
    ensures { Placed buf.old buf.new at (break_bytes line_break) result }
{
    match line_break {
        LineBreak::Lf => place_byte(buf, at, b'\n'),
        LineBreak::Cr => place_byte(buf, at, b'\r'),
        LineBreak::CrLf => {
            let next = place_byte(buf, at, b'\r');
            place_byte(buf, next, b'\n')
        }
    }
}

/// The break that is set, where the line is broken.
pub fn place_broken(buf: &mut [u8], at: usize, breaks: bool, line_break: LineBreak) -> usize
    requires { at + 2 ≤ length buf.old }
    ensures { Placed buf.old buf.new at (broken_bytes breaks line_break) result }
{
    if breaks {
        place_break(buf, at, line_break)
    } else {
        at
    }
}

/// A character, of which 0 is none.
pub fn place_mark(buf: &mut [u8], at: usize, mark: u8) -> usize
    requires { at < length buf.old }
    ensures { Placed buf.old buf.new at (mark_bytes mark) result }
{
    if mark == 0 {
        at
    } else {
        place_byte(buf, at, mark)
    }
}

/// `!` and a space, where a word is marked.
pub fn place_sign(buf: &mut [u8], at: usize, marked: bool) -> usize
    requires { at + 2 ≤ length buf.old }
    ensures { Placed buf.old buf.new at (sign_bytes marked) result }
{
    if marked {
        let next = place_byte(buf, at, b'!');
        place_byte(buf, next, b' ')
    } else {
        at
    }
}
