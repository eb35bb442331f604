//! Calls of std's streams, made again where they are interrupted.

ghost use Rattle.std.specs.Prelude.{◌≡◌, ◌≤◌, ◌<◌, true, length, take, IfOk, OnErr};
ghost use Rattle.std.specs.Io.KnownBytes.{Keeps, Consumes, Appends, IsAtEnd};

use crate::device::yaml_device_fault_t;
use std::io::{ErrorKind, Read, Write};

// How many times a call that is interrupted is made in all.
const TRIES: u32 = 1000;

/// One read, tried again where it is interrupted.
pub fn read_tried_again<R: Read>(
    reader: &mut R,
    buf: &mut [u8],
) -> Result<usize, yaml_device_fault_t>
    ensures bound { IfOk result (λ n. n ≤ length buf.new) }
    ensures ok { IfOk result (λ n. Consumes (R.remaining reader.old) (R.remaining reader.new)
        (take n buf.new)) }
    ensures end { IfOk result (λ n. n ≡ 0 → 0 < length buf.old → IsAtEnd (R.remaining reader.new)) }
    ensures err { OnErr result (Keeps (R.remaining reader.old) (R.remaining reader.new)) }
{
    for _ in 0..TRIES {
        match reader.read(buf) {
            Ok(n) => return Ok(n),
            Err(e) => {
                if e.kind() != ErrorKind::Interrupted {
                    return Err(yaml_device_fault_t);
                }
            }
        }
    }
    Err(yaml_device_fault_t)
}

/// One write of a piece, tried again where it is interrupted. With `needs_some` it is a failure where no byte is taken.
pub fn write_tried_again<W: Write>(
    writer: &mut W,
    piece: &[u8],
    needs_some: bool,
) -> Result<usize, yaml_device_fault_t>
    ensures bound { IfOk result (λ n. n ≤ length piece.now) }
    ensures some { IfOk result (λ n. needs_some ≡ true → 0 < length piece.now → 0 < n) }
    ensures ok { IfOk result (λ n. Appends (W.contents writer.old) (W.contents writer.new)
        (take n piece.now)) }
    ensures err { OnErr result (Keeps (W.contents writer.old) (W.contents writer.new)) }
{
    for _ in 0..TRIES {
        match writer.write(piece) {
            Ok(0) => {
                if needs_some {
                    return Err(yaml_device_fault_t);
                }
                return Ok(0);
            }
            Ok(n) => return Ok(n),
            Err(e) => {
                if e.kind() != ErrorKind::Interrupted {
                    return Err(yaml_device_fault_t);
                }
            }
        }
    }
    Err(yaml_device_fault_t)
}

/// One flush, tried again where it is interrupted.
pub fn flush_tried_again<W: Write>(writer: &mut W) -> Result<(), yaml_device_fault_t>
    ensures { Keeps (W.contents writer.old) (W.contents writer.new) }
{
    for _ in 0..TRIES {
        match writer.flush() {
            Ok(()) => return Ok(()),
            Err(e) => {
                if e.kind() != ErrorKind::Interrupted {
                    return Err(yaml_device_fault_t);
                }
            }
        }
    }
    Err(yaml_device_fault_t)
}
