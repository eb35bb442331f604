//! The devices that carry a `Read` or a `Write` of std.

ghost use Rattle.std.specs.Prelude.{◌≡◌, false};
ghost use Rattle.yaml_round_device.specs.StdDevices.{input_inner, input_given, input_failed, output_inner, output_failed, output_finished};

use crate::{
    flush_tried_again, read_tried_again, write_tried_again, yaml_device_fault_t, yaml_input_t,
    yaml_output_t,
};
use std::io::{Read, Write};

/// An input over a reader of std. Interrupted reads are tried again; the 1,000th in a row and every other error is
/// a failure.
#[derive(Drop)]
pub struct yaml_std_input_t<R> {
    inner: R,
    // How many bytes it has given, of which `u64::MAX` are counted.
    given: u64,
    has_failed: bool,
}

impl<R> yaml_std_input_t<R> {
    /// The input over that reader, which has given nothing and hasn't failed.
    pub fn new(inner: R) -> Self
        ensures inner { input_inner result ≡ inner }
        ensures count { input_given result ≡ 0 }
        ensures sound { input_failed result ≡ false }
    {
        yaml_std_input_t {
            inner,
            given: 0,
            has_failed: false,
        }
    }

    /// The reader back.
    pub fn into_inner(self) -> R
        ensures { result ≡ input_inner self }
    {
        self.inner
    }
}

impl<R: Read> yaml_input_t for yaml_std_input_t<R> {
    ghost to_come = { λ d. R.remaining (input_inner d) };

    ghost given = { input_given };

    ghost has_failed = { input_failed };

    fn get(&mut self, buf: &mut [u8]) -> Result<usize, yaml_device_fault_t> {
        let got = read_tried_again(&mut self.inner, buf);
        self.given = self.given.saturating_add(got.unwrap_or(0) as u64);
        self.has_failed |= got.is_err();
        got
    }
}

/// An output over a writer of std. Interrupted calls are tried again; the 1,000th in a row, a write of 0 bytes and
/// every other error is a failure.
#[derive(Drop)]
pub struct yaml_std_output_t<W> {
    inner: W,
    has_failed: bool,
    // The last call was a flush that succeeded.
    is_finished: bool,
}

impl<W> yaml_std_output_t<W> {
    /// The output over that writer, which hasn't failed and isn't finished.
    pub fn new(inner: W) -> Self
        ensures inner { output_inner result ≡ inner }
        ensures sound { output_failed result ≡ false }
        ensures unfinished { output_finished result ≡ false }
    {
        yaml_std_output_t {
            inner,
            has_failed: false,
            is_finished: false,
        }
    }

    /// The writer back.
    pub fn into_inner(self) -> W
        ensures { result ≡ output_inner self }
    {
        self.inner
    }
}

impl<W: Write> yaml_output_t for yaml_std_output_t<W> {
    ghost received = { λ d. W.contents (output_inner d) };

    ghost has_failed = { output_failed };

    ghost is_finished = { output_finished };

    fn put(&mut self, piece: &[u8]) -> Result<usize, yaml_device_fault_t> {
        if piece.is_empty() {
            return Ok(0);
        }
        let taken = write_tried_again(&mut self.inner, piece, true);
        self.is_finished = false;
        self.has_failed |= taken.is_err();
        taken
    }

    fn finish(&mut self) -> Result<(), yaml_device_fault_t> {
        let flushed = flush_tried_again(&mut self.inner);
        self.is_finished = flushed.is_ok();
        self.has_failed |= flushed.is_err();
        flushed
    }
}
