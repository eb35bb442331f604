//! The program's streams, files that are read whole, and answers that are written.

use crate::fault::{FAILED, Fault, INPUT_LIMIT, UNJUDGED, told};
use std::alloc::{AllocError, Global};
use std::fs;
use std::io::{Error, ErrorKind, Read, Write};
use std::rt::Files;
use yaml_cli_files::{UNNAMED, read_again};
use yaml_round_device::{yaml_std_output_t, yaml_write_all};

/// How the words name standard input.
pub(crate) const STANDARD: &'static str = "-";

// How many bytes of a file are read at a time: each system call takes a fraction of a microsecond.
const READ_AHEAD: usize = 65_536;

// How many are read first: many files have no more.
const READ_FIRST: usize = 4096;

/// What the program reads and writes beside files.
#[derive(Drop)]
pub(crate) struct Streams<R, W, E> {
    /// Where memory comes from.
    pub(crate) alloc: Global,
    pub(crate) input: R,
    pub(crate) output: W,
    pub(crate) errors: E,
    // Where each piece of what is read lies first.
    piece: Vec<u8>,
    /// The output takes no more names, so that no further file is judged.
    pub(crate) stopped: bool,
    /// How many files were judged, and how many of them weren't as they were asked for.
    pub(crate) files: u64,
    pub(crate) refused: u64,
    /// The worst status so far, or the one at which the output stopped.
    pub(crate) status: u8,
}

impl<R, W, E> Streams<R, W, E> {
    pub(crate) fn new(alloc: Global, input: R, output: W, errors: E) -> Self {
        Streams {
            alloc,
            input,
            output,
            errors,
            piece: Vec::new(alloc),
            stopped: false,
            files: 0,
            refused: 0,
            status: 0,
        }
    }

    /// Counts a file, by its status.
    pub(crate) fn count(&mut self, status: u8) {
        self.files = self.files.saturating_add(1);
        self.refused = self.refused.saturating_add(u64::from(status.min(1)));
        self.settle(status);
    }

    /// Keeps a status.
    pub(crate) fn settle(&mut self, status: u8) {
        self.status = if self.stopped {
            status
        } else {
            self.status.max(status)
        };
    }
}

// Makes room for the next piece of a file of which that many bytes were read, more than there was where these filled it.
fn make_room(piece: &mut Vec<u8>, count: usize) -> Result<(), AllocError> {
    if count < piece.len() {
        return Ok(());
    }
    let more = piece.len().saturating_mul(4);
    piece.resize(more.max(READ_FIRST).min(READ_AHEAD), 0)
}

// Reads a file to its end.
fn read_whole<R: Read>(
    alloc: Global,
    file: &mut R,
    piece: &mut Vec<u8>,
) -> Result<Vec<u8>, Fault<'static>> {
    let mut bytes = Vec::new(alloc);
    for _ in 0..u64::MAX {
        make_room(piece, bytes.len())?;
        let count = read_again(file, piece.as_mut_slice())?;
        bytes.extend_from_slice(piece.get(..count).unwrap_or(b""))?;
        if bytes.len() as u64 > INPUT_LIMIT {
            return Err(Fault::TooLong);
        }
        if count == 0 {
            break;
        }
    }
    Ok(bytes)
}

impl<R: Read, W, E> Streams<R, W, E> {
    /// The bytes of a file, or of standard input, or why they weren't read.
    pub(crate) fn whole_of<H: Files>(
        &mut self,
        rt: &H,
        path: &str,
    ) -> Result<Vec<u8>, Fault<'static>> {
        if path == STANDARD {
            return read_whole(self.alloc, &mut self.input, &mut self.piece);
        }
        if path.starts_with(UNNAMED) {
            return Err(Fault::Unnamed);
        }
        let mut file = fs::open(rt, path)?;
        read_whole(self.alloc, &mut file, &mut self.piece)
    }
}

/// Writes the answer of a comparison, or reports how much of it was written; returns the status.
pub(crate) fn write_answer<W: Write, E: Write>(
    answer: &[u8],
    writer: &mut W,
    errors: &mut E,
) -> u8 {
    let mut output = yaml_std_output_t::new(writer);
    match yaml_write_all(&mut output, answer) {
        Ok(()) => 0,
        Err(written) => {
            told(errors, "", &Fault::WriteFailed(written));
            FAILED
        }
    }
}

impl<R, W: Write, E: Write> Streams<R, W, E> {
    /// Ends what was written to standard output; returns the status: 0, or that of an output that takes
    /// no more, which is reported except where nobody reads it.
    pub(crate) fn flushed(&mut self, written: Result<(), Error>) -> u8 {
        match written.and_then(|()| self.output.flush()) {
            Ok(()) => 0,
            Err(error) if error.kind() == ErrorKind::BrokenPipe => FAILED,
            Err(error) => {
                told(&mut self.errors, "", &Fault::NotPassedOn(error));
                UNJUDGED
            }
        }
    }

    /// Writes a text to standard output; returns the status that is passed, or that of an output that takes no more.
    pub(crate) fn put_text(&mut self, text: &str, status: u8) -> u8 {
        let written = self.output.write_all(text.as_bytes());
        match self.flushed(written) {
            0 => status,
            failed => {
                self.stopped = true;
                failed
            }
        }
    }
}
