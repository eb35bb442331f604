//! Streams that do what a list of steps says.

use crate::lines::{Reply, Row};
use serde_json::Value;
use std::io;
use std::io::{Cursor, ErrorKind, Read, Write};

// What a stream does at a call: how many bytes it moves at most, or how it fails.
type Step = Result<usize, ErrorKind>;

const WORDS: [Row<Step>; 2] = [("zero", Ok(0)), ("failure", Err(ErrorKind::BrokenPipe))];

// The steps that the line lists there, the last one first: each a number of bytes, a word, or how many calls in a row are interrupted.
fn steps_of(reply: &mut Reply, line: &Value, path: &'static str) -> Vec<Step> {
    let mut steps = Vec::new(reply.alloc);
    let interrupted = Err(ErrorKind::Interrupted);
    for listed in reply.list(line, path) {
        let (step, times) = match listed {
            Value::Object(_) => (interrupted, reply.count(listed, "/interrupted")),
            Value::String(_) => (reply.choice(listed, "", &WORDS), 1),
            _ => (Ok(reply.count(listed, "") as usize), 1),
        };
        for _ in 0..times {
            reply.room(steps.push(step));
        }
    }
    steps.reverse();
    steps
}

/// Reads bytes, and is at its end after its steps, or writes bytes, and takes all after its steps.
#[derive(Drop)]
pub struct Stream {
    /// The bytes that are read, or were written.
    pub bytes: Cursor<Vec<u8>>,
    steps: Vec<Step>,
    /// How many bytes a reader was asked for, call by call.
    pub sizes: Vec<usize>,
    /// Whether a writer fails to pass on what it took.
    pub flush_fails: bool,
}

impl Stream {
    /// A stream of those bytes that does what the line's steps there say.
    pub fn of(reply: &mut Reply, line: &Value, path: &'static str, bytes: Vec<u8>) -> Stream {
        Stream {
            bytes: Cursor::new(bytes),
            steps: steps_of(reply, line, path),
            sizes: Vec::new(reply.alloc),
            flush_fails: false,
        }
    }
}

// A step's bytes may take several calls.
impl Read for Stream {
    fn read(&mut self, buf: &mut [u8]) -> io::Result<usize> {
        self.sizes.push(buf.len())?;
        let all = self.steps.pop().unwrap_or(Ok(0))?;
        let most = all.min(buf.len());
        let count = self.bytes.read(&mut buf[..most])?;
        if count < all {
            self.steps.push(Ok(all - count))?;
        }
        Ok(count)
    }
}

impl Write for Stream {
    fn write(&mut self, buf: &[u8]) -> io::Result<usize> {
        let most = self.steps.pop().unwrap_or(Ok(buf.len()))?;
        self.bytes.write(&buf[..most.min(buf.len())])
    }

    fn flush(&mut self) -> io::Result<()> {
        if self.flush_fails {
            return Err(io::Error::from(ErrorKind::BrokenPipe));
        }
        Ok(())
    }
}
