//! The program: it passes its arguments and the standard streams to `yaml_main`, and exits with the
//! status that this returns.
#![tactic(auto)]

use std::alloc::{AllocError, Global};
use std::env::FillError;
use std::process::ExitCode;
use std::rt::Env;
use yaml_cli_main::{WRONG_WORDS, file_path, yaml_main};

// How many bytes a word has at most at first.
const FIRST: usize = 256;

// The bytes of a word; nothing after the last one.
fn bytes_of(rt: &HostRuntime, number: usize) -> Result<Option<Vec<u8>>, AllocError> {
    let mut bytes = Vec::new(rt.alloc());
    let mut room = FIRST;
    for _ in 0..usize::BITS {
        bytes.resize(room, 0)?;
        match rt.arg(number, bytes.as_mut_slice()) {
            Ok(count) => {
                bytes.truncate(count);
                return Ok(Some(bytes));
            }
            Err(FillError::NotPresent) => return Ok(None),
            Err(FillError::TooLong) => room = room.saturating_mul(2),
        }
    }
    Err(AllocError)
}

// The words. One that isn't UTF-8 is a name that no file has.
fn words_of(rt: &HostRuntime) -> Result<Vec<String>, AllocError> {
    let mut words = Vec::new(rt.alloc());
    for number in 0..usize::MAX {
        match bytes_of(rt, number)? {
            Some(bytes) => words.push(file_path(rt.alloc(), "", bytes.as_slice())?)?,
            None => break,
        }
    }
    Ok(words)
}

fn status_of(rt: &HostRuntime, words: &[String]) -> u8 {
    yaml_main(
        rt,
        words,
        &mut rt.stdin(),
        &mut rt.stdout(),
        &mut rt.stderr(),
    )
}

// Where there is no room for the words only the status says that.
fn main(rt: HostRuntime) -> ExitCode {
    match words_of(&rt) {
        Ok(words) => ExitCode::from(status_of(&rt, words.as_slice())),
        Err(_) => ExitCode::from(WRONG_WORDS),
    }
}
