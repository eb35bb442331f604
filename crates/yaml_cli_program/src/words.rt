//! From words to what clap finds among them, or to what is wrong with them.

use crate::file::Streams;
use crate::options::whole_command;
use crate::order::WRONG_WORDS;
use clap::error::ErrorKind;
use clap::{ArgMatches, Error as WordFault};
use std::alloc::Global;
use std::convert::AsStr;
use std::io::Write;

/// What is found among the words, the program's name first.
pub(crate) fn matches_of<'a, S: AsStr>(
    alloc: Global,
    words: &'a [S],
) -> Result<ArgMatches<'a>, WordFault> {
    let name = match words.get(1) {
        Some(word) => word.as_str(),
        None => "",
    };
    let command = whole_command(alloc, name)?;
    command.try_get_matches_from(words)
}

/// Says what is wrong with the words, or the help that they ask for, and answers the status: of bad words their own, whether or
/// not the text could be written. Of out of memory only the status says.
pub(crate) fn tell<R, W: Write, E: Write>(error: &WordFault, streams: &mut Streams<R, W, E>) -> u8 {
    if error.kind() == ErrorKind::OutOfMemory {
        WRONG_WORDS
    } else if error.use_stderr() {
        let _ = write!(streams.errors, "{error}");
        WRONG_WORDS
    } else {
        let written = write!(streams.output, "{error}");
        streams.flushed(written)
    }
}
