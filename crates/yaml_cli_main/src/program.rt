//! The program over any reader and writers.

use crate::engine::Rounds;
use std::convert::AsStr;
use std::io::{Read, Write};
use std::rt::Files;
use yaml_cli_program::main_by;

/// Does what the words say, the program's name first, over `input`, `output` and `errors`; files are opened through
/// `rt`. Answers the status: 0, 1 where a command was refused or failed, 2 where the words are wrong. A refusal is a
/// line on `errors`; nothing is written to `output` then, except for a front of the text where writing itself fails.
pub fn yaml_main<H: Files + AllocGlobal, S: AsStr, R: Read, W: Write, E: Write>(
    rt: &H,
    words: &[S],
    input: &mut R,
    output: &mut W,
    errors: &mut E,
) -> u8 {
    main_by(&Rounds, rt, words, input, output, errors)
}
