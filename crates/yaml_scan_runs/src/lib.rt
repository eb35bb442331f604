//! Runs of bytes that stand for themselves, as reading and writing copy them: sixteen bytes are looked at, or put, together.
#![tactic(auto)]

mod looks;
mod place;

pub use looks::{
    BLOCK, DOUBLE, ESCAPES, FLOW, LANES, LINE, QUOTED, QUOTED_WORD, Run, SINGLE, SINGLE_WORD,
    TELLING, WORD, continuing, copy_look, plain_end, run_end, run_to, skip_blanks, skip_spaces,
};
pub use place::{BLANKS, place_blanks, place_if, place_text};
