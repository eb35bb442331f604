//! The texts of lexemes, read as spans of the text or joined after an arena: functions of text and place, which keep no state.
#![tactic(auto)]

mod block;
mod class;
mod directive;
mod fold;
mod names;
mod plain;
mod quoted;
mod refusal;
mod tag;
mod text;
mod uri;

pub use block::{BlockScalar, block_scalar};
pub use class::{alphas, is_bracket};
pub use directive::{Directive, Value, read_directive};
pub use names::name;
pub use plain::{PlainLine, PlainScalar, is_bad_colon, plain_line, plain_lines};
pub use quoted::{QuotedScalar, quoted_scalar};
pub use refusal::{Refusal, Wrong};
pub use tag::{Tag, read_tag};
pub use text::{
    break_width, byte, feed, is_blank, is_blank_or_end, is_document_mark, is_thrice, line_end,
    skip_blanks, skip_spaces,
};
pub use uri::{Uri, some_uri, uri_at};
