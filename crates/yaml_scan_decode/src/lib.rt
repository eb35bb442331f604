//! Decoding: the text that the bytes of a stream spell, or the first offence against it (YAML 1.1, chapter 5).
#![tactic(auto)]

mod decode;
mod encoding;
mod laws;
mod offence;
mod utf16;
mod utf8;

pub use decode::{yaml_decode, yaml_text_t};
pub use encoding::{removed_mark_length, stream_encoding};
pub use laws::offences_are_told;
pub use offence::{Character, Offence, ReaderProblem};
pub use utf8::check_utf8;
pub use utf16::{ByteOrder, DecodeError, decode_utf16};
