//! The text of an input, or why it has none.

ghost use Rattle.std.specs.Prelude.{◌≡◌, length};

use std::alloc::Global;
use std::marker::Model;
use yaml_parse_model::{yaml_encoding_t, yaml_fault_t};
use yaml_scan_decode::{yaml_decode, yaml_text_t};

/// An input and the text that it spells, or why there is none. It is seen as the input.
#[derive(Drop)]
pub struct ReadText<'a> {
    pub(crate) input: &'a [u8],
    pub(crate) from: yaml_encoding_t,
    pub(crate) text: Result<yaml_text_t<'a>, yaml_fault_t>,
}

impl<'a> Model for ReadText<'a> {
    ghost use Rattle.yaml_round_reading.specs.Input.{Input};

    ghost Value = { Input };

    ghost use Rattle.yaml_round_reading.specs.TextView.{input_of, IsRead};

    ghost view = { input_of };

    ghost invariant = { IsRead };
}

impl ReadText<'_> {
    /// How many bytes the input has.
    pub fn input_len(&self) -> usize
        ensures { result ≡ length self.now.bytes }
    {
        self.input.len()
    }
}

/// The text of an input in that encoding, as `yaml_decode` answers it. Where the input spells none, or memory runs out, the fault
/// is kept: whoever asks for the first token gets it.
pub fn read_text<'a>(alloc: Global, input: &'a [u8], from: yaml_encoding_t) -> ReadText<'a>
    ensures { result ≡ record { from = from; bytes = input.now } }
{
    let text = yaml_decode(alloc, input, from);
    ReadText { input, from, text }
}

/// Drops a text. It is a call, so that no owner's proof writes out the drop.
pub fn let_text_go(text: ReadText<'_>) {
    drop(text);
}
