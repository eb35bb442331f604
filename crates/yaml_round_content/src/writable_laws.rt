//! Each function's contract is a law.

ghost use Rattle.yaml_round_content.specs.WritableLaws.{
  InputsAreFlagged,
  InputsAreWritable,
  InputsContentIsLaidOut,
  InputsHaveUtf8,
  LayoutIsOfInputsContent,
};

/// Which contents may be written, and what is laid out for inputs.
pub fn laws_of_writing()
    // Of an input's normalized events an untagged scalar is quoted-implicit exactly where it isn't plain-implicit.
    ensures inputs_are_flagged { InputsAreFlagged }
    // What is laid out in canonical form for the events of an input is the layout of the input's content.
    ensures layout_is_of_inputs_content { LayoutIsOfInputsContent }
    // The layout of an input's content is laid out for the events of the input.
    ensures inputs_content_is_laid_out { InputsContentIsLaidOut }
    // The texts of an input's events are UTF-8.
    ensures inputs_have_utf8 { InputsHaveUtf8 }
{}

/// The content of each input may be written.
pub fn inputs_are_writable()
    ensures { InputsAreWritable }
{}
