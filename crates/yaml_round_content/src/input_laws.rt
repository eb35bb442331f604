//! Each clause is a law.

ghost use Rattle.yaml_round_content.specs.InputLaws.{InputsAreParsable, InputsHaveReaderFlags, JsonBeginsWithSomething};

/// Flags and beginnings of inputs' events.
pub fn laws_of_inputs()
    // The documents of an input's normalized events have flags as a reader gives them, and no scalar in them has the tag `!`.
    ensures inputs_have_reader_flags { InputsHaveReaderFlags }
    // Where a text is laid out for them, the directives may be written too.
    ensures inputs_are_parsable { InputsAreParsable }
    // An input shaped as JSON doesn't begin with nothing.
    ensures json_begins_with_something { JsonBeginsWithSomething }
{}
