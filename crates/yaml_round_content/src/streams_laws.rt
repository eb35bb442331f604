//! Each clause is a law.

ghost use Rattle.yaml_round_content.specs.StreamsLaws.{InputsAreFronts, InputsAreStreams, InputsLoadRight, ParsedIsRight};

/// The events of an input as a stream to emit.
pub fn laws_of_streams()
    // An emitter refuses none of the events that a parser makes of well spelled tokens, and where no fault ends them, they end
    // their stream.
    ensures parsed_is_right { ParsedIsRight }
    // The events of an input that no fault ends are those of a stream in which nothing is wrong.
    ensures inputs_are_streams { InputsAreStreams }
    // The events of any input are a front of such a stream's.
    ensures inputs_are_fronts { InputsAreFronts }
    // No event of any input has an empty tag, or opens a document with a version or directives that may not be written.
    ensures inputs_load_right { InputsLoadRight }
{}
