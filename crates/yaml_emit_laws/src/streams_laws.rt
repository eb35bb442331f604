//! Each clause is a law.

ghost use Rattle.yaml_emit_laws.specs.LookBack.{RefusalLooksBack};
ghost use Rattle.yaml_emit_laws.specs.StreamsLaws.{DumpedStreamsAreRight, DumpsAreRight, LoadsAreRight, PassedAreFronts, PassedAreStreams, RightStreamsHaveTexts, StepsKeepRight, TakenAreRight};

/// Streams of dumped documents.
pub fn laws_of_dumped_streams()
    // A list of events of which none is refused, and which ends the stream, is a stream's in which nothing is wrong.
    ensures passed_are_streams { PassedAreStreams }
    // A list of events of which none is refused is a front of such a stream.
    ensures passed_are_fronts { PassedAreFronts }
    // Such a stream has a text, which is its layout.
    ensures right_streams_have_texts { RightStreamsHaveTexts }
    // Nothing is wrong with the events of a document's dump, where no tag is empty and its version and directives are right.
    ensures dumps_are_right { DumpsAreRight }
    // Nor with those of a stream of such documents.
    ensures dumped_streams_are_right { DumpedStreamsAreRight }
    // An event that an emitter takes in canonical form has no empty tag, and opens a document as is right.
    ensures taken_are_right { TakenAreRight }
    // A loader makes right documents of such events, event by event.
    ensures steps_keep_right { StepsKeepRight }
    // A document that is loaded of such events is right, and the events after it are such.
    ensures loads_are_right { LoadsAreRight }
    // The event that is rejected first is the one that looking back over the events before it
    // gives.
    ensures refusal_looks_back { RefusalLooksBack }
{}
