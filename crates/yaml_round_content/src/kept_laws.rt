//! Each function's contract is a law.

ghost use Rattle.yaml_round_content.specs.KeptLaws.{StreamsAreKnown};

/// The events of a stream are those of one list of documents.
pub fn streams_are_known()
    ensures { StreamsAreKnown }
{}
