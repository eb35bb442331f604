//! What the emitter's grammar takes.

ghost use Rattle.yaml_emit_layout.specs.Progress.{PassesStreams};
ghost use Rattle.yaml_emit_machine.specs.Laid.{StreamsAreLaid};

/// A law: in a front of a stream's events, with nothing wrong in them, no event is refused.
pub fn streams_pass()
    ensures { PassesStreams }
{}

/// A law: what is written event by event for a stream in which nothing is wrong is the stream's layout.
pub fn streams_are_laid()
    ensures { StreamsAreLaid }
{}
