//! What the calls that write answer on a line: emit, emit_calls, emit_events, emit_limits, emit_pieces and dump.

mod again;
mod emit_calls;
mod emit_events;
mod emitter;
mod flushed;
mod line;
mod pieces;

pub use again::emit_again;
pub use line::emit_line;
