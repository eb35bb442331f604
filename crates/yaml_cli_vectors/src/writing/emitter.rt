//! Emitters under a line's settings.

use crate::lines::{Reply, event_of};
use serde_json::Value;
use std::alloc::Global;
use yaml_emit::{
    RequestedSettings, yaml_emitter_close, yaml_emitter_emit, yaml_emitter_flush,
    yaml_emitter_fresh, yaml_emitter_initialize, yaml_emitter_open, yaml_emitter_opened,
    yaml_emitter_set_break, yaml_emitter_set_canonical, yaml_emitter_set_encoding,
    yaml_emitter_set_indent, yaml_emitter_set_unicode, yaml_emitter_set_width, yaml_emitter_t,
};
use yaml_parse::yaml_event_utf8;
use yaml_scan::yaml_fault_t;

/// An emitter, unless there is no room for it.
pub type Made = Result<yaml_emitter_t, yaml_fault_t>;

/// An emitter under these settings, that was given nothing yet.
pub fn emitter_under(alloc: Global, asked: &RequestedSettings, limit: u64) -> Made {
    let mut emitter = yaml_emitter_initialize(alloc, limit)?;
    yaml_emitter_set_encoding(&mut emitter, asked.encoding);
    yaml_emitter_set_canonical(&mut emitter, asked.canonical);
    yaml_emitter_set_indent(&mut emitter, asked.indent);
    yaml_emitter_set_width(&mut emitter, asked.width);
    yaml_emitter_set_unicode(&mut emitter, asked.unicode);
    yaml_emitter_set_break(&mut emitter, asked.line_break);
    Ok(emitter)
}

/// Gives the event that the line writes so, whose texts have to be UTF-8; returns its fault.
pub fn give(reply: &mut Reply, it: &Value, emitter: &mut yaml_emitter_t) -> Option<yaml_fault_t> {
    match event_of(reply, it) {
        Ok(event) if yaml_event_utf8(&event) => return yaml_emitter_emit(emitter, event).err(),
        Ok(event) => {
            drop(event);
            reply.miss("events");
        }
        Err(fault) => reply.refuse_text(Some(fault)),
    }
    None
}

/// The fault that a flush answers; none where nothing was given yet.
pub fn flush(emitter: &mut yaml_emitter_t) -> Option<yaml_fault_t> {
    if yaml_emitter_fresh(emitter) {
        return None;
    }
    yaml_emitter_flush(emitter).err()
}

/// Opens the stream, or closes it where it was opened; returns its fault.
pub fn turn(emitter: &mut yaml_emitter_t) -> Option<yaml_fault_t> {
    if yaml_emitter_opened(emitter) {
        return yaml_emitter_close(emitter).err();
    }
    yaml_emitter_open(emitter).err()
}
