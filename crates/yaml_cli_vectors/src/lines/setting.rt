//! The settings that a line says.

use crate::lines::Reply;
use crate::lines::words::{BREAKS, ENCODINGS, Row};
use serde_json::Value;
use yaml_emit::RequestedSettings;
use yaml_round::{yaml_output_encoding_t, yaml_settings_t};

/// What an emitter is set to, and how many bytes its text may have.
#[derive(Clone, Copy)]
pub struct Settings {
    pub asked: RequestedSettings,
    pub limit: u64,
}

/// The field `settings` of the line.
pub fn settings_of(reply: &mut Reply, line: &Value) -> Settings {
    let line = reply.value(line, "/settings");
    Settings {
        asked: RequestedSettings {
            encoding: reply.choice(line, "/encoding", &ENCODINGS),
            canonical: reply.flag(line, "/canonical"),
            indent: reply.number(line, "/indent"),
            width: reply.number(line, "/width"),
            unicode: reply.flag(line, "/unicode"),
            line_break: reply.choice(line, "/break", &BREAKS),
        },
        limit: reply.count(line, "/limit"),
    }
}

const OUTPUTS: [Row<yaml_output_encoding_t>; 3] = [
    ("utf8", yaml_output_encoding_t::Utf8),
    ("utf16le", yaml_output_encoding_t::Utf16Le),
    ("utf16be", yaml_output_encoding_t::Utf16Be),
];

/// The same for the engine.
pub fn engine_settings(reply: &mut Reply, line: &Value) -> yaml_settings_t {
    let Settings { asked, limit } = settings_of(reply, line);
    yaml_settings_t {
        encoding: reply.choice(line, "/settings/encoding", &OUTPUTS),
        canonical: asked.canonical,
        indent: asked.indent,
        width: asked.width,
        unicode: asked.unicode,
        line_break: asked.line_break,
        limit,
    }
}
