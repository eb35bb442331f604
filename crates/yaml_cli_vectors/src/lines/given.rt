//! Events that a line lists: kind, encoding, version, directives, implicit, anchor, tag, value, plain and quoted implicit,
//! style.

use crate::lines::Reply;
use crate::lines::made::Made;
use crate::lines::words::{ENCODINGS, MAPPINGS, SCALARS, SEQUENCES};
use serde_json::Value;
use yaml_parse::{
    yaml_alias_event_initialize, yaml_document_end_event_initialize,
    yaml_document_start_event_initialize, yaml_event_t, yaml_mapping_end_event_initialize,
    yaml_mapping_start_event_initialize, yaml_scalar_event_initialize,
    yaml_sequence_end_event_initialize, yaml_sequence_start_event_initialize,
    yaml_stream_end_event_initialize, yaml_stream_start_event_initialize, yaml_tag_directive_t,
    yaml_version_directive_t,
};

/// A version, or null.
pub fn version(reply: &mut Reply, value: Option<&Value>) -> Option<yaml_version_directive_t> {
    let version = value.filter(|version| version.is_array())?;
    let major = reply.number(version, "/0");
    let minor = reply.number(version, "/1");
    Some(yaml_version_directive_t { major, minor })
}

/// Directives: of each the handle, in hexadecimal digits or as it is, and the prefix in hexadecimal digits.
pub fn directives(reply: &mut Reply, listed: &[Value], is_hex: bool) -> Vec<yaml_tag_directive_t> {
    let mut directives = Vec::new(reply.alloc);
    for listed in listed {
        let handle = if is_hex {
            reply.bytes(listed, "/0")
        } else {
            let handle = reply.text(listed, "/0");
            reply.copy(handle.as_bytes())
        };
        let prefix = reply.bytes(listed, "/1");
        reply.room(directives.push(yaml_tag_directive_t { handle, prefix }));
    }
    directives
}

fn document_start(reply: &mut Reply, event: &Value) -> Made<yaml_event_t> {
    let version = version(reply, event.get(2));
    let implicit = reply.flag(event, "/4");
    let listed = reply.list(event, "/3");
    let directives = directives(reply, listed, true);
    yaml_document_start_event_initialize(reply.alloc, version, directives.as_slice(), implicit)
}

// An alias, a scalar, or the start of a sequence or a mapping.
fn node(reply: &mut Reply, event: &Value, kind: &str) -> Made<yaml_event_t> {
    let alloc = reply.alloc;
    let anchor = reply.optional_bytes(event, "/5");
    let tag = reply.optional_bytes(event, "/6");
    let (anchor, tag) = (anchor.as_deref(), tag.as_deref());
    if kind == "ALIAS" {
        return yaml_alias_event_initialize(alloc, anchor.unwrap_or(&[]));
    }
    if kind == "SCALAR" {
        let value = reply.bytes(event, "/7");
        let plain = reply.flag(event, "/8");
        let quoted = reply.flag(event, "/9");
        let style = reply.choice(event, "/10", &SCALARS);
        return yaml_scalar_event_initialize(alloc, anchor, tag, &value, plain, quoted, style);
    }
    let implicit = reply.flag(event, "/4");
    if kind == "SEQUENCE-START" {
        let style = reply.choice(event, "/10", &SEQUENCES);
        yaml_sequence_start_event_initialize(alloc, anchor, tag, implicit, style)
    } else {
        let style = reply.choice(event, "/10", &MAPPINGS);
        yaml_mapping_start_event_initialize(alloc, anchor, tag, implicit, style)
    }
}

/// The event that the line writes so.
pub fn event_of(reply: &mut Reply, event: &Value) -> Made<yaml_event_t> {
    let kind = reply.text(event, "/0");
    match kind {
        "STREAM-START" => Ok(yaml_stream_start_event_initialize(reply.choice(
            event, "/1", &ENCODINGS,
        ))),
        "DOCUMENT-START" => document_start(reply, event),
        "DOCUMENT-END" => Ok(yaml_document_end_event_initialize(reply.flag(event, "/4"))),
        "ALIAS" | "SCALAR" | "SEQUENCE-START" | "MAPPING-START" => node(reply, event, kind),
        "SEQUENCE-END" => Ok(yaml_sequence_end_event_initialize()),
        "MAPPING-END" => Ok(yaml_mapping_end_event_initialize()),
        "STREAM-END" => Ok(yaml_stream_end_event_initialize()),
        _ => {
            reply.miss("event");
            Ok(yaml_stream_end_event_initialize())
        }
    }
}
