//! The calls of the engine, and the decoder's.

use crate::call::Input;
use crate::lines::{Part, Reply, engine_settings, own_fault, word_at};
use serde_json::Value;
use yaml_cli_lookup::{LookupError, lookup};
use yaml_round::{
    yaml_check, yaml_check_keys, yaml_error_type_t, yaml_events, yaml_fault_line, yaml_fault_t,
    yaml_form_t, yaml_normalize, yaml_reformat, yaml_reload, yaml_settings_t,
};
use yaml_scan::yaml_decode;

/// A field: the line that reports the fault.
pub fn field_line(reply: &mut Reply, name: &str, fault: &yaml_fault_t) {
    match yaml_fault_line(reply.alloc, fault) {
        Ok(text) => reply.field_bytes(name, text.as_slice()),
        Err(fault) => reply.done(Some(fault)),
    }
}

/// The text, or how many bytes it has where the line asks for that; and its form, where it has one.
pub fn put_text(reply: &mut Reply, line: &Value, text: &[u8], form: Option<yaml_form_t>) {
    if line.get("length").is_some() {
        reply.field("length", Part::Count(text.len() as u64));
    } else {
        reply.field_bytes("answer", text);
    }
    if let Some(form) = form {
        let word = word_at("Canonical Pretty", form as usize);
        reply.field("form", Part::Word(word));
    }
}

/// A text of the input: decoded, its event lines, its normal form, that of its documents, or the text again with the form that it has.
pub fn make(reply: &mut Reply, line: &Value, call: &str, input: &Input<'_>) {
    let Input { text, from } = *input;
    let alloc = reply.alloc;
    let made = match call {
        "decode" => match yaml_decode(alloc, text, from) {
            Ok(decoded) => return put_text(reply, line, decoded.as_slice(), None),
            Err(fault) => Err(fault),
        },
        "reformat" => match yaml_reformat(alloc, text, from, &engine_settings(reply, line)) {
            Ok((text, form)) => return put_text(reply, line, text.as_slice(), Some(form)),
            Err(fault) => Err(fault),
        },
        "events" => yaml_events(alloc, text, from),
        "normalize" => yaml_normalize(alloc, text, from, &engine_settings(reply, line)),
        "reload" => yaml_reload(alloc, text, from, &engine_settings(reply, line)),
        _ => return reply.miss("/call"),
    };
    match made {
        Ok(made) => put_text(reply, line, made.as_slice(), None),
        Err(fault) => reply.done(Some(fault)),
    }
}

/// Whether the input loads.
pub fn loads(reply: &mut Reply, input: &Input<'_>) {
    reply.field("answer", Part::Flag(true));
    reply.done(yaml_check(reply.alloc, input.text, input.from).err());
}

/// The keys that are in a mapping more than once: where each begins and ends, and where the first one begins.
pub fn keys(reply: &mut Reply, input: &Input<'_>) {
    reply.field("answer", Part::List);
    match yaml_check_keys(reply.alloc, input.text, input.from) {
        Ok(keys) => {
            for key in keys.as_slice() {
                reply.put(Part::Object);
                reply.field("key", Part::Mark(key.mark));
                reply.field("end", Part::Mark(key.end_mark));
                reply.field("first", Part::Mark(key.first_mark));
                reply.put(Part::EndObject);
            }
        }
        Err(fault) => reply.done(Some(fault)),
    }
    reply.put(Part::EndList);
}

/// The line that reports the input's fault, null where there is none.
pub fn fault_line(reply: &mut Reply, input: &Input<'_>) {
    let usual = yaml_settings_t::new();
    match yaml_reformat(reply.alloc, input.text, input.from, &usual).err() {
        Some(fault) => field_line(reply, "answer", &fault),
        None => reply.field("answer", Part::Null),
    }
}

/// The line that reports a fault with the line's fields, whose problem is `x`, met while `y` was being read, or nothing.
pub fn told(reply: &mut Reply, line: &Value) {
    let fields = reply.value(line, "/own");
    let has_context = reply.flag(fields, "/context");
    let fault = yaml_fault_t {
        problem: "x",
        context: if has_context { Some("y") } else { None },
        ..own_fault(reply, fields)
    };
    field_line(reply, "answer", &fault);
}

/// The value of the line's key in its input; null where there is none.
pub fn look_up(reply: &mut Reply, line: &Value, input: &Input<'_>) {
    let key = reply.bytes(line, "/key");
    match lookup(reply.alloc, input.text, input.from, key.as_slice()) {
        Ok(value) => reply.field_optional("answer", value.as_deref()),
        Err(LookupError::Unreadable(fault)) => reply.done(Some(fault)),
        Err(LookupError::NotAMapping) => reply.field("refused", Part::Word("NotAMapping")),
        Err(_) => reply.memory(),
    }
}

/// Whether the fault says that the text has more bytes than its limit.
pub fn is_full(fault: Option<yaml_fault_t>) -> bool {
    match fault {
        Some(fault) => fault.kind == yaml_error_type_t::YAML_WRITER_ERROR
            && fault.problem == "write error",
        None => false,
    }
}

/// The least limit, below that of the settings, under which the call that the line names in `of` answers a text. Every smaller one is
/// too small.
pub fn least_limit(reply: &mut Reply, line: &Value, input: &Input<'_>) {
    let Input { text, from } = *input;
    let of = reply.text(line, "/of");
    let settings = engine_settings(reply, line);
    for limit in 0..settings.limit {
        let settings = yaml_settings_t { limit, ..settings };
        let fault = match of {
            "reload" => yaml_reload(reply.alloc, text, from, &settings).err(),
            _ => yaml_reformat(reply.alloc, text, from, &settings).err(),
        };
        if !is_full(fault) {
            reply.field("answer", Part::Count(limit));
            return reply.done(fault);
        }
    }
    reply.miss("limit");
}
