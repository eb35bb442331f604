//! The calls `make_document` and `make_events`: what is made, call by call, with what each refusal leaves.

use crate::lines::{
    Part, Reply, add_node, append, empty_document, event_of, show_document, show_event,
};
use serde_json::Value;
use yaml_parse::{
    yaml_document_delete, yaml_document_get_node, yaml_document_get_root_node,
    yaml_document_set_end_implicit, yaml_document_t, yaml_text_fault_t,
};

fn put_refusal(reply: &mut Reply, fault: yaml_text_fault_t) {
    match fault {
        yaml_text_fault_t::Memory => reply.put(Part::Word("memory")),
        yaml_text_fault_t::NotUtf8 => reply.put(Part::Word("not UTF-8")),
    }
}

// What the call answers: the whole document; whether it has a root, or a node of that number; null where its end is set; whether an
// entry is appended, which it isn't where the numbers name no such nodes; or the number of the node that is added. Else why that is
// refused.
fn put_call(reply: &mut Reply, document: &mut yaml_document_t, call: &Value) {
    let made = match reply.text(call, "/0") {
        "show" => return show_document(reply, document),
        "root" => Ok(Part::Flag(yaml_document_get_root_node(document).is_some())),
        "node" => {
            let id = reply.number(call, "/1");
            Ok(Part::Flag(yaml_document_get_node(document, id).is_some()))
        }
        "end_implicit" => {
            yaml_document_set_end_implicit(document, reply.flag(call, "/1"));
            Ok(Part::Null)
        }
        "item" | "pair" => {
            let id = reply.number(call, "/1");
            let held = reply.value(call, "/2");
            append(document, reply, id, held).map(Part::Flag)
        }
        _ => add_node(document, reply, call).map(Part::Number),
    };
    match made {
        Ok(part) => reply.put(part),
        Err(fault) => put_refusal(reply, fault),
    }
}

/// What the line's calls answer of its document, which has no nodes at first.
pub fn make_document(reply: &mut Reply, line: &Value) {
    reply.field("answer", Part::List);
    let fields = reply.value(line, "/document");
    match empty_document(reply, fields) {
        Ok(mut document) => {
            for call in reply.list(line, "/calls") {
                put_call(reply, &mut document, call);
            }
            yaml_document_delete(document);
        }
        Err(fault) => put_refusal(reply, fault),
    }
    reply.put(Part::EndList);
}

/// The line's events, each as it is made, or why it isn't.
pub fn make_events(reply: &mut Reply, line: &Value) {
    reply.field("answer", Part::List);
    for listed in reply.list(line, "/events") {
        match event_of(reply, listed) {
            Ok(event) => {
                show_event(reply, &event);
                drop(event);
            }
            Err(fault) => put_refusal(reply, fault),
        }
    }
    reply.put(Part::EndList);
}
