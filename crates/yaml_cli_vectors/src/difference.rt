//! The calls that compare two inputs: same, both diffs, and differences.

use crate::call::Input;
use crate::lines::{ENCODINGS, Part, Reply, word_at};
use serde_json::Value;
use yaml_round::{
    yaml_diff, yaml_diff_documents, yaml_difference_t, yaml_differences,
    yaml_document_difference_t, yaml_fault_t, yaml_same, yaml_side_t, yaml_step_t,
};
use yaml_scan::{yaml_event_type_t, yaml_mark_t};

// The words of `yaml_cause_t`.
const CAUSES: &'static str = "only_first only_second kind directives value tag quotes anchor";

// The words of `yaml_node_cause_t`.
const NODE_CAUSES: &'static str = "kind value tag key_order only_first only_second";

// A number of that name, and the text of a key where it is a value's that has one.
fn put_step(reply: &mut Reply, step: &yaml_step_t) {
    reply.put(Part::Object);
    match step {
        yaml_step_t::Item(number) => reply.field("item", Part::Count(*number)),
        yaml_step_t::Key(pair) => reply.field("key", Part::Count(*pair)),
        yaml_step_t::Value { pair, key } => {
            reply.field("value", Part::Count(*pair));
            reply.field_optional("text", key.as_deref());
        }
    }
    reply.put(Part::EndObject);
}

// Where the event of one input begins and ends, and the number of its kind.
fn put_event(reply: &mut Reply, mark: yaml_mark_t, end: yaml_mark_t, type_: yaml_event_type_t) {
    reply.put(Part::Object);
    reply.field("mark", Part::Mark(mark));
    reply.field("end", Part::Mark(end));
    reply.field("type", Part::Count(type_ as u64));
    reply.put(Part::EndObject);
}

// The place where two inputs differ.
fn put_difference(reply: &mut Reply, it: &yaml_difference_t) {
    reply.put(Part::Object);
    reply.field("document", Part::Count(it.document));
    reply.field("path", Part::List);
    for step in it.path.iter() {
        put_step(reply, step);
    }
    reply.put(Part::EndList);
    reply.put_name("first");
    put_event(reply, it.first_mark, it.first_end, it.first_type);
    reply.put_name("second");
    put_event(reply, it.second_mark, it.second_end, it.second_type);
    reply.field("cause", Part::Word(word_at(CAUSES, it.cause as usize)));
    reply.put(Part::EndObject);
}

// The side that is refused, and its fault.
fn put_side(reply: &mut Reply, side: yaml_side_t, fault: yaml_fault_t) {
    reply.field("side", Part::Word(word_at("First Second", side as usize)));
    reply.fault = Some(fault);
}

// A place where the documents of two inputs differ, by the numbers of the nodes.
fn put_told(reply: &mut Reply, it: &yaml_document_difference_t) {
    let node = it.difference;
    let cause = word_at(NODE_CAUSES, node.cause as usize);
    reply.put(Part::Object);
    reply.field("document", Part::Count(it.document as u64));
    reply.field("first", Part::Number(node.first));
    reply.field("second", Part::Number(node.second));
    reply.field("cause", Part::Word(cause));
    reply.field("place", Part::Count(node.place as u64));
    reply.put(Part::EndObject);
}

// The place where two inputs part, null where they don't.
fn put_parted(reply: &mut Reply, parted: Option<&yaml_difference_t>) {
    match parted {
        Some(difference) => put_difference(reply, difference),
        None => reply.put(Part::Null),
    }
}

/// Every place where the documents of the input and of the line's second one differ, and where their contents part, unless only the
/// documents are compared; or the side that is refused and its fault.
pub fn list_differences(reply: &mut Reply, line: &Value, input: &Input<'_>) {
    let from2 = reply.choice(line, "/from2", &ENCODINGS);
    let text2 = reply.input(line, "/input2");
    let documents = reply.flag(line, "/documents");
    let Input { text, from } = *input;
    match yaml_differences(reply.alloc, text, from, &text2, from2, documents) {
        Ok(differences) => {
            reply.field("answer", Part::List);
            for told in differences.told.as_slice() {
                put_told(reply, told);
            }
            reply.put(Part::EndList);
            reply.put_name("content");
            put_parted(reply, differences.content.as_ref());
        }
        Err((side, fault)) => put_side(reply, side, fault),
    }
}

/// What comparing the input with the line's second one answers: whether they have the same content, or where they, or their
/// documents, differ, null where they don't; or the side that is rejected and its fault.
pub fn compare(reply: &mut Reply, line: &Value, call: &str, input: &Input<'_>) {
    let Input { text, from } = *input;
    let from2 = reply.choice(line, "/from2", &ENCODINGS);
    let text2 = reply.input(line, "/input2");
    let parted = match call {
        "same" => match yaml_same(reply.alloc, text, from, &text2, from2) {
            Ok(same) => return reply.field("answer", Part::Flag(same)),
            Err(refused) => Err(refused),
        },
        "diff" => yaml_diff(reply.alloc, text, from, &text2, from2),
        _ => yaml_diff_documents(reply.alloc, text, from, &text2, from2),
    };
    match parted {
        Ok(parted) => {
            reply.put_name("answer");
            put_parted(reply, parted.as_ref());
        }
        Err((side, fault)) => put_side(reply, side, fault),
    }
}
