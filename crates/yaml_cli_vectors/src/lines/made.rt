//! The document that a line describes, made by the document's calls.

ghost use Rattle.std.specs.Prelude.{IsTrue, IsSome};
ghost use Rattle.yaml_parse.specs.Documents.{node_at, IsSequenceAt, IsMappingAt};

use crate::lines::words::{MAPPINGS, SCALARS, SEQUENCES};
use crate::lines::{Reply, given};
use serde_json::Value;
use yaml_parse::{
    yaml_document_add_mapping, yaml_document_add_scalar, yaml_document_add_sequence,
    yaml_document_append_mapping_pair, yaml_document_append_sequence_item, yaml_document_get_node,
    yaml_document_initialize, yaml_document_t, yaml_node_body_t, yaml_text_fault_t,
};
use yaml_scan::yaml_scalar_style_t;

/// What is made, unless a text of it is refused, or memory ran out.
pub type Made<T> = Result<T, yaml_text_fault_t>;

/// A document without nodes.
pub fn empty_document(reply: &mut Reply, fields: &Value) -> Made<yaml_document_t> {
    let version = given::version(reply, fields.get("version"));
    let start = reply.flag(fields, "/start_implicit");
    let end = reply.flag(fields, "/end_implicit");
    let listed = reply.list(fields, "/directives");
    let directives = given::directives(reply, listed, false);
    let directives = directives.as_slice();
    yaml_document_initialize(reply.alloc, version, directives, start, end)
}

/// Adds a node, a collection without what it holds: its number.
pub fn add_node(document: &mut yaml_document_t, reply: &mut Reply, node: &Value) -> Made<i32> {
    let tag = reply.optional_bytes(node, "/1");
    let tag = tag.as_deref();
    match reply.text(node, "/0") {
        "scalar" => {
            let style = reply.choice(node, "/3", &SCALARS);
            let value = reply.bytes(node, "/2");
            yaml_document_add_scalar(document, tag, value.as_slice(), style)
        }
        "sequence" => {
            let style = reply.choice(node, "/3", &SEQUENCES);
            yaml_document_add_sequence(document, tag, style)
        }
        "mapping" => yaml_document_add_mapping(document, tag, reply.choice(node, "/3", &MAPPINGS)),
        _ => {
            reply.miss("node");
            Ok(0)
        }
    }
}

fn is_sequence(document: &yaml_document_t, id: i32) -> bool
    ensures { IsTrue result → IsSequenceAt document.now id }
{
    let node = yaml_document_get_node(document, id);
    node.is_some_and(|node| matches!(&node.body, yaml_node_body_t::Sequence { .. }))
}

fn is_mapping(document: &yaml_document_t, id: i32) -> bool
    ensures { IsTrue result → IsMappingAt document.now id }
{
    let node = yaml_document_get_node(document, id);
    node.is_some_and(|node| matches!(&node.body, yaml_node_body_t::Mapping { .. }))
}

fn is_node(document: &yaml_document_t, id: i32) -> bool
    ensures { IsTrue result → IsSome (node_at document.now.nodes id) }
{
    yaml_document_get_node(document, id).is_some()
}

/// Appends a pair, which is a list of two, to a mapping, or an item, which is a number, to a sequence; and whether the numbers name
/// such nodes.
pub fn append(it: &mut yaml_document_t, reply: &mut Reply, id: i32, held: &Value) -> Made<bool> {
    if held.is_array() {
        let key = reply.number(held, "/0");
        let value = reply.number(held, "/1");
        if is_mapping(it, id) && is_node(it, key) && is_node(it, value) {
            return yaml_document_append_mapping_pair(it, id, key, value).map(|()| true);
        }
    } else {
        let item = reply.number(held, "");
        if is_sequence(it, id) && is_node(it, item) {
            return yaml_document_append_sequence_item(it, id, item).map(|()| true);
        }
    }
    Ok(false)
}

// Adds what the node of that number holds.
fn fill(document: &mut yaml_document_t, reply: &mut Reply, id: i32, node: &Value) {
    if reply.text(node, "/0") != "scalar" {
        for held in reply.list(node, "/2") {
            match append(document, reply, id, held) {
                Ok(true) => {}
                Ok(false) => reply.miss("nodes"),
                Err(fault) => reply.refuse_text(Some(fault)),
            }
        }
    }
}

// Adds all nodes, then what they hold, and then a scalar of bytes that are to be refused where the line has one, by which no node is
// added.
fn fill_all(document: &mut yaml_document_t, reply: &mut Reply, fields: &Value) {
    let nodes = reply.list(fields, "/nodes");
    for node in nodes {
        let added = add_node(document, reply, node);
        reply.refuse_text(added.err());
    }
    let mut id = 1i32;
    for node in nodes {
        fill(document, reply, id, node);
        id = id.saturating_add(1);
    }
    if fields.get("refused").is_some() {
        let value = reply.bytes(fields, "/refused");
        let style = yaml_scalar_style_t::YAML_ANY_SCALAR_STYLE;
        let added = yaml_document_add_scalar(document, None, value.as_slice(), style);
        if added != Err(yaml_text_fault_t::NotUtf8) || is_node(document, id) {
            reply.miss("refused");
        }
    }
}

/// The document that the fields describe.
pub fn document_of(reply: &mut Reply, fields: &Value) -> Made<yaml_document_t> {
    let mut document = empty_document(reply, fields)?;
    fill_all(&mut document, reply, fields);
    Ok(document)
}
