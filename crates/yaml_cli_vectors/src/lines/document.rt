//! Documents, as the lines write them.

use crate::lines::event::{put_numbers, show_directives, show_version};
use crate::lines::words::{MAPPINGS, SCALARS, SEQUENCES, word_at, word_of};
use crate::lines::{Part, Reply};
use yaml_parse::{yaml_document_get_node, yaml_document_t, yaml_node_body_t, yaml_node_t};

// The value, the items or the pairs of the node, and its style.
fn put_held(reply: &mut Reply, node: &yaml_node_t) {
    let style = match &node.body {
        yaml_node_body_t::No => return reply.put(Part::Null),
        yaml_node_body_t::Scalar { value, style, .. } => {
            reply.put_bytes(value.as_slice());
            word_of(&SCALARS, *style)
        }
        yaml_node_body_t::Sequence { items, style, .. } => {
            reply.put(Part::List);
            for item in items.as_slice() {
                reply.put(Part::Number(*item));
            }
            reply.put(Part::EndList);
            word_of(&SEQUENCES, *style)
        }
        yaml_node_body_t::Mapping { pairs, style, .. } => {
            reply.put(Part::List);
            for pair in pairs.as_slice() {
                put_numbers(reply, pair.key, pair.value);
            }
            reply.put(Part::EndList);
            word_of(&MAPPINGS, *style)
        }
    };
    reply.put(Part::Word(style));
}

// A node: kind, tag, value or items or pairs, style, start mark, end mark.
fn put_node(reply: &mut Reply, node: &yaml_node_t) {
    let kind = word_at("NO scalar sequence mapping", node.type_() as usize);
    reply.put_all(&[Part::List, Part::Word(kind)]);
    reply.put_bytes(node.tag.as_slice());
    put_held(reply, node);
    reply.put_all(&[Part::Mark(node.start_mark), Part::Mark(node.end_mark)]);
    reply.put(Part::EndList);
}

/// Puts the document as the lines write it.
pub fn show_document(reply: &mut Reply, document: &yaml_document_t) {
    reply.put(Part::Object);
    reply.put_name("version");
    show_version(reply, document.version_directive());
    reply.put_name("directives");
    show_directives(reply, document.tag_directives());
    reply.field("start_implicit", Part::Flag(document.start_implicit()));
    reply.field("end_implicit", Part::Flag(document.end_implicit()));
    reply.field("start_mark", Part::Mark(document.start_mark()));
    reply.field("end_mark", Part::Mark(document.end_mark()));
    reply.field("nodes", Part::List);
    for id in 1..i32::MAX {
        match yaml_document_get_node(document, id) {
            Some(node) => put_node(reply, node),
            None => break,
        }
    }
    reply.put_all(&[Part::EndList, Part::EndObject]);
}
