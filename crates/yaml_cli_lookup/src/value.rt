//! The value of a key in a document.

ghost use Rattle.std.specs.Prelude.{◌≡◌, option_map};
ghost use Rattle.yaml_parse.specs.Nodes.{node_of};
ghost use Rattle.yaml_cli_lookup.specs.Values.{text_in, scalar_at, is_key, value_in, first_value, root_pairs, has_mapping, value_of};

use yaml_parse::{
    yaml_document_get_node, yaml_document_get_root_node, yaml_document_t, yaml_node_body_t,
    yaml_node_pair_t, yaml_node_t,
};

// The text of a scalar.
fn text_in(node: &yaml_node_t) -> Option<&[u8]>
    ensures { option_map (λ t. t.now) result ≡ text_in (node_of node.now).body }
{
    match &node.body {
        yaml_node_body_t::Scalar { value, .. } => Some(value.as_slice()),
        _ => None,
    }
}

// The text of the scalar under a number.
fn scalar_at(document: &yaml_document_t, number: i32) -> Option<&[u8]>
    ensures { option_map (λ t. t.now) result ≡ scalar_at document.now.nodes number }
{
    match yaml_document_get_node(document, number) {
        None => None,
        Some(node) => text_in(node),
    }
}

fn is_key(document: &yaml_document_t, number: i32, key: &[u8]) -> bool
    ensures { result ≡ is_key key.now (scalar_at document.now.nodes number) }
{
    match scalar_at(document, number) {
        None => false,
        Some(text) => text == key,
    }
}

// The value of a pair, where it is one of the key.
fn value_in<'a>(
    document: &'a yaml_document_t,
    pair: yaml_node_pair_t,
    key: &[u8],
) -> Option<&'a [u8]>
    ensures { option_map (λ t. t.now) result ≡ value_in document.now.nodes key.now pair }
{
    if is_key(document, pair.key, key) {
        scalar_at(document, pair.value)
    } else {
        None
    }
}

// The first value of the key in the pairs.
fn first_value<'a>(
    document: &'a yaml_document_t,
    pairs: &[yaml_node_pair_t],
    key: &[u8],
) -> Option<&'a [u8]>
    ensures { option_map (λ t. t.now) result ≡ first_value document.now.nodes key.now pairs.now }
{
    for i in 0..pairs.len() {
        if let Some(value) = value_in(document, pairs[i], key) {
            return Some(value);
        }
    }
    None
}

// The pairs of the root, where that is a mapping.
fn root_pairs(document: &yaml_document_t) -> Option<&[yaml_node_pair_t]>
    ensures { option_map (λ ps. ps.now) result ≡ root_pairs document.now }
{
    match yaml_document_get_root_node(document) {
        None => None,
        Some(root) => match &root.body {
            yaml_node_body_t::Mapping { pairs, .. } => Some(pairs.as_slice()),
            _ => None,
        },
    }
}

/// Whether the root is a mapping.
pub(crate) fn has_mapping(document: &yaml_document_t) -> bool
    ensures { result ≡ has_mapping document.now }
{
    root_pairs(document).is_some()
}

/// The value of a key in the root mapping: that of the first pair whose key is a scalar of exactly these bytes and whose
/// value is a scalar.
pub fn value_of<'a>(document: &'a yaml_document_t, key: &[u8]) -> Option<&'a [u8]>
    ensures { option_map (λ t. t.now) result ≡ value_of document.now key.now }
{
    match root_pairs(document) {
        None => None,
        Some(pairs) => first_value(document, pairs, key),
    }
}
