//! What is said of documents node by node: keys that a mapping has more than once, and every place where two documents differ.
#![tactic(auto)]

mod apart;
mod difference;
mod held;
mod matching;
mod ranks;
mod repeated;
mod shape;
mod shapes;
mod streams;
mod telling;
mod walk;

pub use difference::{
    yaml_document_differences, yaml_node_cause_t, yaml_node_difference_t, yaml_node_differences_t,
};
pub use repeated::{tell_document, yaml_document_check_keys, yaml_same_key_t};
pub use streams::{yaml_document_difference_t, yaml_stream_differences, yaml_stream_differences_t};
pub use walk::yaml_node_match_t;
pub use yaml_parse_model::{
    yaml_document_get_node, yaml_document_t, yaml_node_body_t, yaml_node_t,
};
