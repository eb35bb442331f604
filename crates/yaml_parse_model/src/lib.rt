//! What a parser gives and takes: events, nodes, the source of its tokens, and the constructors of events.
#![tactic(auto)]

mod constructor;
mod document;
mod event;
mod event_ref;
mod node;
mod node_text;
mod prefix;
mod source;
mod tags;
mod text;

pub use constructor::{
    yaml_alias_event_initialize, yaml_document_end_event_initialize,
    yaml_document_start_event_initialize, yaml_event_utf8, yaml_mapping_end_event_initialize,
    yaml_mapping_start_event_initialize, yaml_scalar_event_initialize,
    yaml_sequence_end_event_initialize, yaml_sequence_start_event_initialize,
    yaml_stream_end_event_initialize, yaml_stream_start_event_initialize,
};
pub use document::{
    DocumentParts, MAX_ENTRIES, document_is_sound, no_document, push_entry,
    yaml_document_add_mapping, yaml_document_add_scalar, yaml_document_add_sequence,
    yaml_document_append_mapping_pair, yaml_document_append_sequence_item, yaml_document_delete,
    yaml_document_get_node, yaml_document_get_root_node, yaml_document_initialize,
    yaml_document_set_end_implicit, yaml_document_t,
};
pub use event::{ZERO_MARK, yaml_event_body_t, yaml_event_delete, yaml_event_t};
pub use event_ref::EventRef;
pub use node::{
    yaml_alias_data_t, yaml_node_body_t, yaml_node_item_t, yaml_node_pair_t, yaml_node_t,
    yaml_node_tag_t,
};
pub use node_text::yaml_node_text_t;
pub use prefix::{yaml_parser_t_prefix, yaml_text_fault_t};
pub use source::yaml_token_source_t;
pub use tags::{SECONDARY_PREFIX, YAML_MAP_TAG, YAML_SEQ_TAG, YAML_STR_TAG};
pub use text::{are_utf8, copy_directives, is_utf8_option};
pub use yaml_scan_model::{
    yaml_encoding_t, yaml_error_type_t, yaml_fault_t, yaml_mapping_style_t, yaml_mark_t,
    yaml_memory_fault, yaml_origin_t, yaml_parser_state_t, yaml_scalar_style_t,
    yaml_sequence_style_t, yaml_tag_directive_t, yaml_token_body_t, yaml_token_t,
    yaml_token_type_t, yaml_version_directive_t,
};
