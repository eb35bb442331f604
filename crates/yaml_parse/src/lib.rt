//! Events and documents of tokens: libyaml's parser and loader over a caller's source, and over any tokens.
#![tactic(auto)]

mod found;
mod law;
mod load;
mod parser;
mod token_parser;

pub use found::yaml_found_t;
pub use law::events_keep_to_tokens;
pub use load::{loads_are_by_content, yaml_parser_load};
pub use parser::{
    yaml_parser_between, yaml_parser_delete, yaml_parser_initialize, yaml_parser_parse,
    yaml_parser_parse_into, yaml_parser_prefix, yaml_parser_t,
};
pub use token_parser::TokenParser;
pub use yaml_parse_loader::undefined_alias_fault;
pub use yaml_parse_model::{
    EventRef, document_is_sound, yaml_alias_data_t, yaml_alias_event_initialize,
    yaml_document_add_mapping, yaml_document_add_scalar, yaml_document_add_sequence,
    yaml_document_append_mapping_pair, yaml_document_append_sequence_item, yaml_document_delete,
    yaml_document_end_event_initialize, yaml_document_get_node, yaml_document_get_root_node,
    yaml_document_initialize, yaml_document_set_end_implicit, yaml_document_start_event_initialize,
    yaml_document_t, yaml_event_body_t, yaml_event_delete, yaml_event_t, yaml_event_utf8,
    yaml_mapping_end_event_initialize, yaml_mapping_start_event_initialize, yaml_node_body_t,
    yaml_node_item_t, yaml_node_pair_t, yaml_node_t, yaml_node_tag_t, yaml_node_text_t,
    yaml_parser_state_t, yaml_parser_t_prefix, yaml_scalar_event_initialize,
    yaml_sequence_end_event_initialize, yaml_sequence_start_event_initialize,
    yaml_stream_end_event_initialize, yaml_stream_start_event_initialize, yaml_text_fault_t,
    yaml_token_source_t,
};
pub use yaml_scan_model::{
    yaml_break_t, yaml_encoding_t, yaml_error_type_t, yaml_event_type_t, yaml_fault_t,
    yaml_mapping_style_t, yaml_mark_t, yaml_memory_fault, yaml_node_type_t, yaml_origin_t,
    yaml_scalar_style_t, yaml_sequence_style_t, yaml_simple_key_t, yaml_tag_directive_t,
    yaml_token_body_t, yaml_token_delete, yaml_token_t, yaml_token_type_t,
    yaml_version_directive_t,
};
