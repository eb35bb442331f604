//! The numbers of C, and what they mean.

ghost use Rattle.std.specs.Prelude.{◌≡◌};
ghost use Rattle.yaml_round_answers.specs.Numbers.{is_set, is_there, flag_told, encoding_meant, break_meant, kind_meant, scalar_style_meant, sequence_style_meant, mapping_style_meant, encoding_number, scalar_style_number, sequence_style_number, mapping_style_number, error_number};

use yaml_parse::{
    yaml_break_t, yaml_encoding_t, yaml_error_type_t, yaml_event_type_t, yaml_mapping_style_t,
    yaml_scalar_style_t, yaml_sequence_style_t,
};

/// Whether a flag is on.
#[tactic(auto, unfolding(crate::specs::Numbers::is_set))]
pub fn is_set(number: i32) -> bool
    ensures { result ≡ is_set number }
{
    number != 0
}

/// Whether an anchor or a tag is there, by its flag: 2 says of a tag that was left out.
#[tactic(auto, unfolding(crate::specs::Numbers::is_there))]
pub(crate) fn is_there(number: i32) -> bool
    ensures { result ≡ is_there number }
{
    is_set(number) && number != 2
}

/// The number of a flag: 0 or 1.
#[tactic(auto, unfolding(crate::specs::Numbers::is_set))]
pub(crate) fn flag(is: bool) -> i32
    ensures meant { is_set result ≡ is }
    ensures told { result ≡ flag_told is }
{
    is as i32
}

/// The encoding that a number means.
#[tactic(auto, unfolding(crate::specs::Numbers::encoding_meant))]
pub fn encoding_of(number: i32) -> Option<yaml_encoding_t>
    ensures { result ≡ encoding_meant number }
{
    match number {
        0 => Some(yaml_encoding_t::YAML_ANY_ENCODING),
        1 => Some(yaml_encoding_t::YAML_UTF8_ENCODING),
        2 => Some(yaml_encoding_t::YAML_UTF16LE_ENCODING),
        3 => Some(yaml_encoding_t::YAML_UTF16BE_ENCODING),
        _ => None,
    }
}

/// The number of an encoding.
pub(crate) fn encoding_number(encoding: yaml_encoding_t) -> i32
    ensures { result ≡ encoding_number encoding }
{
    encoding as i32
}

/// The break that a number means.
#[tactic(auto, unfolding(crate::specs::Numbers::break_meant))]
pub fn break_of(number: i32) -> Option<yaml_break_t>
    ensures { result ≡ break_meant number }
{
    match number {
        0 => Some(yaml_break_t::YAML_ANY_BREAK),
        1 => Some(yaml_break_t::YAML_CR_BREAK),
        2 => Some(yaml_break_t::YAML_LN_BREAK),
        3 => Some(yaml_break_t::YAML_CRLN_BREAK),
        _ => None,
    }
}

/// The kind of event that a number means.
#[tactic(auto, unfolding(crate::specs::Numbers::kind_meant))]
pub(crate) fn kind_of(number: i32) -> Option<yaml_event_type_t>
    ensures { result ≡ kind_meant number }
{
    match number {
        0 => Some(yaml_event_type_t::YAML_NO_EVENT),
        1 => Some(yaml_event_type_t::YAML_STREAM_START_EVENT),
        2 => Some(yaml_event_type_t::YAML_STREAM_END_EVENT),
        3 => Some(yaml_event_type_t::YAML_DOCUMENT_START_EVENT),
        4 => Some(yaml_event_type_t::YAML_DOCUMENT_END_EVENT),
        5 => Some(yaml_event_type_t::YAML_ALIAS_EVENT),
        6 => Some(yaml_event_type_t::YAML_SCALAR_EVENT),
        7 => Some(yaml_event_type_t::YAML_SEQUENCE_START_EVENT),
        8 => Some(yaml_event_type_t::YAML_SEQUENCE_END_EVENT),
        9 => Some(yaml_event_type_t::YAML_MAPPING_START_EVENT),
        10 => Some(yaml_event_type_t::YAML_MAPPING_END_EVENT),
        _ => None,
    }
}

/// The style of a scalar that a number means.
#[tactic(auto, unfolding(crate::specs::Numbers::scalar_style_meant))]
pub(crate) fn scalar_style_of(number: i32) -> Option<yaml_scalar_style_t>
    ensures { result ≡ scalar_style_meant number }
{
    match number {
        0 => Some(yaml_scalar_style_t::YAML_ANY_SCALAR_STYLE),
        1 => Some(yaml_scalar_style_t::YAML_PLAIN_SCALAR_STYLE),
        2 => Some(yaml_scalar_style_t::YAML_SINGLE_QUOTED_SCALAR_STYLE),
        3 => Some(yaml_scalar_style_t::YAML_DOUBLE_QUOTED_SCALAR_STYLE),
        4 => Some(yaml_scalar_style_t::YAML_LITERAL_SCALAR_STYLE),
        5 => Some(yaml_scalar_style_t::YAML_FOLDED_SCALAR_STYLE),
        _ => None,
    }
}

/// The number of a scalar's style.
pub(crate) fn scalar_style_number(style: yaml_scalar_style_t) -> i32
    ensures { result ≡ scalar_style_number style }
{
    style as i32
}

/// The style of a sequence that a number means.
#[tactic(auto, unfolding(crate::specs::Numbers::sequence_style_meant))]
pub(crate) fn sequence_style_of(number: i32) -> Option<yaml_sequence_style_t>
    ensures { result ≡ sequence_style_meant number }
{
    match number {
        0 => Some(yaml_sequence_style_t::YAML_ANY_SEQUENCE_STYLE),
        1 => Some(yaml_sequence_style_t::YAML_BLOCK_SEQUENCE_STYLE),
        2 => Some(yaml_sequence_style_t::YAML_FLOW_SEQUENCE_STYLE),
        _ => None,
    }
}

/// The number of a sequence's style.
pub(crate) fn sequence_style_number(style: yaml_sequence_style_t) -> i32
    ensures { result ≡ sequence_style_number style }
{
    style as i32
}

/// The style of a mapping that a number means.
#[tactic(auto, unfolding(crate::specs::Numbers::mapping_style_meant))]
pub(crate) fn mapping_style_of(number: i32) -> Option<yaml_mapping_style_t>
    ensures { result ≡ mapping_style_meant number }
{
    match number {
        0 => Some(yaml_mapping_style_t::YAML_ANY_MAPPING_STYLE),
        1 => Some(yaml_mapping_style_t::YAML_BLOCK_MAPPING_STYLE),
        2 => Some(yaml_mapping_style_t::YAML_FLOW_MAPPING_STYLE),
        _ => None,
    }
}

/// The number of a mapping's style.
pub(crate) fn mapping_style_number(style: yaml_mapping_style_t) -> i32
    ensures { result ≡ mapping_style_number style }
{
    style as i32
}

/// The number of a fault's kind.
pub fn error_number(kind: yaml_error_type_t) -> i32
    ensures { result ≡ error_number kind }
{
    kind as i32
}
