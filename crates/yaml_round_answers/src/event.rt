//! The events that records mean, their texts borrowed.

ghost use Rattle.std.specs.Prelude.{◌≡◌, Some, map, option_map, IfSome};
ghost use Rattle.yaml_parse.specs.Events.{directive_of};
ghost use Rattle.yaml_parse.specs.Events.{borrowed_body};
ghost use Rattle.yaml_round_answers.specs.Numbers.{is_set, kind_meant, scalar_style_meant, sequence_style_meant, mapping_style_meant};
ghost use Rattle.yaml_round_answers.specs.Records.{part_at, optional_at, directive_at, all_directives, version_by, scalar_by, sequence_by, mapping_by, body_with, body_meant};

use crate::number::{
    encoding_of, is_set, is_there, kind_of, mapping_style_of, scalar_style_of, sequence_style_of,
};
use crate::record::{part_at, yaml_c_directive, yaml_c_event, yaml_c_span};
use std::alloc::Global;
use yaml_parse::{EventRef, yaml_event_type_t, yaml_tag_directive_t, yaml_version_directive_t};

// A copy of a text that a span names. None where it lies outside, or when out of memory.
fn copy_at(alloc: Global, bytes: &[u8], span: yaml_c_span) -> Option<Vec<u8>>
    ensures { IfSome result (λ v. part_at bytes.now span ≡ Some v.items) }
{
    Vec::from_slice(alloc, part_at(bytes, span)?).ok()
}

fn directive_at(
    alloc: Global,
    bytes: &[u8],
    directive: &yaml_c_directive,
) -> Option<yaml_tag_directive_t>
    ensures { IfSome result (λ d. directive_at bytes.now directive.now ≡ Some (directive_of d)) }
{
    let handle = copy_at(alloc, bytes, directive.handle)?;
    let prefix = copy_at(alloc, bytes, directive.prefix)?;
    Some(yaml_tag_directive_t { handle, prefix })
}

/// Copies of directives. None where a text of one lies outside, or when out of memory.
pub(crate) fn all_directives(
    alloc: Global,
    bytes: &[u8],
    list: &[yaml_c_directive],
) -> Option<Vec<yaml_tag_directive_t>>
    ensures { IfSome result (λ v. all_directives bytes.now list.now
        ≡ Some (map directive_of v.items)) }
{
    let mut directives = Vec::new(alloc);
    for directive in list {
        let directive = directive_at(alloc, bytes, directive)?;
        match directives.push(directive) {
            Ok(()) => (),
            Err(_) => return None,
        }
    }
    Some(directives)
}

/// The directives of a document's start, and none of another event. None where the record means no event, or when out of memory.
pub(crate) fn directives_of(
    alloc: Global,
    bytes: &[u8],
    list: &[yaml_c_directive],
    given: &yaml_c_event,
) -> Option<Vec<yaml_tag_directive_t>>
    ensures { IfSome result (λ v. body_with (Some (map directive_of v.items))
        (kind_meant given.now.kind) bytes.now given.now ≡ body_meant bytes.now list.now given.now) }
{
    match kind_of(given.kind)? {
        yaml_event_type_t::YAML_DOCUMENT_START_EVENT => {
            all_directives(alloc, bytes, part_at(list, given.directives)?)
        }
        _ => Some(Vec::new(alloc)),
    }
}

fn version_of(given: &yaml_c_event) -> Option<yaml_version_directive_t>
    ensures { result ≡ version_by (is_set given.now.has_version) given.now }
{
    is_set(given.has_version).then_some(yaml_version_directive_t {
        major: given.major,
        minor: given.minor,
    })
}

// A text that may be left out, as its flag says. None where it lies outside.
fn optional_at(bytes: &[u8], has: i32, span: yaml_c_span) -> Option<Option<&[u8]>>
    ensures { option_map (option_map (λ t. t.now)) result ≡ optional_at bytes.now has span }
{
    if is_there(has) {
        Some(Some(part_at(bytes, span)?))
    } else {
        Some(None)
    }
}

fn scalar_of<'e>(bytes: &'e [u8], given: &yaml_c_event) -> Option<EventRef<'e>>
    ensures { option_map borrowed_body result ≡ scalar_by
        (optional_at bytes.now given.now.has_anchor given.now.anchor)
        (optional_at bytes.now given.now.has_tag given.now.tag)
        (part_at bytes.now given.now.value) (scalar_style_meant given.now.style) given.now }
{
    let anchor = optional_at(bytes, given.has_anchor, given.anchor)?;
    let tag = optional_at(bytes, given.has_tag, given.tag)?;
    let value = part_at(bytes, given.value)?;
    let style = scalar_style_of(given.style)?;
    Some(EventRef::Scalar {
        anchor,
        tag,
        value,
        plain_implicit: is_set(given.implicit),
        quoted_implicit: is_set(given.quoted_implicit),
        style,
    })
}

fn sequence_of<'e>(bytes: &'e [u8], given: &yaml_c_event) -> Option<EventRef<'e>>
    ensures { option_map borrowed_body result ≡ sequence_by
        (optional_at bytes.now given.now.has_anchor given.now.anchor)
        (optional_at bytes.now given.now.has_tag given.now.tag)
        (sequence_style_meant given.now.style) given.now }
{
    Some(EventRef::SequenceStart {
        anchor: optional_at(bytes, given.has_anchor, given.anchor)?,
        tag: optional_at(bytes, given.has_tag, given.tag)?,
        style: sequence_style_of(given.style)?,
        implicit: is_set(given.implicit),
    })
}

fn mapping_of<'e>(bytes: &'e [u8], given: &yaml_c_event) -> Option<EventRef<'e>>
    ensures { option_map borrowed_body result ≡ mapping_by
        (optional_at bytes.now given.now.has_anchor given.now.anchor)
        (optional_at bytes.now given.now.has_tag given.now.tag)
        (mapping_style_meant given.now.style) given.now }
{
    Some(EventRef::MappingStart {
        anchor: optional_at(bytes, given.has_anchor, given.anchor)?,
        tag: optional_at(bytes, given.has_tag, given.tag)?,
        style: mapping_style_of(given.style)?,
        implicit: is_set(given.implicit),
    })
}

/// The event of a record, a document's start with these directives. None where it means none.
pub(crate) fn event_of<'e>(
    bytes: &'e [u8],
    directives: &'e [yaml_tag_directive_t],
    given: &yaml_c_event,
) -> Option<EventRef<'e>>
    ensures { option_map borrowed_body result ≡ body_with (Some (map directive_of directives.now))
        (kind_meant given.now.kind) bytes.now given.now }
{
    match kind_of(given.kind)? {
        yaml_event_type_t::YAML_NO_EVENT => Some(EventRef::No),
        yaml_event_type_t::YAML_STREAM_START_EVENT => Some(EventRef::StreamStart {
            encoding: encoding_of(given.encoding)?,
        }),
        yaml_event_type_t::YAML_STREAM_END_EVENT => Some(EventRef::StreamEnd),
        yaml_event_type_t::YAML_DOCUMENT_START_EVENT => Some(EventRef::DocumentStart {
            version_directive: version_of(given),
            tag_directives: directives,
            implicit: is_set(given.implicit),
        }),
        yaml_event_type_t::YAML_DOCUMENT_END_EVENT => Some(EventRef::DocumentEnd {
            implicit: is_set(given.implicit),
        }),
        yaml_event_type_t::YAML_ALIAS_EVENT => Some(EventRef::Alias {
            anchor: part_at(bytes, given.anchor)?,
        }),
        yaml_event_type_t::YAML_SCALAR_EVENT => scalar_of(bytes, given),
        yaml_event_type_t::YAML_SEQUENCE_START_EVENT => sequence_of(bytes, given),
        yaml_event_type_t::YAML_SEQUENCE_END_EVENT => Some(EventRef::SequenceEnd),
        yaml_event_type_t::YAML_MAPPING_START_EVENT => mapping_of(bytes, given),
        yaml_event_type_t::YAML_MAPPING_END_EVENT => Some(EventRef::MappingEnd),
    }
}
