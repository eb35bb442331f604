//! Whether records mean events. Nothing is copied, so that no refusal of memory hides a number that means nothing.

ghost use Rattle.std.specs.Prelude.{◌≡◌, is_some, option_map};
ghost use Rattle.std.specs.Str.{is_utf8};
ghost use Rattle.yaml_parse.specs.Events.{borrowed_body};
ghost use Rattle.yaml_round_answers.specs.Records.{part_at, directive_at, all_directives, directives_at, body_meant};
ghost use Rattle.yaml_round_answers.specs.Meaning.{is_utf8_option, events_meant};
ghost use Rattle.yaml_round_answers.specs.Checking.{is_text, is_directive, are_directives, may_give_beside, is_event};

use crate::event::event_of;
use crate::record::{part_at, yaml_c_directive, yaml_c_event, yaml_c_span};
use simdutf8::is_utf8;
use yaml_parse::EventRef;

// Whether a text is UTF-8.
#[tactic(auto, using(crate::proofs::Checked::readable))]
fn is_readable(text: &[u8]) -> bool
    ensures { result ≡ is_utf8 text.now }
{
    is_utf8(text)
}

// Whether a text is UTF-8 or left out.
fn is_optional(text: Option<&[u8]>) -> bool
    ensures { result ≡ is_utf8_option (option_map (λ t. t.now) text.entry) }
{
    text.is_none_or(is_readable)
}

// Whether a span names a text in UTF-8.
fn names_text(bytes: &[u8], span: yaml_c_span) -> bool
    ensures { result ≡ is_text (part_at bytes.now span) }
{
    part_at(bytes, span).is_some_and(|text| is_readable(text))
}

fn is_directive(bytes: &[u8], directive: &yaml_c_directive) -> bool
    ensures { result ≡ is_directive (directive_at bytes.now directive.now) }
{
    names_text(bytes, directive.handle) && names_text(bytes, directive.prefix)
}

fn are_all_directives(bytes: &[u8], list: &[yaml_c_directive]) -> bool
    ensures { result ≡ are_directives (all_directives bytes.now list.now) }
{
    list.iter().all(|directive| is_directive(bytes, directive))
}

fn are_directives(bytes: &[u8], list: &[yaml_c_directive], span: yaml_c_span) -> bool
    ensures { result ≡ are_directives (directives_at bytes.now list.now span) }
{
    part_at(list, span).is_some_and(|list| are_all_directives(bytes, list))
}

// Whether an event can be given, whatever its directives are: it isn't the empty one, and each of its texts is UTF-8.
fn may_give(event: EventRef<'_>) -> bool
    ensures { result ≡ may_give_beside (borrowed_body event.entry) }
{
    match event {
        EventRef::No => false,
        EventRef::Alias { anchor } => is_readable(anchor),
        EventRef::Scalar {
            anchor,
            tag,
            value,
            ..
        } => is_optional(anchor) && (is_optional(tag) && is_readable(value)),
        EventRef::SequenceStart { anchor, tag, .. } | EventRef::MappingStart { anchor, tag, .. } =>
            { is_optional(anchor) && is_optional(tag) }
        _ => true,
    }
}

// Whether a record means an event that can be given.
fn is_meant(bytes: &[u8], list: &[yaml_c_directive], given: &yaml_c_event) -> bool
    ensures { result ≡ is_event (body_meant bytes.now list.now given.now) }
{
    let Some(event) = event_of(bytes, &[], given) else {
        return false;
    };
    match event {
        EventRef::DocumentStart { .. } => are_directives(bytes, list, given.directives),
        _ => may_give(event),
    }
}

/// Whether each record means an event.
pub fn are_meant(bytes: &[u8], list: &[yaml_c_directive], records: &[yaml_c_event]) -> bool
    ensures { result ≡ is_some (events_meant bytes.now list.now records.now) }
{
    records.iter().all(|record| is_meant(bytes, list, record))
}
