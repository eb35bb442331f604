//! In what two events differ, if they do.

ghost use Rattle.std.specs.Prelude.{◌≡◌, option_map};
ghost use Rattle.yaml_parse.specs.Events.{borrowed_body};
ghost use Rattle.yaml_round_content.specs.Content.{content_of, counts_as_plain};
ghost use Rattle.yaml_round_engine.specs.Causes.{IsDocumentStart, IsScalar, Parts, PartsNode, cause_between, is_end};

use crate::content::{same_directives, same_text};
use yaml_parse::EventRef;

/// In what the two events differ at which contents or documents differ: the first of these that
/// holds.
#[derive(Clone, Copy)]
pub enum yaml_cause_t {
    /// The second input has an end there: what begins in the first is in that alone.
    OnlyFirst,
    /// The first input has an end there: what begins in the second is in that alone.
    OnlySecond,
    /// Their kinds.
    Kind,
    /// The version or the directives of a document.
    Directives,
    /// The texts of scalars.
    Value,
    /// The tags.
    Tag,
    /// One scalar without tag is plain, and the other isn't.
    Quotes,
    /// The anchors, or whether there is one, or the names of aliases.
    Anchor,
}

// Whether such an event ends what is open.
fn is_end(body: EventRef<'_>) -> bool
    ensures { result ≡ is_end (content_of (borrowed_body body.entry)) }
{
    match body {
        EventRef::SequenceEnd
        | EventRef::MappingEnd
        | EventRef::DocumentEnd { .. }
        | EventRef::StreamEnd => true,
        _ => false,
    }
}

fn cause_between(first: bool, second: bool) -> yaml_cause_t
    ensures { result ≡ cause_between first second }
{
    match (first, second) {
        (false, true) => yaml_cause_t::OnlyFirst,
        (true, false) => yaml_cause_t::OnlySecond,
        _ => yaml_cause_t::Kind,
    }
}

// Whether a scalar with that tag counts as plain.
fn counts_as_plain(tag: Option<&[u8]>, plain: bool) -> bool
    ensures { result ≡ counts_as_plain (option_map (λ t. t.now) tag.entry) plain }
{
    tag.is_none() && plain
}

// In what two collections of one kind differ, if they do.
fn node_parts(
    anchor: Option<&[u8]>,
    tag: Option<&[u8]>,
    other: Option<&[u8]>,
    other_tag: Option<&[u8]>,
) -> Option<yaml_cause_t>
    ensures { PartsNode (option_map (λ t. t.now) anchor.entry) (option_map (λ t. t.now) tag.entry)
        (option_map (λ t. t.now) other.entry) (option_map (λ t. t.now) other_tag.entry) result }
{
    if same_text(tag, other_tag) {
        (!same_text(anchor, other)).then_some(yaml_cause_t::Anchor)
    } else {
        Some(yaml_cause_t::Tag)
    }
}

// In what two starts of documents differ, if they do.
fn documents_part(a: EventRef<'_>, b: EventRef<'_>) -> Option<yaml_cause_t>
    ensures { IsDocumentStart (borrowed_body a.entry) → IsDocumentStart (borrowed_body b.entry)
        → Parts (content_of (borrowed_body a.entry)) (content_of (borrowed_body b.entry)) result }
{
    match (a, b) {
        (
            EventRef::DocumentStart {
                version_directive,
                tag_directives,
                ..
            },
            EventRef::DocumentStart {
                version_directive: version,
                tag_directives: directives,
                ..
            },
        ) => {
            let same = version_directive == version && same_directives(tag_directives, directives);
            (!same).then_some(yaml_cause_t::Directives)
        }
        _ => None,
    }
}

// In what two scalars differ, if they do.
fn scalars_part(a: EventRef<'_>, b: EventRef<'_>) -> Option<yaml_cause_t>
    ensures { IsScalar (borrowed_body a.entry) → IsScalar (borrowed_body b.entry)
        → Parts (content_of (borrowed_body a.entry)) (content_of (borrowed_body b.entry)) result }
{
    match (a, b) {
        (
            EventRef::Scalar {
                anchor,
                tag,
                value,
                plain_implicit,
                ..
            },
            EventRef::Scalar {
                anchor: y,
                tag: u,
                value: w,
                plain_implicit: q,
                ..
            },
        ) => {
            let same_plain = counts_as_plain(tag, plain_implicit) == counts_as_plain(u, q);
            if value != w {
                Some(yaml_cause_t::Value)
            } else if same_text(tag, u) && !same_plain {
                Some(yaml_cause_t::Quotes)
            } else {
                node_parts(anchor, tag, y, u)
            }
        }
        _ => None,
    }
}

/// In what two normalized events differ; nothing where they have the same content: styles and
/// document marks aside, and of a tagged scalar the flags.
pub(crate) fn parting(a: EventRef<'_>, b: EventRef<'_>) -> Option<yaml_cause_t>
    ensures { Parts (content_of (borrowed_body a.entry)) (content_of (borrowed_body b.entry))
        result }
{
    match (a, b) {
        (EventRef::DocumentStart { .. }, EventRef::DocumentStart { .. }) => documents_part(a, b),
        (EventRef::Scalar { .. }, EventRef::Scalar { .. }) => scalars_part(a, b),
        (EventRef::Alias { anchor: x }, EventRef::Alias { anchor: y }) => {
            (x != y).then_some(yaml_cause_t::Anchor)
        }
        (
            EventRef::SequenceStart { anchor, tag, .. },
            EventRef::SequenceStart {
                anchor: y,
                tag: u,
                ..
            },
        )
        | (
            EventRef::MappingStart { anchor, tag, .. },
            EventRef::MappingStart {
                anchor: y,
                tag: u,
                ..
            },
        ) => node_parts(anchor, tag, y, u),
        (EventRef::No, EventRef::No)
        | (EventRef::StreamStart { .. }, EventRef::StreamStart { .. })
        | (EventRef::StreamEnd, EventRef::StreamEnd)
        | (EventRef::DocumentEnd { .. }, EventRef::DocumentEnd { .. })
        | (EventRef::SequenceEnd, EventRef::SequenceEnd)
        | (EventRef::MappingEnd, EventRef::MappingEnd) => None,
        (first, second) => Some(cause_between(is_end(first), is_end(second))),
    }
}
