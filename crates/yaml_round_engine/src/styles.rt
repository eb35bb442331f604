//! The normal form that people read, event by event: each is given the style that its content alone decides.

ghost use Rattle.std.specs.Prelude.{◌≡◌, Bool, IsUtf8, map, option_map};
ghost use Rattle.yaml_parse_model.specs.Constructors.{HasUtf8, IsUtf8Option};
ghost use Rattle.yaml_parse_model.specs.Events.{borrowed_body, directive_of};
ghost use Rattle.yaml_parse_model.specs.Events as event;
ghost use Rattle.yaml_emit_layout.specs.Content.{emitter_event};
ghost use Rattle.yaml_round_engine.specs.Styles as spec;

use crate::beginning::has_none;
use yaml_parse_model::EventRef;
use yaml_scan_model::{
    yaml_encoding_t, yaml_mapping_style_t, yaml_scalar_style_t, yaml_sequence_style_t,
    yaml_tag_directive_t, yaml_version_directive_t,
};
use yaml_scan_types::has_break;

/// Where an event is.
#[derive(Clone, Copy)]
pub enum OpeningPosition {
    /// Before all documents.
    Before,
    /// It is the root of a first document that needs no `---`.
    Starts,
    /// Elsewhere.
    Within,
}

fn ends_in_space(value: &[u8]) -> bool
    ensures { result ≡ spec.ends_in_space value.now }
{
    if value.is_empty() {
        false
    } else {
        value[value.len() - 1] == b' '
    }
}

// The style of a value that isn't plain, where it has a break or has none.
fn quoted_style(value: &[u8], broken: bool) -> yaml_scalar_style_t
    ensures { result ≡ spec.quoted_by broken value.now }
{
    if broken && !ends_in_space(value) {
        yaml_scalar_style_t::YAML_LITERAL_SCALAR_STYLE
    } else {
        yaml_scalar_style_t::YAML_SINGLE_QUOTED_SCALAR_STYLE
    }
}

// The style of a value that counts as plain: it is plain, except for what would be nothing where the text begins.
fn plain_style(at: OpeningPosition, anchor: Option<&[u8]>, value: &[u8]) -> yaml_scalar_style_t
    ensures { result ≡ spec.plain_style at (option_map (λ t. t.now) anchor.entry) value.now }
{
    match (at, anchor) {
        (OpeningPosition::Starts, None) if value.is_empty() => {
            yaml_scalar_style_t::YAML_SINGLE_QUOTED_SCALAR_STYLE
        }
        _ => yaml_scalar_style_t::YAML_PLAIN_SCALAR_STYLE,
    }
}

// The style of a scalar.
fn style_of(
    at: OpeningPosition,
    anchor: Option<&[u8]>,
    tag: Option<&[u8]>,
    value: &[u8],
    plain: bool,
) -> yaml_scalar_style_t
    ensures { result ≡ spec.style_of at (option_map (λ t. t.now) anchor.entry)
        (option_map (λ t. t.now) tag.entry) value.now plain }
{
    match tag {
        None if plain => plain_style(at, anchor, value),
        None => quoted_style(value, has_break(value)),
        Some(_) if has_break(value) => quoted_style(value, true),
        Some(_) => yaml_scalar_style_t::YAML_PLAIN_SCALAR_STYLE,
    }
}

// A scalar with the style of its place, whatever it was written in: its tag may be left out where it has none.
fn restyled_scalar<'e>(
    at: OpeningPosition,
    anchor: Option<&'e [u8]>,
    tag: Option<&'e [u8]>,
    value: &'e [u8],
    plain: bool,
) -> EventRef<'e>
    ensures styled { (quoted : Bool) (style : yaml_scalar_style_t)
        → emitter_event (borrowed_body result) ≡ spec.styled (spec.position_of at)
        (event.scalar (option_map (λ t. t.now) anchor.entry) (option_map (λ t. t.now) tag.entry)
        value.now plain quoted style) }
    ensures utf8 { IsUtf8Option (option_map (λ t. t.now) anchor.entry)
        → IsUtf8Option (option_map (λ t. t.now) tag.entry) → IsUtf8 value.now
        → HasUtf8 (borrowed_body result) }
{
    EventRef::Scalar {
        anchor,
        tag,
        value,
        plain_implicit: tag.is_none() && plain,
        quoted_implicit: tag.is_none() && !plain,
        style: style_of(at, anchor, tag, value, plain),
    }
}

// Whether the document needs no `---`: it is the first, and has no directives.
fn is_unmarked(
    at: OpeningPosition,
    version: Option<yaml_version_directive_t>,
    directives: &[yaml_tag_directive_t],
) -> bool
    ensures { result ≡ spec.is_unmarked at version (map directive_of directives.now) }
{
    matches!(at, OpeningPosition::Before) && has_none(version, directives)
}

/// Where the next event is.
pub fn position_after(event: EventRef<'_>, at: OpeningPosition) -> OpeningPosition
    ensures { spec.position_of result
        ≡ spec.behind (spec.position_of at) (borrowed_body event.entry) }
{
    match (at, event) {
        (
            OpeningPosition::Before,
            EventRef::DocumentStart {
                version_directive,
                tag_directives,
                ..
            },
        ) if has_none(version_directive, tag_directives) => OpeningPosition::Starts,
        (OpeningPosition::Before, EventRef::DocumentStart { .. }) => OpeningPosition::Within,
        (OpeningPosition::Before, _) => OpeningPosition::Before,
        _ => OpeningPosition::Within,
    }
}

/// A normalized event, which is there, with the style and the marks that what it says decides. It is long by its patterns: an arm
/// for each kind.
// Out of line: canonical form and pretty form, whose events go by the same function, don't come here.
#[inline(never)]
pub fn restyle(event: EventRef<'_>, at: OpeningPosition) -> EventRef<'_>
    ensures styled { emitter_event (borrowed_body result)
        ≡ spec.styled (spec.position_of at) (borrowed_body event.entry) }
    ensures utf8 { HasUtf8 (borrowed_body event.entry) → HasUtf8 (borrowed_body result) }
{
    match event {
        EventRef::StreamStart { .. } => EventRef::StreamStart {
            encoding: yaml_encoding_t::YAML_ANY_ENCODING,
        },
        EventRef::DocumentStart {
            version_directive,
            tag_directives,
            ..
        } => EventRef::DocumentStart {
            version_directive,
            tag_directives,
            implicit: is_unmarked(at, version_directive, tag_directives),
        },
        EventRef::DocumentEnd { .. } => EventRef::DocumentEnd { implicit: true },
        EventRef::Scalar {
            anchor,
            tag,
            value,
            plain_implicit,
            ..
        } => restyled_scalar(at, anchor, tag, value, plain_implicit),
        EventRef::SequenceStart { anchor, tag, .. } => EventRef::SequenceStart {
            anchor,
            tag,
            implicit: tag.is_none(),
            style: yaml_sequence_style_t::YAML_BLOCK_SEQUENCE_STYLE,
        },
        EventRef::MappingStart { anchor, tag, .. } => EventRef::MappingStart {
            anchor,
            tag,
            implicit: tag.is_none(),
            style: yaml_mapping_style_t::YAML_BLOCK_MAPPING_STYLE,
        },
        _ => event,
    }
}
