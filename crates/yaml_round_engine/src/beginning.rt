//! Whether an input begins with nothing: its first document has no `---`, and its root is an empty plain scalar without anchor and
//! tag, for which pretty form writes nothing.

ghost use Rattle.std.specs.Prelude.{◌≡◌, ◌||◌, ◌∷◌, List, not, map, option_map};
ghost use Rattle.yaml_parse_model.specs.Events.{borrowed_body, directive_of};
ghost use Rattle.yaml_emit_layout.specs.Content.{Event, emitter_event};
ghost use Rattle.yaml_emit_layout.specs.Nodes.{has_version, has_directives};
ghost use Rattle.yaml_round_content.specs.emit_laws.NodeBodies.{is_bare};
ghost use Rattle.yaml_round_content.specs.Flags.{is_asked_plain};
ghost use Rattle.yaml_round_engine.specs.Beginning as spec;

use yaml_parse_model::EventRef;
use yaml_scan_model::{yaml_scalar_style_t, yaml_tag_directive_t, yaml_version_directive_t};

/// What the events so far show of it.
#[derive(Clone, Copy)]
pub enum Beginning {
    /// None was given.
    Start,
    /// The stream's start was.
    Stream,
    /// And that of a document without `---`.
    Document,
    /// And its root, which is nothing.
    Nothing,
    /// It begins with something.
    Something,
}

pub(crate) fn has_none(
    version: Option<yaml_version_directive_t>,
    directives: &[yaml_tag_directive_t],
) -> bool
    ensures { result ≡ not (has_version version || has_directives
        (map directive_of directives.now)) }
{
    version.is_none() && directives.is_empty()
}

fn is_bare(anchor: Option<&[u8]>, tag: Option<&[u8]>) -> bool
    ensures { result ≡ is_bare (option_map (λ t. t.now) anchor.entry)
        (option_map (λ t. t.now) tag.entry) }
{
    matches!((anchor, tag), (None, None))
}

// Whether plain style is taken where it may be.
fn is_asked_plain(style: yaml_scalar_style_t) -> bool
    ensures { result ≡ is_asked_plain style }
{
    matches!(
        style,
        yaml_scalar_style_t::YAML_ANY_SCALAR_STYLE | yaml_scalar_style_t::YAML_PLAIN_SCALAR_STYLE
    )
}

// After the stream's start.
fn behind_stream(event: EventRef<'_>) -> Beginning
    ensures { (es : List Event) → spec.opens_with_nothing
        (emitter_event (borrowed_body event.entry) ∷ es) ≡ spec.nothing_comes result es }
{
    match event {
        EventRef::DocumentStart {
            version_directive,
            tag_directives,
            implicit,
        } if implicit && has_none(version_directive, tag_directives) => Beginning::Document,
        _ => Beginning::Something,
    }
}

// After the start of a document without `---`.
fn behind_document(event: EventRef<'_>) -> Beginning
    ensures { (es : List Event) → spec.is_nothing_next
        (emitter_event (borrowed_body event.entry) ∷ es) ≡ spec.nothing_comes result es }
{
    match event {
        EventRef::Scalar {
            anchor,
            tag,
            value,
            plain_implicit,
            style,
            ..
        } if is_bare(anchor, tag) => {
            if value.is_empty() && (plain_implicit && is_asked_plain(style)) {
                Beginning::Nothing
            } else {
                Beginning::Something
            }
        }
        _ => Beginning::Something,
    }
}

/// What is known with one more event, normalized.
// Out of line: three events of an input come here.
#[inline(never)]
pub fn behind(beginning: Beginning, event: EventRef<'_>) -> Beginning
    ensures { (es : List Event) → spec.nothing_comes beginning
        (emitter_event (borrowed_body event.entry) ∷ es) ≡ spec.nothing_comes result es }
{
    match beginning {
        Beginning::Start => match event {
            EventRef::StreamStart { .. } => Beginning::Stream,
            _ => Beginning::Something,
        },
        Beginning::Stream => behind_stream(event),
        Beginning::Document => behind_document(event),
        Beginning::Nothing | Beginning::Something => beginning,
    }
}
