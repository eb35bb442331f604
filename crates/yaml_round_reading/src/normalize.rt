//! Events normalized for writing: what the reading leaves to chance is made the same.

ghost use Rattle.std.specs.Prelude.{◌≡◌, option_map};
ghost use Rattle.yaml_parse.specs.Events.{borrowed_body};
ghost use Rattle.yaml_parse.specs.Constructors.{HasUtf8};
ghost use Rattle.yaml_round_content.specs.Normalize.{normalize_body, is_lone_mark};

use yaml_parse::EventRef;

// Whether a scalar is empty and has the tag `!`.
fn is_lone(tag: Option<&[u8]>, value: &[u8]) -> bool
    ensures { result ≡ is_lone_mark (option_map (λ t. t.now) tag.entry) value.now }
{
    match tag {
        Some(tag) => value.is_empty() && tag.len() == 1 && tag[0] == b'!',
        None => false,
    }
}

// An empty scalar with the tag `!` becomes untagged and plain-implicit; where `ends` is set a document's end becomes implicit.
fn normalize(event: &mut EventRef<'_>, ends: bool)
    ensures normalized { borrowed_body event.new ≡ normalize_body ends (borrowed_body event.old) }
    ensures utf8 { HasUtf8 (borrowed_body event.old) → HasUtf8 (borrowed_body event.new) }
{
    match *event {
        EventRef::DocumentEnd { implicit } => {
            *event = EventRef::DocumentEnd {
                implicit: implicit || ends,
            };
        }
        EventRef::Scalar {
            anchor,
            tag,
            value,
            style,
            ..
        } if is_lone(tag, value) => {
            *event = EventRef::Scalar {
                anchor,
                tag: None,
                value,
                plain_implicit: true,
                quoted_implicit: false,
                style,
            };
        }
        _ => (),
    }
}

/// The event normalized: an empty scalar with the tag `!` is untagged and plain-implicit; where `ends` is set every
/// document's end is implicit.
pub fn normalized(event: EventRef<'_>, ends: bool) -> EventRef<'_>
    ensures normalized { borrowed_body result ≡ normalize_body ends (borrowed_body event.entry) }
    ensures utf8 { HasUtf8 (borrowed_body event.entry) → HasUtf8 (borrowed_body result) }
{
    let mut event = event;
    normalize(&mut event, ends);
    event
}
