//! The parts of an event of a node, borrowed.

ghost use Rattle.std.specs.Prelude.{◌≡◌, option_map, IsUtf8};
ghost use Rattle.yaml_emit_layout.specs.Content.{is_flow_sequence, is_flow_mapping};
ghost use Rattle.yaml_emit_layout.specs.Grammar.{kept_tag};
ghost use Rattle.yaml_emit_layout.specs.Tags.{split_tag, split_of};

use crate::table::DirectiveTable;
use crate::tag::split_tag;
use yaml_emit_layout::SplitTag;
use yaml_scan_types::{yaml_mapping_style_t, yaml_scalar_style_t, yaml_sequence_style_t};

/// What a node may have besides its content.
#[derive(Clone, Copy)]
pub struct Named<'a> {
    pub anchor: Option<&'a [u8]>,
    pub tag: Option<&'a [u8]>,
}

/// A scalar's content: its tag may be left out where it is plain, where it isn't.
#[derive(Clone, Copy)]
pub struct Value<'a> {
    pub value: &'a [u8],
    pub plain: bool,
    pub quoted: bool,
    pub style: yaml_scalar_style_t,
}

/// A tag where it is written: in pretty form one that may be left out isn't.
pub fn kept_tag<'a>(canonical: bool, left_out: bool, tag: Option<&'a [u8]>) -> Option<&'a [u8]>
    ensures { option_map (λ t. t.now) result ≡ kept_tag canonical left_out (option_map
        (λ t. t.now) tag.entry) }
{
    if canonical | !left_out { tag } else { None }
}

/// A tag as a document's directives cut it, where there is one.
pub fn cut_tag_if<'a>(directives: &'a DirectiveTable, tag: Option<&'a [u8]>) -> Option<SplitTag<'a>>
    ensures { option_map split_of result
        ≡ option_map (split_tag directives.now) (option_map (λ t. t.now) tag.entry) }
{
    match tag {
        None => None,
        Some(tag) => Some(split_tag(directives, tag)),
    }
}

/// Whether a sequence's style is flow.
pub fn is_flow_sequence(style: yaml_sequence_style_t) -> bool
    ensures { result ≡ is_flow_sequence style }
{
    matches!(style, yaml_sequence_style_t::YAML_FLOW_SEQUENCE_STYLE)
}

/// Whether a mapping's style is flow.
pub fn is_flow_mapping(style: yaml_mapping_style_t) -> bool
    ensures { result ≡ is_flow_mapping style }
{
    matches!(style, yaml_mapping_style_t::YAML_FLOW_MAPPING_STYLE)
}

/// A text in UTF-8.
pub fn text_in(bytes: &[u8]) -> &str
    requires { IsUtf8 bytes.now }
    ensures { result.now ≡ bytes.now }
{
    // Sound, since it is UTF-8.
    unsafe { str::from_utf8_unchecked(bytes) }
}
