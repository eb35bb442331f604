//! A tag, cut by the directives of a document.

ghost use Rattle.std.specs.Prelude.{◌≡◌, ◌<◌, length, drop, true, not, ◌&&◌};
ghost use Rattle.yaml_emit_layout.specs.Tags.{split_tag, split_by, split_of, defaults, directive_for, has_shorter_prefix};

use crate::prefixes::has_shorter_prefix;
use crate::table::DirectiveTable;
use yaml_emit_layout::SplitTag;
use yaml_parse_model::SECONDARY_PREFIX;

// Whether a handle that isn't defined begins the tag.
// Inlined: the prefix is known, and with it its length.
#[inline(always)]
fn stands_for(prefix: &[u8], defined: bool, tag: &[u8]) -> bool
    ensures value { result ≡ (has_shorter_prefix prefix.now tag.now && not defined) }
    ensures inside { result ≡ true → length prefix.now < length tag.now }
{
    has_shorter_prefix(prefix, tag) && !defined
}

#[tactic(auto, using(crate::proofs::TableLemmas::rest_of_slice))]
fn suffix_behind<'a>(prefix: &[u8], tag: &'a [u8]) -> &'a [u8]
    requires { length prefix.now < length tag.now }
    ensures { result.now ≡ drop (length prefix.now) tag.now }
{
    &tag[prefix.len()..]
}

// By the two handles that need no directive, where none defines them.
fn split_by_default<'a>(directives: &DirectiveTable, tag: &'a [u8]) -> SplitTag<'a>
    ensures { split_of result ≡ split_by (directive_for (defaults directives.now) tag.now) tag.now }
{
    if stands_for(b"!", directives.defines_primary(), tag) {
        SplitTag::Primary(suffix_behind(b"!", tag))
    } else if stands_for(SECONDARY_PREFIX, directives.defines_secondary(), tag) {
        SplitTag::Secondary(suffix_behind(SECONDARY_PREFIX, tag))
    } else {
        SplitTag::Verbatim(tag)
    }
}

/// A tag as it is cut by a document's directives, in order, and then by the two handles that need none.
// Out of line: most nodes have no tag.
#[inline(never)]
pub fn split_tag<'a>(directives: &'a DirectiveTable, tag: &'a [u8]) -> SplitTag<'a>
    ensures { split_of result ≡ split_tag directives.now tag.now }
{
    match directives.first_for(tag) {
        Some(directive) => SplitTag::Shorthand(
            &directive.handle,
            suffix_behind(&directive.prefix, tag),
        ),
        None => split_by_default(directives, tag),
    }
}
