//! Whether parts of events are the same.

ghost use Rattle.std.specs.Prelude.{◌≡◌, ◌↔◌, IsTrue, map, option_map};
ghost use Rattle.yaml_parse.specs.Events.{directive_of};

use yaml_parse::yaml_tag_directive_t;

/// Whether both texts are there and equal, or neither is there.
pub(crate) fn same_text(a: Option<&[u8]>, b: Option<&[u8]>) -> bool
    ensures { IsTrue result ↔ (option_map (λ t. t.now) a.entry ≡ option_map (λ t. t.now) b.entry) }
{
    match (a, b) {
        (None, None) => true,
        (Some(a), Some(b)) => a == b,
        _ => false,
    }
}

fn same_directive(a: &yaml_tag_directive_t, b: &yaml_tag_directive_t) -> bool
    ensures { IsTrue result ↔ (directive_of a.now ≡ directive_of b.now) }
{
    a.handle.as_slice() == b.handle.as_slice() && a.prefix.as_slice() == b.prefix.as_slice()
}

/// Whether the directives are the same, in order.
pub(crate) fn same_directives(a: &[yaml_tag_directive_t], b: &[yaml_tag_directive_t]) -> bool
    ensures { IsTrue result ↔ (map directive_of a.now ≡ map directive_of b.now) }
{
    if a.len() != b.len() {
        return false;
    }
    for (i, directive) in a.iter().enumerate() {
        if !same_directive(directive, &b[i]) {
            return false;
        }
    }
    true
}
