//! Texts of callers: whether they are UTF-8, and copies of them.

ghost use Rattle.std.specs.Prelude.{◌≡◌, ◌↔◌, IsTrue, IsUtf8, IfOk, map, option_map};
ghost use Rattle.yaml_parse_model.specs.Events.{directive_of, text_of};
ghost use Rattle.yaml_parse_model.specs.Constructors.{IsUtf8Option, AreUtf8};

use simdutf8::is_utf8;
use std::alloc::{AllocError, Global};
use yaml_scan_model::yaml_tag_directive_t;

/// Whether a text that may be left out is UTF-8.
pub fn is_utf8_option(text: Option<&[u8]>) -> bool
    ensures { IsTrue result ↔ IsUtf8Option (option_map (λ t. t.now) text.entry) }
{
    match text {
        None => true,
        Some(text) => is_utf8(text),
    }
}

/// Whether the handles and prefixes of `%TAG` directives are UTF-8.
pub fn are_utf8(directives: &[yaml_tag_directive_t]) -> bool
    ensures { IsTrue result ↔ AreUtf8 (map directive_of directives.now) }
{
    for directive in directives {
        if !is_utf8(&directive.handle) || !is_utf8(&directive.prefix) {
            return false;
        }
    }
    true
}

/// A copy of a text that may be left out.
pub fn copy_text_option(alloc: Global, text: Option<&[u8]>) -> Result<Option<Vec<u8>>, AllocError>
    ensures { IfOk result (λ copy. text_of copy ≡ option_map (λ t. t.now) text.entry) }
{
    match text {
        None => Ok(None),
        Some(text) => Ok(Some(Vec::from_slice(alloc, text)?)),
    }
}

// A copy of a `%TAG` directive.
fn copy_directive(
    alloc: Global,
    directive: &yaml_tag_directive_t,
) -> Result<yaml_tag_directive_t, AllocError>
    ensures { IfOk result (λ copy. directive_of copy ≡ directive_of directive.now) }
{
    let handle = Vec::from_slice(alloc, &directive.handle)?;
    let prefix = Vec::from_slice(alloc, &directive.prefix)?;
    Ok(yaml_tag_directive_t { handle, prefix })
}

/// Copies of `%TAG` directives, in order.
pub fn copy_directives(
    alloc: Global,
    directives: &[yaml_tag_directive_t],
) -> Result<Vec<yaml_tag_directive_t>, AllocError>
    ensures { IfOk result (λ copies. map directive_of copies.items
        ≡ map directive_of directives.now) }
{
    let mut copies = Vec::new(alloc);
    for directive in directives {
        let copy = copy_directive(alloc, directive)?;
        copies.push(copy)?;
    }
    Ok(copies)
}
