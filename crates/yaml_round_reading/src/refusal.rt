//! Tags that aren't UTF-8.

ghost use Rattle.std.specs.Prelude.{◌≡◌};
ghost use Rattle.std.specs.Str.{is_utf8};
ghost use Rattle.yaml_scan.specs.scan_types.Tokens.{token_of};
ghost use Rattle.yaml_scan.specs.scan_types.Faults.{fault_of};
ghost use Rattle.yaml_round_content.specs.Adapted.{spells_text, tag_fault};

use simdutf8::is_utf8;
use yaml_scan::{
    yaml_error_type_t, yaml_fault_t, yaml_mark_t, yaml_origin_t, yaml_token_body_t, yaml_token_t,
};

// Whether the bytes are UTF-8.
// Out of line: the decoder sets up an aligned buffer, and few tags aren't known to be UTF-8.
#[inline(never)]
fn is_text(bytes: &[u8]) -> bool
    ensures { result ≡ is_utf8 bytes.now }
{
    is_utf8(bytes)
}

/// Whether a tag's suffix, or a directive's prefix, is UTF-8. Their escapes spell bytes; all other texts of a session's
/// tokens are UTF-8 as its text is.
pub fn yaml_token_spells_text(token: &yaml_token_t) -> bool
    ensures { result ≡ spells_text (token_of token.now).body }
{
    match &token.body {
        yaml_token_body_t::TagDirective { prefix, .. } => is_text(prefix),
        yaml_token_body_t::Tag { suffix, .. } => is_text(suffix),
        _ => true,
    }
}

/// The fault of a token whose tag isn't UTF-8.
pub fn yaml_tag_fault(mark: yaml_mark_t) -> yaml_fault_t
    ensures { fault_of result ≡ tag_fault mark }
{
    yaml_fault_t {
        kind: yaml_error_type_t::YAML_SCANNER_ERROR,
        problem: "found a tag that is not UTF-8",
        offset: 0,
        value: 0,
        problem_mark: mark,
        context: None,
        context_mark: mark,
        origin: yaml_origin_t::Adapter,
    }
}
