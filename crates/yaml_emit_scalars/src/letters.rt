//! The characters of a text, from the front.

ghost use Rattle.std.specs.Prelude.{◌≡◌, ◌∷◌, ◌++◌, [], IsUtf8, MatchOption, IfSome};
ghost use Rattle.std.specs.Str.{chars};
ghost use Rattle.yaml_emit_layout.specs.Text.{is_break};
ghost use Rattle.yaml_emit_layout.specs.Quoted.{first, is_empty};

use yaml_emit_output::split_first;

/// The last character, after what goes before it.
pub(crate) fn split_last(text: &str) -> Option<(&str, char)>
    ensures letters { MatchOption result (chars text.now ≡ []) (λ p. chars text.now ≡ chars p.0.now
        ++ p.1 ∷ []) }
    ensures utf8 { IfSome result (λ p. IsUtf8 p.0.now) }
{
    let mut letters = text.chars();
    match letters.next_back() {
        None => None,
        Some(c) => Some((letters.as_str(), c)),
    }
}

/// The first character, or U+0000 at the end.
pub(crate) fn first(text: &str) -> char
    ensures { result ≡ first (chars text.now) }
{
    match split_first(text) {
        None => '\0',
        Some((c, _)) => c,
    }
}

/// Whether there is no character.
pub(crate) fn is_empty(text: &str) -> bool
    ensures { result ≡ is_empty (chars text.now) }
{
    matches!(split_first(text), None)
}

/// LF, CR, NEL, LS and PS end a line.
pub(crate) fn is_break(c: char) -> bool
    ensures { result ≡ is_break c }
{
    let n = c as u32;
    n == 10 || n == 13 || n == 0x85 || n == 0x2028 || n == 0x2029
}
