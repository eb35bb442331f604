//! Each clause is a law.

ghost use Rattle.yaml_scan_laws.specs.Utf8Laws.{CharactersAreWhole, TextHasNoNul, TextIsUtf8, TokensHaveUtf8};

/// Which texts of tokens are UTF-8.
pub fn laws_of_utf8()
    // In a text in UTF-8 all texts of its tokens are UTF-8, but a tag's suffix and a directive's prefix.
    ensures tokens_have_utf8 { TokensHaveUtf8 }
    // The text that a stream's bytes spell is UTF-8.
    ensures text_is_utf8 { TextIsUtf8 }
    // No byte of it is 0.
    ensures text_has_no_nul { TextHasNoNul }
    // In a text in UTF-8 characters begin at its front, after ASCII and breaks, and where lexemes do.
    ensures characters_are_whole { CharactersAreWhole }
{}
