//! The function's contract is a law.

ghost use Rattle.yaml_round_content.specs.CanonicalTokens.{CanonicalTokensSayContent};

/// Tokens with the bodies of a content's canonical documents are parsed without fault, and their events say that content.
pub fn canonical_tokens_say_content()
    ensures { CanonicalTokensSayContent }
{}
