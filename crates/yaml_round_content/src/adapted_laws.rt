//! Each function's contract is a law.

ghost use Rattle.yaml_round_content.specs.AdaptedLaws.{
  AdaptedIsUtf8,
  FrontIsGiven,
  TagIsRefused,
  FaultIsGiven,
};

/// The tokens that a parser takes of a text in UTF-8 have texts in UTF-8.
pub fn adapted_is_utf8()
    ensures { AdaptedIsUtf8 }
{}

/// A token whose tag is UTF-8 is the next one, and the others come after it.
pub fn front_is_given()
    ensures { FrontIsGiven }
{}

/// A tag that isn't UTF-8 ends the tokens.
pub fn tag_is_refused()
    ensures { TagIsRefused }
{}

/// A session's own fault ends them too.
pub fn fault_is_given()
    ensures { FaultIsGiven }
{}
