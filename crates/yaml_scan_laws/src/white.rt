//! Each clause is a law.

ghost use Rattle.yaml_scan_laws.specs.White.{WhiteBegins, WhiteGoesOn, WhiteIsTaken, WhiteIsOver, WhiteIsPassed, WhiteMeets, KeyIsAllowed};

/// White after a lexeme, and what it meets.
pub fn laws_of_white()
    // Where the last lexeme ends before the white, which all do but plain and block scalars.
    ensures white_begins { WhiteBegins }
    // Further white.
    ensures white_goes_on { WhiteGoesOn }
    // The last lexeme has taken the whole white with it, as plain scalars do.
    ensures white_is_taken { WhiteIsTaken }
    // The last lexeme has taken the whole white with it, and no break in it counts, as after
    // directives.
    ensures white_is_over { WhiteIsOver }
    // The last lexeme has taken some of the white, and a key may begin after it, as after block
    // scalars.
    ensures white_is_passed { WhiteIsPassed }
    // What is after white.
    ensures white_meets { WhiteMeets }
    // Whether a key may begin after a lexeme that was read so.
    ensures key_is_allowed { KeyIsAllowed }
{}
