//! Each clause is a law.

ghost use Rattle.yaml_scan_laws.specs.Keys.{KeyBegins, KeyGoesOn, KeyEnds};

/// Simple keys of several words, step by step.
pub fn laws_of_keys()
    // The first word of a key, which ends on its line, is held. At the column of the innermost level
    // its `:` is owed.
    ensures key_begins { KeyBegins }
    // A further word of a key, on its line and near.
    ensures key_goes_on { KeyGoesOn }
    // The `:` of a key marks the key's entry, and opens its level where it is right of the
    // innermost one.
    ensures key_ends { KeyEnds }
{}
