//! Each clause is a law.

ghost use Rattle.yaml_scan_laws.specs.NamesLaws.{TokensAreSpelled, ScannedAreSpelled};

/// How names, handles, prefixes and tags are spelled.
pub fn laws_of_names()
    // In the tokens of every text names, handles, prefixes and tags are well spelled.
    ensures tokens_are_spelled { TokensAreSpelled }
    // So are those of every input, in each encoding, also before a fault.
    ensures scanned_are_spelled { ScannedAreSpelled }
{}
