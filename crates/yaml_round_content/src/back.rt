//! Each clause is a law. Proofs cite laws of lower crates.

ghost use Rattle.yaml_round_content.specs.Back.{CanonIsScanned, CanonReadsBack, CanonTellsContents, CanonicalReadsBack, CanonTellsInputs, CanonIsLaidOutAgain};

/// Canonical text reads back.
pub fn laws_of_reading_back()
    // The canonical text of a content that may be written is scanned, with its encoding detected, as the tokens of the content's
    // documents, without fault.
    ensures canon_is_scanned { CanonIsScanned }
    // Read with its encoding detected, the canonical text of a content that may be written is accepted and says that content.
    ensures canon_reads_back { CanonReadsBack }
    // No two contents that may be written have one canonical text.
    ensures canon_tells_contents { CanonTellsContents }
    // For every input that is accepted, and all settings, the canonical text of what it says is accepted, with its encoding
    // detected, and says exactly that.
    ensures canonical_reads_back { CanonicalReadsBack }
    // Inputs whose contents have one canonical text have one content.
    ensures canon_tells_inputs { CanonTellsInputs }
    // What is laid out for the events of a canonical text is that text again: rewriting it changes no byte.
    ensures canon_is_laid_out_again { CanonIsLaidOutAgain }
{}
