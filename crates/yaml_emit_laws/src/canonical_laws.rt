//! Each clause is a law.

ghost use Rattle.yaml_emit_laws.specs.CanonicalLaws.{CanonicalIsKeyFree, CanonicalWordsAreRead};

/// What canonical text is read as.
pub fn laws_of_canonical_text()
    // In the words of every canonical stream each `:` is after a `?` of its own mapping, with only a node between.
    ensures canonical_is_key_free { CanonicalIsKeyFree }
    // A text of such words one after another is read as their tokens, without fault.
    ensures canonical_words_are_read { CanonicalWordsAreRead }
{}
