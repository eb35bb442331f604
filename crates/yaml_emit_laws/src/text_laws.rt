//! Each clause is a law.

ghost use Rattle.yaml_emit_laws.specs.TextLaws.{CanonicalTextIsRead, NodesAreWords};

/// What canonical text is read as, word by word and whole.
pub fn laws_of_words()
    // Wherever a text goes on as a node's canonical layout, after words, it goes on with the node's words.
    ensures nodes_are_words { NodesAreWords }
    // The canonical text of documents is read as their tokens, without fault: for all settings and encodings.
    ensures canonical_text_is_read { CanonicalTextIsRead }
{}
