//! Each function's contract is a law.

ghost use Rattle.yaml_emit_laws.specs.DocLaws.{DocumentsAreRead};

/// Where nodes are walked, the pretty text of documents is read as their tokens, without fault: for all settings of pretty form and
/// all encodings.
pub fn documents_are_read()
    ensures { DocumentsAreRead }
{}
