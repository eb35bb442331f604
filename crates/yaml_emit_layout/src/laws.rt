//! Laws of the definitions, as functions that do nothing.

ghost use Rattle.yaml_emit_layout.specs.Laws.{Utf8Encodes};
ghost use Rattle.yaml_emit_layout.specs.Spelling.{QuotedSpells};

/// In UTF-8 the bytes of a text are those of its characters.
pub fn utf8_encodes()
    ensures { Utf8Encodes }
{}

/// What is between double quotes is a spelling of the value: raw characters, escapes, and folds that are read as one space.
pub fn quoted_spells()
    ensures { QuotedSpells }
{}
