//! Each clause is a law.

ghost use Rattle.yaml_emit_laws.specs.Printing.{PrintableIsOfCharacters};
ghost use Rattle.yaml_emit_laws.specs.QuotedLaws.{KeysStayInLine, QuotedIsReadBack, QuotedTextIsReadBack, SingleSpellingReads, SpellingReads};

/// Quoted scalars are read back.
pub fn laws_of_quotes()
    // A spelling between double quotes is read as its meaning, wherever it is.
    ensures spelling_reads { SpellingReads }
    // So is one between single quotes, where no single quote is after.
    ensures single_spelling_reads { SingleSpellingReads }
    // What an emitter writes for a value between double quotes is read as the value.
    ensures quoted_is_read_back { QuotedIsReadBack }
    // So is a double quoted scalar's text, after the space before it.
    ensures quoted_text_is_read_back { QuotedTextIsReadBack }
    // As a simple key, double quoted text stays in its line.
    ensures keys_stay_in_line { KeysStayInLine }
    // The byte classes call a character printable exactly where its code point is.
    ensures printable_is_of_characters { PrintableIsOfCharacters }
{}
