//! Each clause is a law.

ghost use Rattle.yaml_scan_laws.specs.Signs.{SignsCome, MarksCome, PrintedBegins, LevelIsOut};

/// Which word comes at a byte.
pub fn laws_of_signs()
    // Words of one byte come at that byte.
    ensures signs_come { SignsCome }
    // The marks of documents and the stream's end come where they are.
    ensures marks_come { MarksCome }
    // With a printed ASCII character that isn't `#` a lexeme begins.
    ensures printed_begins { PrintedBegins }
    // All words but plain and block scalars are the same in every level.
    ensures level_is_out { LevelIsOut }
{}
