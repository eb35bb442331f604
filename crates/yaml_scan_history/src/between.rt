//! What is between lexemes: blanks, comments and breaks (YAML 1.1, 5.2, 6.2 and 6.3).

/// What is at a place between lexemes.
#[derive(Clone, Copy)]
pub enum GapSpot {
    /// A blank that is skipped, a comment, or U+FEFF at the start of the text.
    Blank,
    Break,
    /// What is not skipped: a lexeme, a tab that may not be there, or the end.
    Lexeme,
}
