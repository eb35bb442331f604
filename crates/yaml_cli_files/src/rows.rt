//! Tables of words.

/// What the rows have for the word.
pub fn row_of<T: Copy>(rows: &[(&'static str, T)], word: &str) -> Option<T> {
    let row = rows.iter().find(|row| row.0 == word);
    row.map(|row| row.1)
}
