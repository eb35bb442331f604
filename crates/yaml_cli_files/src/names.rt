//! Names that aren't UTF-8.

use std::alloc::{AllocError, Global};

/// Begins the name of a file that isn't UTF-8, which no call can open: what comes after it is the name as people are shown it. No
/// file's name has this character.
pub const UNNAMED: char = '\0';

/// The path of that name after a front. Where the name isn't UTF-8 it begins with `UNNAMED`, and such bytes are shown as `\xff`.
pub fn file_path(alloc: Global, front: &str, name: &[u8]) -> Result<String, AllocError> {
    let mut path = String::new(alloc);
    if str::from_utf8(name).is_err() {
        path.push(UNNAMED)?;
    }
    path.push_str(front)?;
    for piece in name.utf8_chunks() {
        path.push_str(piece.valid())?;
        for byte in piece.invalid() {
            write!(path, "\\x{byte:02x}")?;
        }
    }
    Ok(path)
}

/// A name without what says that it isn't UTF-8.
pub fn bare(name: &str) -> &str {
    name.strip_prefix(UNNAMED).unwrap_or(name)
}
