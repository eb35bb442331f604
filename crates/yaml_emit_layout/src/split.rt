//! A tag, cut.

/// What follows the handle `!`, `!!` or another one, or the whole tag.
#[derive(Clone, Copy)]
pub enum SplitTag<'a> {
    Primary(&'a [u8]),
    Secondary(&'a [u8]),
    Shorthand(&'a [u8], &'a [u8]),
    Verbatim(&'a [u8]),
}
