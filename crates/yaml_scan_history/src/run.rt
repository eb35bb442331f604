//! Runs of bytes that go together.

/// Which bytes go together.
#[derive(Clone, Copy)]
pub enum Run {
    /// `0-9 A-Z a-z _ -`
    Alphas,
    /// `0-9`
    Digits,
    /// Spaces and tabs.
    Blanks,
}
