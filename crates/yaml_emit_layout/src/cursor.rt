//! The place of the next character, and whether the output goes on.

ghost use Rattle.std.specs.Prelude.{◌≡◌, ◌≢◌, true, false};

/// Whether an output goes on.
#[derive(Clone, Copy, PartialEq, Eq)]
pub enum Status {
    Going,
    /// More than the limit was to be written. The bytes up to the limit are.
    Full,
    /// An indentation was to pass 2,147,483,647 columns.
    Deep,
    /// Memory was refused.
    Starved,
}

/// The place of the next character.
#[derive(Clone, Copy, PartialEq, Eq, Debug)]
pub struct Cursor {
    /// Characters since the last line break, from 0.
    pub column: u64,
    /// White space or what opens a flow collection was written last.
    pub white: bool,
    /// The line holds only indentation and block indicators.
    pub bare: bool,
    /// The document's last block scalar keeps its breaks.
    pub kept: bool,
}

impl Status {
    /// Whether the output goes on.
    pub fn is_going(self) -> bool
        ensures going { result ≡ true → self ≡ Status.Going }
        ensures stopped { result ≡ false → self ≢ Status.Going }
    {
        matches!(self, Status::Going)
    }
}
