//! Lexemes.

ghost use Rattle.std.specs.Prelude.{◌≡◌, ◌&&◌, ◌<◌, false, if◌then◌else◌};
ghost use Rattle.yaml_scan_core.specs.Rows.{behind_start, first_kind, keyed, may_lead};

use yaml_scan_model::{Kind, yaml_scalar_style_t};

/// Whether a token of that kind may be before a lexeme's own one.
pub(crate) fn may_lead(kind: Kind) -> bool
    ensures { result ≡ may_lead kind }
{
    matches!(
        kind,
        Kind::BlockEnd | Kind::BlockSequenceStart | Kind::BlockMappingStart | Kind::Key
    )
}

/// A lexeme, and the tokens that it is spelled as: that many BLOCK-ENDs, a block's start, KEY, its own.
///
/// Its own token is from `start` to `end` in the text. One with a note has the note's number in place of its end.
#[derive(Clone, Copy)]
pub struct Lexeme {
    pub start: usize,
    pub end: usize,
    pub ends: u32,
    pub kind: Kind,
    /// The kind of the first of its tokens that isn't taken.
    pub front: Kind,
    pub style: yaml_scalar_style_t,
    pub flags: u8,
}

/// A flag of a lexeme: a block sequence opens before it.
pub const SEQUENCE: u8 = 1;

/// A block mapping opens before it.
pub const MAPPING: u8 = 2;

/// It is a simple key.
pub const KEY: u8 = 4;

/// It has a note.
pub const NOTED: u8 = 8;

/// A part of the text, or of the arena.
#[derive(Clone, Copy)]
pub struct Span {
    pub from: usize,
    pub to: usize,
    pub joined: bool,
}

impl Span {
    /// A part of the text.
    pub(crate) fn of_text(from: usize, to: usize) -> Span
        ensures { result ≡ record { from = from; to = to; joined = false } }
    {
        Span {
            from,
            to,
            joined: false,
        }
    }
}

/// What a lexeme has besides: where its token ends, and its texts. A scalar's value is the second; a tag has handle and suffix,
/// a directive handle and prefix, or both numbers of a version.
#[derive(Clone, Copy)]
pub struct Note {
    pub end: usize,
    pub first: Span,
    pub second: Span,
}

impl Lexeme {
    /// The kind of the first token after a block's start.
    pub(crate) fn behind_start(&self) -> Kind
        ensures { result ≡ behind_start self.now }
    {
        if self.flags & KEY != 0 {
            Kind::Key
        } else {
            self.kind
        }
    }

    /// The kind of the first of its tokens.
    pub(crate) fn first(&self) -> Kind
        ensures { result ≡ first_kind self.now }
    {
        if self.ends > 0 {
            Kind::BlockEnd
        } else if self.flags & SEQUENCE != 0 {
            Kind::BlockSequenceStart
        } else if self.flags & MAPPING != 0 {
            Kind::BlockMappingStart
        } else {
            self.behind_start()
        }
    }
    /// It is a key, before which a mapping opens or nothing.
    pub(crate) fn become_key(&mut self, mapping: bool)
        ensures { self.new ≡ keyed mapping self.old }
    {
        self.flags = self.flags | KEY;
        if mapping {
            self.flags = self.flags | MAPPING;
        }
        self.front = self.first();
    }
}
