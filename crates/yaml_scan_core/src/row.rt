//! The row of lexemes that were read, their notes, and the arena of texts that had to be joined.

ghost use Rattle.std.specs.Prelude.{ℕ, List, ◌≡◌, ◌≢◌, ◌+◌, ◌-◌, ◌<◌, ◌≤◌, ◌^◌, false, [], length, max, nat_lt, OnOk, OnErr, if◌then◌else◌};
ghost use Rattle.yaml_scan_history.specs.declared.lexeme.Entry.{Entry};
ghost use Rattle.yaml_scan_history.specs.Remaining.{SpelledText};
ghost use Rattle.yaml_scan_core.specs.Handed.{Drops};
ghost use Rattle.yaml_scan_core.specs.Shown.{ShowsRow, store_of};
ghost use Rattle.yaml_scan_core.specs.Told.{SpanFits, span_in};
ghost use Rattle.yaml_scan_model.specs.declared.kind.Kind.TheVariants.{BlockEnd};
ghost use Rattle.yaml_scan_core.specs.Rows.{HasRoom, failed, is_set, led, key_marked, row_lexeme, may_lead, pushed, pushed_noted, row_of};

use crate::lexeme::{Lexeme, NOTED, Note, Span, may_lead};
use std::alloc::{AllocError, Global};
use yaml_scan_model::Kind;

/// The lexemes that were read and aren't dropped, the first of which are taken.
#[derive(Drop)]
pub(crate) struct Row {
    pub lexemes: Vec<Lexeme>,
    /// How many of them are taken.
    pub next: usize,
    /// How many of them no later one changes.
    pub settled: usize,
    /// How many lexemes were before them.
    pub dropped: usize,
    pub notes: Vec<Note>,
    pub arena: Vec<u8>,
}

impl Row {
    pub(crate) fn new(alloc: Global) -> Row
        ensures { row_of result ≡ record {
          lexemes = [];
          next = 0;
          settled = 0;
          dropped = 0;
          notes = [];
          arena = [];
        } }
    {
        Row {
            lexemes: Vec::new(alloc),
            next: 0,
            settled: 0,
            dropped: 0,
            notes: Vec::new(alloc),
            arena: Vec::new(alloc),
        }
    }

    /// How many lexemes were read.
    pub(crate) fn count(&self) -> usize
        requires { self.now.dropped + length self.now.lexemes.items < 2 ^ 64 }
        ensures { result ≡ self.now.dropped + length self.now.lexemes.items }
    {
        self.dropped + self.lexemes.len()
    }

    /// How many lexemes wait whose first token no later one changes: the settled ones, or one that isn't, after a BLOCK-END.
    pub(crate) fn waiting(&self) -> usize
        requires { self.now.next ≤ self.now.settled }
        ensures ends { self.now.next < length self.now.lexemes.items
            → result ≡ max (self.now.settled - self.now.next)
            (if nat_lt 0 (row_lexeme (row_of self.now) self.now.next).ends then 1 else 0) }
        ensures none { length self.now.lexemes.items ≤ self.now.next
            → result ≡ self.now.settled - self.now.next }
    {
        let ends = self.next < self.lexemes.len() && self.lexemes[self.next].ends > 0;
        (self.settled - self.next).max(ends as usize)
    }

    /// One lexeme more.
    // In line: put at each lexeme.
    #[inline(always)]
    pub(crate) fn push(&mut self, lexeme: Lexeme) -> Result<(), AllocError>
        ensures ok { OnOk result (row_of self.new ≡ pushed lexeme (row_of self.old)) }
        ensures err { OnErr result (row_of self.new ≡ row_of self.old) }
        ensures more { OnOk result (HasRoom self.new) }
        ensures room { HasRoom self.old → HasRoom self.new }
    {
        // One more than is put: a fault that is after all has room.
        self.lexemes.reserve(2)?;
        self.lexemes.push_reserved(lexeme);
        Ok(())
    }

    /// One lexeme more, with a note.
    pub(crate) fn push_noted(&mut self, lexeme: Lexeme, note: Note) -> Result<(), AllocError>
        ensures ok { OnOk result (row_of self.new ≡ pushed_noted lexeme note (row_of self.old)) }
        ensures err { OnErr result (row_of self.new ≡ row_of self.old) }
        ensures room { HasRoom self.old → HasRoom self.new }
    {
        let number = self.notes.len();
        self.notes.reserve(1)?;
        self.lexemes.reserve(2)?;
        self.lexemes.push_reserved(Lexeme {
            end: number,
            flags: lexeme.flags | NOTED,
            ..lexeme
        });
        self.notes.push_reserved(note);
        Ok(())
    }

    /// The lexeme of that number is a key, before which a mapping opens or nothing.
    pub(crate) fn mark_key(&mut self, number: usize, mapping: bool)
        requires kept { self.old.dropped ≤ number }
        requires read { number - self.old.dropped < length self.old.lexemes.items }
        ensures same { row_of self.new ≡ key_marked number mapping (row_of self.old) }
        ensures room { HasRoom self.old → HasRoom self.new }
    {
        self.lexemes[number - self.dropped].become_key(mapping);
    }

    /// Takes the next token, which may be before a lexeme's own one.
    pub(crate) fn skip_lead(&mut self)
        requires some { self.old.next < length self.old.lexemes.items }
        requires ends { (row_lexeme (row_of self.old) self.old.next).front ≡ BlockEnd
            → 0 < (row_lexeme (row_of self.old) self.old.next).ends }
        ensures own { (row_lexeme (row_of self.old) self.old.next).front
            ≡ (row_lexeme (row_of self.old) self.old.next).kind
            → row_of self.new ≡ record (row_of self.old) { next = self.old.next + 1 } }
        ensures lead { (row_lexeme (row_of self.old) self.old.next).front
            ≢ (row_lexeme (row_of self.old) self.old.next).kind
            → row_of self.new ≡ led (row_of self.old) }
        ensures shows { (t : SpelledText) (es : List Entry) → ShowsRow t (row_of self.old) es
            → ((row_lexeme (row_of self.old) self.old.next).front ≢ BlockEnd
            → self.old.next < self.old.settled) → ShowsRow t (row_of self.new) es }
        ensures room { HasRoom self.old → HasRoom self.new }
    {
        let lexeme = &mut self.lexemes[self.next];
        if lexeme.front == lexeme.kind {
            self.next += 1;
        } else if lexeme.front == Kind::BlockEnd {
            lexeme.ends -= 1;
            lexeme.front = lexeme.first();
        } else if lexeme.front == Kind::Key {
            lexeme.front = lexeme.kind;
        } else {
            lexeme.front = lexeme.behind_start();
        }
    }

    /// Takes the next token, which is of that kind.
    pub(crate) fn skip(&mut self, kind: Kind)
        requires some { self.old.next < length self.old.lexemes.items }
        requires kind { kind ≡ (row_lexeme (row_of self.old) self.old.next).front }
        requires ends { (row_lexeme (row_of self.old) self.old.next).front ≡ BlockEnd
            → 0 < (row_lexeme (row_of self.old) self.old.next).ends }
        requires own { may_lead kind ≡ false → (row_lexeme (row_of self.old) self.old.next).front
            ≡ (row_lexeme (row_of self.old) self.old.next).kind }
        ensures own { (row_lexeme (row_of self.old) self.old.next).front
            ≡ (row_lexeme (row_of self.old) self.old.next).kind
            → row_of self.new ≡ record (row_of self.old) { next = self.old.next + 1 } }
        ensures lead { (row_lexeme (row_of self.old) self.old.next).front
            ≢ (row_lexeme (row_of self.old) self.old.next).kind
            → row_of self.new ≡ led (row_of self.old) }
        ensures shows { (t : SpelledText) (es : List Entry) → ShowsRow t (row_of self.old) es
            → ((row_lexeme (row_of self.old) self.old.next).front ≢ BlockEnd
            → self.old.next < self.old.settled) → ShowsRow t (row_of self.new) es }
        ensures room { HasRoom self.old → HasRoom self.new }
    {
        if may_lead(kind) {
            return self.skip_lead();
        }
        self.next += 1;
    }

    /// Drops the lexemes that are taken, where they are as many as the others: so each is moved once.
    pub(crate) fn drop_taken(&mut self)
        requires shows { (t : SpelledText) × (es : List Entry) × ShowsRow t (row_of self.old) es }
        requires few { self.old.dropped + length self.old.lexemes.items < 2 ^ 64 }
        ensures { Drops self.old self.new }
    {
        let left = self.lexemes.len() - self.next;
        if self.next < left {
            return;
        }
        'moves: for at in 0..left {
            self.lexemes[at] = self.lexemes[self.next + at];
        }
        self.lexemes.truncate(left);
        self.dropped += self.next;
        self.settled -= self.next;
        self.next = 0;
        self.drop_notes();
    }

    /// Drops the notes and their joined texts, unless a lexeme has one.
    fn drop_notes(&mut self)
        ensures { Drops self.old self.new }
    {
        if !self.has_notes() {
            self.notes.truncate(0);
            self.arena.truncate(0);
        }
    }

    /// Whether a lexeme has a note.
    fn has_notes(&self) -> bool
        ensures { result ≡ false → (i : ℕ) → i < length self.now.lexemes.items
            → is_set 8 (row_lexeme (row_of self.now) i) ≡ false }
    {
        'lexemes: for at in 0..self.lexemes.len() {
            if self.lexemes[at].flags & NOTED != 0 {
                return true;
            }
        }
        false
    }

    /// The bytes of a span, of the text or of the arena.
    pub(crate) fn span<'a>(&'a self, text: &'a [u8], span: Span) -> &'a [u8]
        requires { SpanFits (store_of text.now (row_of self.now)) span }
        ensures { result.now ≡ span_in (store_of text.now (row_of self.now)) span }
    {
        if span.joined {
            &self.arena[span.from..span.to]
        } else {
            &text[span.from..span.to]
        }
    }

    /// After the settled lexemes comes the fault. The BLOCK-ENDs before the first of the others were settled with them. Where
    /// there is no other it ends after its start.
    pub(crate) fn fail(&mut self)
        requires settled { self.old.settled ≤ length self.old.lexemes.items }
        requires room { HasRoom self.old }
        ensures { row_of self.new ≡ failed (row_of self.old) }
    {
        let count = self.settled;
        let mut failed = Lexeme::new(Kind::Failed, 0, 0, 1);
        if count < self.lexemes.len() {
            let lost = self.lexemes[count];
            failed = Lexeme::new(Kind::Failed, lost.ends, lost.start, lost.start);
        }
        self.lexemes.truncate(count);
        self.lexemes.push_reserved(failed);
        self.settled = count + 1;
    }
}
