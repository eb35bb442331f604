//! Lexemes that carry nothing, and the block levels that they open and close.

ghost use Rattle.std.specs.Prelude.{ℕ, ◌≡◌, ◌+◌, ◌-◌, ◌<◌, ◌≤◌, ◌^◌, ◌||◌, ◌&&◌, not, nat_lt, length, List, None, OnOk, IfOk, if◌then◌else◌};
ghost use Rattle.yaml_scan_history.specs.declared.kind.Kind.TheVariants as kinds;
ghost use Rattle.yaml_scan_history.specs.History.{indent, margin_at, opened};
ghost use Rattle.yaml_scan_core.specs.Candidates.{AreWithin, index_in, inner, key_at, required_at, stack_of};
ghost use Rattle.yaml_scan_core.specs.Margins.{AreLevels};
ghost use Rattle.yaml_scan_core.specs.Rows.{bare};
ghost use Rattle.yaml_scan_core.specs.Scanning.{FindsKey, IsCloser, IsMark, IsOpener, Reads, FindsNone, StandsAs, StandsAt, TestsOf, history_of, read_as, refusal_at};

use crate::fault::Refused;
use crate::keys::SimpleKey;
use crate::lexeme::{Lexeme, MAPPING, SEQUENCE};
use crate::scanner::Scanner;
use std::alloc::AllocError;
use yaml_scan_history::Kind as LexemeKind;
use yaml_scan_model::{Context, Kind, Problem, yaml_scalar_style_t};

impl Lexeme {
    /// A lexeme that carries nothing.
    pub(crate) fn new(kind: Kind, ends: u32, start: usize, end: usize) -> Lexeme
        ensures { result ≡ bare kind ends start end 0 }
    {
        Lexeme {
            start,
            end,
            ends,
            kind,
            front: if ends > 0 { Kind::BlockEnd } else { kind },
            style: yaml_scalar_style_t::YAML_ANY_SCALAR_STYLE,
            flags: 0,
        }
    }

    /// The same, of one byte, before which the level of that flag opens, or nothing.
    fn opening(kind: Kind, ends: u32, start: usize, flag: u8, opens: bool) -> Lexeme
        requires { start + 1 < 2 ^ 64 }
        ensures { result ≡ bare kind ends start (start + 1) (if opens then flag else 0) }
    {
        let mut lexeme = Lexeme::new(kind, ends, start, start + 1);
        if opens {
            lexeme.flags = flag;
        }
        lexeme.front = lexeme.first();
        lexeme
    }
}

impl Scanner<'_> {
    /// Opens a block level at a column that is right of the innermost one's, and says whether it does. In brackets none opens.
    fn open_level(&mut self, column: usize) -> Result<bool, AllocError>
        requires some { 0 < length self.old.keys.levels.items }
        requires few { column < 2 ^ 63 }
        ensures same { self.new ≡ record self.old { levels = self.new.levels } }
        ensures levels { OnOk result ((ls : List ℕ) → AreLevels self.old.levels ls
            → AreLevels self.new.levels (opened (not (nat_lt 0 (inner (stack_of self.old.keys))))
            (margin_at column) ls)) }
        ensures opens { IfOk result (λ b. (ls : List ℕ) → AreLevels self.old.levels ls
            → b ≡ (not (nat_lt 0 (inner (stack_of self.old.keys)))
            && nat_lt (indent ls) (margin_at column))) }
        ensures few { OnOk result (length self.old.levels.outer.items < 2 ^ 32
            → length self.new.levels.outer.items < 2 ^ 32) }
    {
        if self.in_flow() {
            return Ok(false);
        }
        self.levels.open(column)
    }

    /// Refuses a `-`, `?` or `:` outside brackets where no key is allowed.
    fn check_allowed(&mut self, problem: Problem) -> Result<(), Refused>
        requires { 0 < length self.old.keys.levels.items }
        ensures same { self.new ≡ record self.old { fault = self.new.fault } }
        ensures kept { OnOk result (self.new ≡ self.old) }
        ensures tests { TestsOf (nat_lt 0 (inner (stack_of self.old.keys)) || self.old.key_allowed)
            (refusal_at problem self.old.at) self.new.fault result }
    {
        if self.in_flow() || self.key_allowed {
            return Ok(());
        }
        Err(self.refuse_at(problem, Context::Nothing, self.at, self.at))
    }

    /// `[` or `{`.
    pub(crate) fn open_flow(&mut self, read: LexemeKind, kind: Kind) -> Result<(), Refused>
        requires opener { IsOpener kind }
        requires read { read ≡ read_as kind }
        requires stands { StandsAt read self.old (history_of self.old) }
        ensures { Reads self.old self.new (history_of self.old) result }
    {
        let ends = self.close_levels(read);
        self.check_replaced()?;
        let key = self.candidate();
        self.keys.reserve()?;
        self.row
            .push(Lexeme::new(kind, ends, self.at, self.at + 1))?;
        self.save_key(key);
        self.keys.open();
        self.at += 1;
        self.key_allowed = true;
        Ok(())
    }

    /// `]` or `}`: where no bracket is open it closes none.
    pub(crate) fn close_flow(&mut self, read: LexemeKind, kind: Kind) -> Result<(), Refused>
        requires closer { IsCloser kind }
        requires read { read ≡ read_as kind }
        requires stands { StandsAt read self.old (history_of self.old) }
        ensures { Reads self.old self.new (history_of self.old) result }
    {
        let ends = self.close_levels(read);
        self.check_cancelled()?;
        self.row
            .push(Lexeme::new(kind, ends, self.at, self.at + 1))?;
        self.keys.leave();
        self.at += 1;
        self.key_allowed = false;
        Ok(())
    }

    /// `,`
    pub(crate) fn flow_entry(&mut self) -> Result<(), Refused>
        requires { StandsAt kinds.FlowEntry self.old (history_of self.old) }
        ensures { Reads self.old self.new (history_of self.old) result }
    {
        let ends = self.close_levels(LexemeKind::FlowEntry);
        self.check_cancelled()?;
        self.row
            .push(Lexeme::new(Kind::FlowEntry, ends, self.at, self.at + 1))?;
        self.keys.give_up();
        self.at += 1;
        self.key_allowed = true;
        Ok(())
    }

    /// `-`
    pub(crate) fn block_entry(&mut self) -> Result<(), Refused>
        requires { StandsAt kinds.BlockEntry self.old (history_of self.old) }
        ensures { Reads self.old self.new (history_of self.old) result }
    {
        let ends = self.close_levels(LexemeKind::BlockEntry);
        self.check_allowed(Problem::SequenceEntryNotAllowed)?;
        self.check_cancelled()?;
        let opens = self.open_level(self.column())?;
        self.row.push(Lexeme::opening(Kind::BlockEntry, ends, self.at, SEQUENCE, opens))?;
        self.keys.give_up();
        self.at += 1;
        self.key_allowed = true;
        Ok(())
    }

    /// `?`
    pub(crate) fn key(&mut self) -> Result<(), Refused>
        requires { StandsAt kinds.KeyMark self.old (history_of self.old) }
        ensures { Reads self.old self.new (history_of self.old) result }
    {
        let ends = self.close_levels(LexemeKind::KeyMark);
        self.check_allowed(Problem::KeyNotAllowed)?;
        self.check_cancelled()?;
        let opens = self.open_level(self.column())?;
        self.row
            .push(Lexeme::opening(Kind::Key, ends, self.at, MAPPING, opens))?;
        self.keys.give_up();
        self.at += 1;
        self.key_allowed = !self.in_flow();
        Ok(())
    }

    /// `:`, which makes the open candidate a key, or is after none.
    pub(crate) fn value_mark(&mut self) -> Result<(), Refused>
        requires { StandsAt kinds.ValueMark self.old (history_of self.old) }
        ensures { Reads self.old self.new (history_of self.old) result }
    {
        let ends = self.close_levels(LexemeKind::ValueMark);
        match self.keys.find(self.at, self.line) {
            Some(key) => self.value_of(key, ends),
            None => self.value_alone(ends),
        }
    }

    /// The `:` of a key.
    fn value_of(&mut self, key: SimpleKey, ends: u32) -> Result<(), Refused>
        requires stands { StandsAs kinds.ValueMark self.old (history_of self.old) ends }
        requires found { FindsKey key self.old (history_of self.old) }
        ensures { Reads self.old self.new (history_of self.old) result }
    {
        let mapping = self.open_level(key.column)?;
        self.row
            .push(Lexeme::new(Kind::Value, ends, self.at, self.at + 1))?;
        self.row.mark_key(key.number, mapping);
        self.keys.give_up();
        self.at += 1;
        self.key_allowed = false;
        Ok(())
    }

    /// A `:` after no key.
    fn value_alone(&mut self, ends: u32) -> Result<(), Refused>
        requires stands { StandsAs kinds.ValueMark self.old (history_of self.old) ends }
        requires none { FindsNone self.old (history_of self.old) }
        ensures { Reads self.old self.new (history_of self.old) result }
    {
        self.check_allowed(Problem::ValueNotAllowed)?;
        let opens = self.open_level(self.column())?;
        self.row.push(Lexeme::opening(Kind::Value, ends, self.at, MAPPING, opens))?;
        self.at += 1;
        self.key_allowed = !self.in_flow();
        Ok(())
    }

    /// `---` or `...`
    pub(crate) fn document_mark(&mut self, read: LexemeKind, kind: Kind) -> Result<(), Refused>
        requires mark { IsMark kind }
        requires read { read ≡ read_as kind }
        requires stands { StandsAt read self.old (history_of self.old) }
        ensures { Reads self.old self.new (history_of self.old) result }
    {
        let ends = self.close_levels(read);
        self.check_cancelled()?;
        self.row
            .push(Lexeme::new(kind, ends, self.at, self.at + 3))?;
        self.keys.give_up();
        self.at += 3;
        self.key_allowed = false;
        Ok(())
    }

    /// The end, which is on a line of its own: no required key is left.
    pub(crate) fn stream_end(&mut self) -> Result<(), Refused>
        requires { StandsAt kinds.StreamEnd self.old (history_of self.old) }
        ensures { Reads self.old self.new (history_of self.old) result }
    {
        let ends = self.close_levels(LexemeKind::StreamEnd);
        let place = self.end_place();
        match self.due_at(place) {
            Some(start) => return Err(self.no_colon(start, place)),
            None => {}
        }
        self.row
            .push(Lexeme::new(Kind::StreamEnd, ends, place, place))?;
        self.keys.give_up();
        self.ended = true;
        Ok(())
    }

    /// Where the required candidate starts that is lost at the stream's end: in brackets the one that is stale on a line of its own.
    fn due_at(&self, place: usize) -> Option<usize>
        requires { 0 < length self.now.keys.levels.items }
        ensures { (text : List ℕ) → result ≡ (if nat_lt 0 (inner (stack_of self.now.keys))
            && not (nat_lt self.now.at place) then None
            else index_in (required_at text (stack_of self.now.keys))) }
    {
        if self.in_flow() && !(place > self.at) {
            return None;
        }
        self.keys.due()
    }

    /// The place of the end, on a line of its own.
    fn end_place(&self) -> usize
        requires inside { self.now.at < 2 ^ 63 }
        requires place { self.now.line + self.now.wide ≤ self.now.at }
        ensures { result ≡ (if nat_lt 0 (self.now.at - self.now.line - self.now.wide)
            then self.now.at + 1 else self.now.at) }
    {
        if self.column() > 0 {
            self.at + 1
        } else {
            self.at
        }
    }
}
