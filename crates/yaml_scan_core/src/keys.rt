//! Simple keys: the candidate of each flow level.

ghost use Rattle.std.specs.Prelude.{ℕ, ◌≡◌, ◌+◌, ◌-◌, ◌<◌, ◌≤◌, ◌^◌, ◌&&◌, ◌==◌, if◌then◌else◌, false, List, length, OnOk, OnErr, IfSome, Some, None, option_map};
ghost use Rattle.yaml_scan_history.specs.History as history;
ghost use Rattle.yaml_scan_model.specs.scan_types.Marks.{mark_at};
ghost use Rattle.yaml_scan_core.specs.Lines.{IsLineStart};
ghost use Rattle.yaml_scan_core.specs.Scanning.{HasSettled, MaySettle, Tests, candidate_in, no_colon, required_in_column};
ghost use Rattle.yaml_scan_core.specs.Candidates.{AreStale, AreWithin, cancelled_at, closed, fresh_key, HasRoom, given_up, index_in, inner, key_at, key_mark, key_view, late, left, number_in, opened, required_at, saved, stack_of};

use crate::fault::Refused;
use crate::scanner::Scanner;
use std::alloc::AllocError;
use yaml_scan_model::{Context, Problem};

/// At most that many bytes after its start a key's `:` may come.
pub(crate) const KEY_BYTES: usize = 1024;

/// A lexeme that may be a key: its number among all lexemes, and where it starts.
#[derive(Clone, Copy)]
pub(crate) struct SimpleKey {
    pub possible: bool,
    pub number: usize,
    pub index: usize,
    pub column: usize,
}

impl SimpleKey {
    /// Whether it may still become a key at a place of the line that starts at the other.
    fn is_fresh(&self, at: usize, line: usize) -> bool
        requires { self.now.index < 2 ^ 63 }
        ensures { (text : List ℕ) → IsLineStart text at line
            → result ≡ history.is_fresh (key_mark text self.now) (mark_at text at) }
    {
        line <= self.index && at <= self.index + KEY_BYTES
    }

    /// Its number, where there is one that isn't stale at a place of that line.
    fn found(&self, at: usize, line: usize) -> Option<usize>
        requires { self.now.index < 2 ^ 63 }
        ensures { (text : List ℕ) → IsLineStart text at line
            → result ≡ number_in (fresh_key text self.now (mark_at text at)) }
    {
        if self.possible && self.is_fresh(at, line) {
            return Some(self.number);
        }
        None
    }
}

/// There is none.
const NO_KEY: SimpleKey = SimpleKey {
    possible: false,
    number: 0,
    index: 0,
    column: 0,
};

/// The candidates of the open flow levels, the block level's first, and what is known of them.
#[derive(Drop)]
pub(crate) struct Keys {
    pub levels: Vec<SimpleKey>,
    /// No candidate of that many of the outermost levels is possible, or all are stale. It only grows except for changes of the
    /// innermost level, so each candidate is passed once.
    pub passed: usize,
    /// The block level's candidate is possible, and its `:` must come.
    pub required: bool,
}

impl Keys {
    pub(crate) fn new(levels: Vec<SimpleKey>) -> Keys
        ensures { result ≡ record {
          levels = levels;
          passed = 0;
          required = false;
        } }
    {
        Keys {
            levels,
            passed: 0,
            required: false,
        }
    }

    /// How many brackets are open.
    // In line: one subtraction.
    #[inline(always)]
    pub(crate) fn depth(&self) -> usize
        requires { 0 < length self.now.levels.items }
        ensures { result ≡ inner (stack_of self.now) }
    {
        self.levels.len() - 1
    }

    /// The candidate of the innermost level.
    fn innermost(&self) -> SimpleKey
        requires { 0 < length self.now.levels.items }
        ensures { result ≡ key_at (stack_of self.now) (inner (stack_of self.now)) }
    {
        self.levels[self.levels.len() - 1]
    }

    /// The candidate of the innermost level is another. At a block level, `required` says whether
    /// its `:` must come.
    pub(crate) fn save(&mut self, key: SimpleKey, required: bool)
        requires { 0 < length self.old.levels.items }
        ensures value { stack_of self.new ≡ saved key required (stack_of self.old) }
        ensures room { HasRoom self.old → HasRoom self.new }
    {
        let depth = self.depth();
        if depth == 0 {
            self.required = required;
        }
        self.levels[depth] = key;
        self.passed = self.passed.min(depth);
    }

    /// The innermost level has no candidate.
    pub(crate) fn give_up(&mut self)
        requires { 0 < length self.old.levels.items }
        ensures { stack_of self.new ≡ given_up (stack_of self.old) }
    {
        let depth = self.depth();
        if depth == 0 {
            self.required = false;
        }
        self.levels[depth].possible = false;
    }

    /// Makes room for a level more.
    pub(crate) fn reserve(&mut self) -> Result<(), AllocError>
        ensures same { stack_of self.new ≡ stack_of self.old }
        ensures room { OnOk result (HasRoom self.new) }
    {
        self.levels.reserve(1)
    }

    /// A level without candidate is the innermost one.
    pub(crate) fn open(&mut self)
        requires { HasRoom self.old }
        ensures { stack_of self.new ≡ opened (stack_of self.old) }
    {
        self.levels.push_reserved(NO_KEY);
    }

    /// The innermost level, which isn't the block level, is left.
    pub(crate) fn close(&mut self)
        requires { 1 < length self.old.levels.items }
        ensures { stack_of self.new ≡ closed (stack_of self.old) }
    {
        let depth = self.depth();
        self.levels.truncate(depth);
        self.passed = self.passed.min(depth);
    }

    /// The lexeme here is no key, or closes the innermost level: its candidate is given up, or the level is left.
    pub(crate) fn leave(&mut self)
        requires { 0 < length self.old.levels.items }
        ensures { stack_of self.new ≡ left (stack_of self.old) }
    {
        if self.depth() > 0 {
            self.close();
        } else {
            self.give_up();
        }
    }

    /// Where the required candidate starts.
    pub(crate) fn due(&self) -> Option<usize>
        requires { 0 < length self.now.levels.items }
        ensures { (text : List ℕ) → result ≡ index_in (required_at text (stack_of self.now)) }
    {
        if self.required {
            return Some(self.levels[0].index);
        }
        None
    }

    /// Where the required candidate starts, if it is stale at a place of that line.
    pub(crate) fn late(&self, at: usize, line: usize) -> Option<usize>
        requires some { 0 < length self.now.levels.items }
        requires within { AreWithin (2 ^ 63 - 1) (stack_of self.now) }
        ensures { (text : List ℕ) → IsLineStart text at line
            → result ≡ index_in (late (required_at text (stack_of self.now)) (mark_at text at)) }
    {
        if !self.required || self.levels[0].is_fresh(at, line) {
            return None;
        }
        Some(self.levels[0].index)
    }

    /// The candidate of which a `:` at a place of that line makes a key.
    pub(crate) fn find(&self, at: usize, line: usize) -> Option<SimpleKey>
        requires some { 0 < length self.now.levels.items }
        requires within { AreWithin (2 ^ 63 - 1) (stack_of self.now) }
        ensures key { IfSome result
            (λ k. k ≡ key_at (stack_of self.now) (inner (stack_of self.now))) }
        ensures number { (text : List ℕ) → IsLineStart text at line
            → option_map (λ k. k.number) result ≡ number_in
            (fresh_key text (key_at (stack_of self.now) (inner (stack_of self.now)))
            (mark_at text at)) }
    {
        let key = self.innermost();
        if key.found(at, line).is_none() {
            return None;
        }
        Some(key)
    }

    /// Passes candidates that are stale at a place of that line, and returns the number of the
    /// first of the others.
    pub(crate) fn earliest(&mut self, at: usize, line: usize) -> Option<usize>
        requires few { self.old.passed ≤ length self.old.levels.items }
        requires within { AreWithin (2 ^ 63 - 1) (stack_of self.old) }
        ensures same { stack_of self.new ≡ record (stack_of self.old) { passed = self.new.passed } }
        ensures few { self.new.passed ≤ length self.new.levels.items }
        ensures stale { (text : List ℕ) → IsLineStart text at line
            → AreStale text (stack_of self.old) (mark_at text at)
            → AreStale text (stack_of self.new) (mark_at text at) }
        ensures value { (text : List ℕ) → IsLineStart text at line → result ≡ number_in
            (fresh_key text (key_at (stack_of self.new) self.new.passed) (mark_at text at)) }
        ensures last { result ≡ None → self.new.passed ≡ length self.new.levels.items }
    {
        'levels: while self.passed < self.levels.len() {
            let found = self.levels[self.passed].found(at, line);
            if found.is_some() {
                return found;
            }
            self.passed += 1;
        }
        None
    }
}

impl Scanner<'_> {
    /// The required key that starts there didn't come up to the other place.
    pub(crate) fn no_colon(&mut self, start: usize, at: usize) -> Refused
        ensures { self.new ≡ record self.old { fault = Some (no_colon start at) } }
    {
        self.refuse_at(Problem::NoColon, Context::SimpleKey, start, at)
    }

    /// Refuses where a required candidate is stale.
    pub(crate) fn check_required(&mut self) -> Result<(), Refused>
        requires some { 0 < length self.old.keys.levels.items }
        requires within { AreWithin (2 ^ 63 - 1) (stack_of self.old.keys) }
        ensures same { self.new ≡ record self.old { fault = self.new.fault } }
        ensures kept { OnOk result (self.new ≡ self.old) }
        ensures tests { (text : List ℕ) → IsLineStart text self.old.at self.old.line
            → Tests (index_in (late (required_at text (stack_of self.old.keys))
            (mark_at text self.old.at))) self.old.at self.new.fault result }
    {
        match self.keys.late(self.at, self.line) {
            Some(start) => Err(self.no_colon(start, self.at)),
            None => Ok(()),
        }
    }

    /// Refuses where the lexeme here cancels a required candidate.
    pub(crate) fn check_cancelled(&mut self) -> Result<(), Refused>
        requires { 0 < length self.old.keys.levels.items }
        ensures same { self.new ≡ record self.old { fault = self.new.fault } }
        ensures kept { OnOk result (self.new ≡ self.old) }
        ensures tests { (text : List ℕ)
            → Tests (index_in (cancelled_at text (stack_of self.old.keys))) self.old.at
            self.new.fault result }
    {
        if self.in_flow() {
            return Ok(());
        }
        match self.keys.due() {
            Some(start) => Err(self.no_colon(start, self.at)),
            None => Ok(()),
        }
    }

    /// Refuses where the lexeme here takes the place of a required candidate.
    pub(crate) fn check_replaced(&mut self) -> Result<(), Refused>
        requires { 0 < length self.old.keys.levels.items }
        ensures same { self.new ≡ record self.old { fault = self.new.fault } }
        ensures kept { OnOk result (self.new ≡ self.old) }
        ensures tests { (text : List ℕ) → Tests (if self.old.key_allowed
            then index_in (cancelled_at text (stack_of self.old.keys)) else None) self.old.at
            self.new.fault result }
    {
        if self.key_allowed {
            self.check_cancelled()
        } else {
            Ok(())
        }
    }

    /// The lexeme here as a candidate, where one may begin here.
    pub(crate) fn candidate(&self) -> SimpleKey
        requires count { self.now.row.dropped + length self.now.row.lexemes.items < 2 ^ 64 }
        requires place { self.now.line + self.now.wide ≤ self.now.at }
        ensures { result ≡ candidate_in self.now }
    {
        SimpleKey {
            possible: self.key_allowed,
            number: self.row.count(),
            index: self.at,
            column: self.column(),
        }
    }

    /// Whether the `:` of a candidate that starts in that column must come.
    fn is_required(&self, column: usize) -> bool
        requires some { 0 < length self.now.keys.levels.items }
        requires few { column < 2 ^ 63 }
        ensures { result ≡ required_in_column column self.now }
    {
        !self.in_flow() && self.levels.margin == column + 1
    }

    /// Refuses the candidate where it is required, and stale where its lexeme ends, in a line that starts at the other place.
    pub(crate) fn check_fresh(
        &mut self,
        key: SimpleKey,
        end: usize,
        line: usize,
    ) -> Result<(), Refused>
        requires some { 0 < length self.old.keys.levels.items }
        requires within { key.index < 2 ^ 63 }
        requires few { key.column < 2 ^ 63 }
        ensures same { self.new ≡ record self.old { fault = self.new.fault } }
        ensures kept { OnOk result (self.new ≡ self.old) }
        ensures tests { (text : List ℕ) → IsLineStart text end line
            → Tests (if key.possible && required_in_column key.column self.old
            then index_in (late (Some (key_mark text key)) (mark_at text end)) else None) end
            self.new.fault result }
    {
        if key.possible && self.is_required(key.column) && !key.is_fresh(end, line) {
            return Err(self.no_colon(key.index, end));
        }
        Ok(())
    }

    /// The candidate is that of the innermost level, where one may begin.
    pub(crate) fn save_key(&mut self, key: SimpleKey)
        requires some { 0 < length self.old.keys.levels.items }
        requires few { key.column < 2 ^ 63 }
        ensures same { self.new ≡ record self.old { keys = self.new.keys } }
        ensures keys { stack_of self.new.keys ≡ (if key.possible
            then saved key (required_in_column key.column self.old) (stack_of self.old.keys)
            else stack_of self.old.keys) }
        ensures room { HasRoom self.old.keys → HasRoom self.new.keys }
    {
        if key.possible {
            let required = self.is_required(key.column);
            self.keys.save(key, required);
        }
    }

    /// Says how many lexemes no later one changes: those before the earliest candidate that isn't stale at a place of that line.
    pub(crate) fn settle(&mut self, at: usize, line: usize)
        requires { (n : ℕ) × MaySettle self.old at line n }
        ensures same { self.new ≡ record self.old {
          keys = self.new.keys;
          row = record self.old.row { settled = self.new.row.settled };
        } }
        ensures keys { stack_of self.new.keys
            ≡ record (stack_of self.old.keys) { passed = self.new.keys.passed } }
        ensures settled { (n : ℕ) → MaySettle self.old at line n → HasSettled self.old self.new n }
    {
        self.row.settled = match self.keys.earliest(at, line) {
            Some(number) => number - self.row.dropped,
            None => self.row.lexemes.len(),
        };
    }
}
