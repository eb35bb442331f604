//! The open block levels.

ghost use Rattle.std.specs.Prelude.{ℕ, ◌≡◌, ◌+◌, ◌-◌, ◌<◌, ◌^◌, List, [], length, nat_lt, true, OnOk, IfOk};
ghost use Rattle.yaml_scan_history.specs.History.{indent, margin_at, opened};
ghost use Rattle.yaml_scan_core.specs.Margins.{AreLevels, left_of};

use std::alloc::{AllocError, Global};

/// More levels than these and one aren't counted in 32 bits, and are refused as out of memory.
const MOST_LEVELS: usize = 0xFFFF_FFFE;

/// The open block levels, each by its margin: its column and one.
#[derive(Drop)]
pub(crate) struct Levels {
    /// The innermost level's, or 0 where none is open.
    pub margin: usize,
    /// 0 and those of the levels outside of it, the outermost first; nothing where none is open.
    pub outer: Vec<usize>,
}

impl Levels {
    pub(crate) fn new(alloc: Global) -> Levels
        ensures { AreLevels result [] }
    {
        Levels {
            margin: 0,
            outer: Vec::new(alloc),
        }
    }

    /// Closes the levels whose column is at or right of that one, and says how many they are.
    pub(crate) fn close_down_to(&mut self, column: usize) -> u32
        requires { length self.old.outer.items < 2 ^ 32 }
        ensures left { (ls : List ℕ) → AreLevels self.old ls
            → AreLevels self.new (left_of column ls) }
        ensures count { (ls : List ℕ) → AreLevels self.old ls
            → result ≡ length ls - length (left_of column ls) }
        ensures fewer { result + length self.new.outer.items ≡ length self.old.outer.items }
    {
        let mut ends = 0;
        'levels: while column < self.margin {
            let Some(margin) = self.outer.pop() else {
                return ends;
            };
            self.margin = margin;
            ends += 1;
        }
        ends
    }

    /// Opens a level at a column that is right of the innermost one's, and says whether it does.
    pub(crate) fn open(&mut self, column: usize) -> Result<bool, AllocError>
        requires { column < 2 ^ 63 }
        ensures levels { OnOk result ((ls : List ℕ) → AreLevels self.old ls
            → AreLevels self.new (opened true (margin_at column) ls)) }
        ensures opens { IfOk result (λ b. (ls : List ℕ) → AreLevels self.old ls
            → b ≡ nat_lt (indent ls) (margin_at column)) }
        ensures few { OnOk result (length self.old.outer.items < 2 ^ 32
            → length self.new.outer.items < 2 ^ 32) }
    {
        if column < self.margin {
            return Ok(false);
        }
        if self.outer.len() > MOST_LEVELS {
            return Err(AllocError);
        }
        self.outer.reserve(1)?;
        self.outer.push_reserved(self.margin);
        self.margin = column + 1;
        Ok(true)
    }
}
