//! What an emitter expects, and its open collections.

ghost use Rattle.std.specs.Prelude.{◌≡◌, ◌≢◌, ◌<◌, ◌^◌, Bool, [], None, Some, true, false, OnOk, OnErr};
ghost use Rattle.yaml_emit_layout.specs.State.{top_of, outer_of, place_at};
ghost use Rattle.yaml_emit_core.specs.Levels.{phase_of, level_of, state_in, state_by, stack, AreNarrow, IsPlain, place_of, state_behind, is_open, is_between, is_first, is_item, is_key, is_further, is_entry, is_behind_simple};

use std::alloc::{AllocError, Global};
use std::marker::Model;
use yaml_emit_layout::{Expected, Level as Open, Phase};

/// What comes next.
#[derive(Clone, Copy, PartialEq, Eq)]
pub enum State {
    StreamStart,
    /// The first document, or the stream's end.
    FirstDocumentStart,
    DocumentStart,
    /// A document's root.
    DocumentContent,
    /// The first item of a sequence, or its end.
    FirstItem,
    Item,
    /// The first key of a mapping, or its end.
    FirstKey,
    Key,
    /// The value of a simple key.
    SimpleValue,
    Value,
    DocumentEnd,
    End,
}

/// A level: what comes next in it, whether it is a flow collection, and its indentation in columns. Outside all collections is
/// the stream's.
#[derive(Clone, Copy)]
pub struct Level {
    pub state: State,
    pub flow: bool,
    pub indent: u64,
}

/// The innermost level, and the open collections round it, the outermost first.
#[derive(Drop)]
pub struct Levels {
    top: Level,
    outer: Vec<Open>,
}

impl Model for Levels {
    ghost use Rattle.yaml_emit_core.specs.Levels.{Stack, stack_of, IsLevels};

    ghost Value = { Stack };

    ghost view = { stack_of };

    ghost invariant = { IsLevels };
}

impl State {
    /// What comes after a node, by whether it was a simple key.
    pub fn behind(self, simple: bool) -> State
        ensures { result ≡ state_behind self simple }
    {
        match self {
            State::FirstItem | State::Item => State::Item,
            State::FirstKey | State::Key => if simple {
                State::SimpleValue
            } else {
                State::Value
            },
            State::SimpleValue | State::Value => State::Key,
            _ => State::DocumentEnd,
        }
    }

    /// Whether a key may come.
    pub fn awaits_key(self) -> bool
        ensures { result ≡ is_key self }
    {
        matches!(self, State::FirstKey | State::Key)
    }

    /// Whether a node of a collection comes.
    pub fn is_inside(self) -> bool
        ensures { result ≡ is_open (phase_of self) }
    {
        self.is_entry() | self.is_behind_simple()
    }

    /// The phase of an open collection.
    pub fn phase(self) -> Option<Phase>
        ensures { result ≡ phase_of self }
    {
        match self {
            State::FirstItem => Some(Phase::Items(true)),
            State::Item => Some(Phase::Items(false)),
            State::FirstKey => Some(Phase::Keys(true)),
            State::Key => Some(Phase::Keys(false)),
            State::SimpleValue => Some(Phase::Value(true)),
            State::Value => Some(Phase::Value(false)),
            _ => None,
        }
    }

    /// Whether a document or the stream's end comes.
    pub fn is_between(self) -> bool
        ensures { result ≡ is_between self }
    {
        matches!(self, State::FirstDocumentStart | State::DocumentStart)
    }

    /// Whether the first document comes, or the stream's end.
    pub fn is_first(self) -> bool
        ensures { result ≡ is_first self }
    {
        matches!(self, State::FirstDocumentStart)
    }

    /// Whether an item comes.
    pub fn is_item(self) -> bool
        ensures { result ≡ is_item self }
    {
        matches!(self, State::FirstItem | State::Item)
    }

    /// Whether an item, a key, or the value of a key that isn't simple comes.
    pub fn is_entry(self) -> bool
        ensures { result ≡ is_entry self }
    {
        match self {
            State::FirstItem | State::Item | State::FirstKey | State::Key | State::Value => true,
            _ => false,
        }
    }

    /// Whether the value of a simple key comes.
    pub fn is_behind_simple(self) -> bool
        ensures { result ≡ is_behind_simple self }
    {
        matches!(self, State::SimpleValue)
    }

    /// Whether entries of its collection went before, and another may come.
    pub fn is_further(self) -> bool
        ensures { result ≡ is_further self }
    {
        matches!(self, State::Item | State::Key)
    }
}

impl Levels {
    ghost use Rattle.yaml_emit_core.specs.Levels.{Stack, stepped, opened};

    /// No collection is open.
    pub fn new(alloc: Global) -> Levels
        ensures { result ≡ record { state = State.StreamStart; levels = [] } }
    {
        Levels::resumed(State::StreamStart, None, Vec::new(alloc))
    }

    /// That collection is the innermost one, and those are open round it, the outermost first; or none is, and something else comes.
    pub fn resumed(state: State, innermost: Option<Open>, outer: Vec<Open>) -> Levels
        requires outside { phase_of state ≡ None }
        requires narrow { AreNarrow (stack innermost outer.items) }
        ensures { result ≡ record {
          state = state_by innermost state;
          levels = stack innermost
              outer.items;
        } }
    {
        let mut outer = outer;
        match innermost {
            Some(open) => Levels {
                top: level_in(open),
                outer,
            },
            None => {
                outer.clear();
                Levels {
                    top: outside(state),
                    outer,
                }
            }
        }
    }

    /// The innermost open collection.
    pub fn innermost(&self) -> Option<Open>
        ensures { result ≡ top_of self.now.levels }
    {
        open_of(self.top)
    }

    /// The innermost level.
    pub fn top(&self) -> &Level
        ensures state { result.now.state ≡ self.now.state }
        ensures level { level_of result.now ≡ top_of self.now.levels }
        ensures narrow { result.now.indent < 2 ^ 31 }
        ensures plain { IsPlain result.now }
    {
        &self.top
    }

    /// What is expected, by whether the last document ended implicitly.
    pub fn place(&self, unended: bool) -> Expected
        ensures { result ≡ place_of self.now.state unended }
    {
        match self.top.state {
            State::StreamStart => Expected::StreamStart,
            State::FirstDocumentStart => Expected::Documents(true, unended),
            State::DocumentStart => Expected::Documents(false, unended),
            State::DocumentEnd => Expected::DocumentEnd,
            State::End => Expected::End,
            _ => Expected::Node,
        }
    }

    /// A node came, which was a simple key or not.
    pub fn step(&mut self, simple: bool)
        ensures { self.new ≡ stepped self.old simple }
    {
        self.top.state = self.top.state.behind(simple);
    }

    /// Outside of collections something else comes next.
    pub fn turn(&mut self, state: State)
        requires outside { self.old.levels ≡ [] }
        requires outer { phase_of state ≡ None }
        ensures { self.new ≡ record { state = state; levels = [] } }
    {
        self.top.state = state;
    }

    /// A collection opens after the step to it; refused only when out of memory.
    pub fn push(&mut self, level: Level) -> Result<(), AllocError>
        requires open { phase_of level.state ≢ None }
        requires narrow { level.indent < 2 ^ 31 }
        ensures opened { OnOk result (self.new ≡ opened self.old level) }
        ensures refused { OnErr result (self.new ≡ self.old) }
    {
        match open_of(self.top) {
            Some(open) => {
                self.outer.push(open)?;
                self.top = level;
                Ok(())
            }
            None => {
                self.top = level;
                Ok(())
            }
        }
    }

    /// The innermost collection closes.
    pub fn pop(&mut self)
        ensures levels { self.new.levels ≡ outer_of self.old.levels }
        ensures place { (unended : Bool) → place_of self.new.state unended
            ≡ place_at (top_of self.new.levels) }
    {
        match self.outer.pop() {
            Some(open) => self.top = level_in(open),
            None => self.top = outside(State::DocumentEnd),
        }
    }

    /// The open collections round the innermost one, the outermost first.
    pub fn outer(&self) -> &[Open]
        ensures { stack (top_of self.now.levels) result.now ≡ self.now.levels }
    {
        &self.outer
    }
}

// The stream's level.
fn outside(state: State) -> Level
    ensures { result ≡ record { state = state; flow = false; indent = 0 } }
{
    Level {
        state,
        flow: false,
        indent: 0,
    }
}

// A level as an open collection.
fn open_of(level: Level) -> Option<Open>
    ensures { result ≡ level_of level }
{
    match level.state.phase() {
        None => None,
        Some(phase) => Some(Open {
            phase,
            flow: level.flow,
            indent: level.indent,
        }),
    }
}

fn state_in(phase: Phase) -> State
    ensures { result ≡ state_in phase }
{
    match phase {
        Phase::Items(fresh) => if fresh { State::FirstItem } else { State::Item },
        Phase::Keys(fresh) => if fresh { State::FirstKey } else { State::Key },
        Phase::Value(simple) => if simple {
            State::SimpleValue
        } else {
            State::Value
        },
    }
}

// An open collection as a level.
fn level_in(open: Open) -> Level
    ensures { result ≡ record {
      state = state_in open.phase;
      flow = open.flow;
      indent =
          open.indent;
    } }
{
    Level {
        state: state_in(open.phase),
        flow: open.flow,
        indent: open.indent,
    }
}
