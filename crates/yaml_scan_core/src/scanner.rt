//! The scanner's state, and one step of it.

ghost use Rattle.std.specs.Prelude.{IfOk, ℕ, ◌≡◌, ◌+◌, ◌-◌, ◌<◌, ◌≤◌, ◌^◌, ◌&&◌, ◌||◌, ◌==◌, not, true, false, length, nat_lt, Some, None, List, if◌then◌else◌};
ghost use Rattle.yaml_scan_model.specs.scan_types.Ascii as ascii;
ghost use Rattle.yaml_scan_model.specs.scan_types.Marks.{byte, column_at, is_blank_or_end};
ghost use Rattle.yaml_scan_history.specs.declared.kind.Kind.TheVariants as kinds;
ghost use Rattle.yaml_scan_model.specs.scan_types.Classes.{is_bom};
ghost use Rattle.yaml_scan_history.specs.History.{keeps};
ghost use Rattle.yaml_scan_history.specs.Words.{kind_at};
ghost use Rattle.yaml_scan_text.specs.White.{is_thrice};
ghost use Rattle.yaml_scan_core.specs.Asked.{Starts};
ghost use Rattle.yaml_scan_core.specs.Candidates.{inner, stack_of};
ghost use Rattle.yaml_scan_core.specs.Handed.{HandsOn};
ghost use Rattle.yaml_scan_core.specs.Rows.{HasRoom, IsThere, failed, row_of};
ghost use Rattle.yaml_scan_core.specs.Scanning.{Finds, IsDecoded, IsGoing, IsPlace, MayBreak, Passes, PassesOne, Reads, Rests, Shows, StandsAs, StandsAt, StaysAt, Steps, gap_there, history_of, read_by};
ghost use Rattle.yaml_scan_core.specs.Waiting.{Needs, ReadsOne};

use crate::fault::{Fault, Refused};
use crate::keys::Keys;
use crate::levels::Levels;
use crate::lexeme::Lexeme;
use crate::row::Row;
use crate::text::{
    break_width, byte, continuing, is_blank_or_end, is_thrice, line_end, skip_spaces,
};
use std::alloc::{AllocError, Global};
use yaml_scan_history::Kind as LexemeKind;
use yaml_scan_model::{Context, Kind, Problem, yaml_encoding_t};

/// After that many bytes of joined texts no more are read at once.
const LONG_TEXT: usize = 4096;

/// A scanner of a text: what it has read waits in its row.
#[derive(Drop)]
pub struct Scanner<'a> {
    pub(crate) text: &'a [u8],
    pub(crate) encoding: yaml_encoding_t,
    /// The place that is reached.
    pub(crate) at: usize,
    /// Where its line starts.
    pub(crate) line: usize,
    /// How many bytes between these continue a character.
    pub(crate) wide: usize,
    /// A simple key may begin here.
    pub(crate) key_allowed: bool,
    pub(crate) keys: Keys,
    pub(crate) levels: Levels,
    pub(crate) row: Row,
    /// How many settled lexemes are read at once.
    pub(crate) batch: usize,
    /// The stream's end or the fault was read.
    pub(crate) ended: bool,
    pub(crate) fault: Option<Fault>,
}

impl<'a> Scanner<'a> {
    /// A scanner before a decoded text, below 2^63 bytes, which reads `batch` lexemes at once: with one, none sooner than it is
    /// needed. The error is out of memory.
    pub fn new(
        alloc: Global,
        text: &'a [u8],
        encoding: yaml_encoding_t,
        batch: usize,
    ) -> Result<Scanner<'a>, AllocError>
        requires long { length text.now < 2 ^ 63 }
        requires decoded { IsDecoded text.now }
        requires some { 0 < batch }
        ensures { IfOk result (λ s. Starts encoding text.now batch s) }
    {
        let mut keys = Keys::new(Vec::new(alloc));
        keys.reserve()?;
        keys.open();
        let mut row = Row::new(alloc);
        row.push(Lexeme::new(Kind::StreamStart, 0, 0, 0))?;
        row.settled = 1;
        Ok(Scanner {
            text,
            encoding,
            at: 0,
            line: 0,
            wide: 0,
            key_allowed: true,
            keys,
            levels: Levels::new(alloc),
            row,
            batch,
            ended: false,
            fault: None,
        })
    }

    /// Whether a bracket is open.
    pub(crate) fn in_flow(&self) -> bool
        requires { 0 < length self.now.keys.levels.items }
        ensures { result ≡ nat_lt 0 (inner (stack_of self.now.keys)) }
    {
        self.keys.depth() > 0
    }

    /// The column of the place that is reached.
    pub(crate) fn column(&self) -> usize
        requires { self.now.line + self.now.wide ≤ self.now.at }
        ensures { result ≡ self.now.at - self.now.line - self.now.wide }
    {
        self.at - self.line - self.wide
    }

    /// Refuses the lexeme that starts there, for what is at the other place.
    // Out of line: it is rare, and callers stay small.
    #[cold]
    #[inline(never)]
    pub(crate) fn refuse_at(
        &mut self,
        problem: Problem,
        context: Context,
        start: usize,
        at: usize,
    ) -> Refused
        ensures { self.new ≡ record self.old {
          fault = Some record {
            problem = problem;
            context = context;
            start = start;
            at = at;
          };
        } }
    {
        self.fault = Some(Fault {
            problem,
            context,
            start,
            at,
        });
        Refused
    }

    /// Reads on, that many lexemes at once, until as many are settled, or to the end.
    // Out of line: mostly the next token is known.
    #[inline(never)]
    pub fn read_on(&mut self)
        requires { IsGoing self.old }
        ensures rests { Rests self.new }
        ensures hands { HandsOn self.old self.new }
        ensures waits { self.new.ended ≡ false → 0 < self.new.batch
            → IsThere (row_of self.new.row) }
        ensures text { self.new.text.now ≡ self.old.text.now }
        ensures needs { self.old.batch ≡ 1 → Needs self.old self.new }
    {
        self.row.drop_taken();
        'batches: while !self.ended && self.row.waiting() < self.batch {
            self.read_batch();
        }
    }

    /// Reads that many lexemes, or less after a long text, and settles those before the earliest open candidate.
    fn read_batch(&mut self)
        requires shows { Shows self.old (history_of self.old) }
        requires some { 0 < read_by self.old }
        requires more { self.old.ended ≡ false }
        ensures rests { Rests self.new }
        ensures hands { HandsOn self.old self.new }
        ensures further { self.new.ended ≡ false → read_by self.old < read_by self.new }
        ensures text { self.new.text.now ≡ self.old.text.now }
        ensures one { self.old.batch ≡ 1 → ReadsOne self.old self.new }
    {
        let start = self.row.count();
        'steps: loop {
            let at = self.at;
            let line = self.line;
            if self.step().is_err() {
                self.settle(at, line);
                self.fail();
                return;
            }
            if self.ended {
                self.row.settled = self.row.lexemes.len();
                return;
            }
            if self.batch <= self.row.count() - start || LONG_TEXT < self.row.arena.len() {
                self.settle(self.at, self.line);
                return;
            }
        }
    }

    /// The tokens end by the fault.
    fn fail(&mut self)
        requires settled { self.old.row.settled ≤ length self.old.row.lexemes.items }
        requires room { HasRoom self.old.row }
        ensures same { self.new ≡ record self.old { ended = true; row = self.new.row } }
        ensures row { row_of self.new.row ≡ failed (row_of self.old.row) }
    {
        self.ended = true;
        self.row.fail();
    }

    /// Reads one lexeme. Where it refuses, the candidates are those as it began.
    fn step(&mut self) -> Result<(), Refused>
        requires shows { Shows self.old (history_of self.old) }
        requires some { 0 < read_by self.old }
        requires more { self.old.ended ≡ false }
        ensures { Steps self.old self.new (history_of self.old) result }
    {
        let kind = self.stand()?;
        self.lexeme(kind)?;
        self.check_required()
    }

    /// Past the gap here, up to a lexeme, whose kind it returns.
    fn stand(&mut self) -> Result<LexemeKind, Refused>
        requires shows { Shows self.old (history_of self.old) }
        requires some { 0 < read_by self.old }
        requires more { self.old.ended ≡ false }
        ensures { Finds self.old self.new (history_of self.old) result }
    {
        self.skip_gap();
        self.check_required()?;
        match self.kind_here() {
            Some(kind) => Ok(kind),
            None => Err(self.refuse_at(
                Problem::NoTokenStart,
                Context::NextToken,
                self.at,
                self.at,
            )),
        }
    }

    /// Closes the block levels right of the place here, all where what is here is outside them, and says how many they
    /// are. In brackets none is.
    pub(crate) fn close_levels(&mut self, kind: LexemeKind) -> u32
        requires { StandsAt kind self.old (history_of self.old) }
        ensures same { self.new ≡ record self.old { levels = self.new.levels } }
        ensures stands { StandsAs kind self.new (history_of self.new) result }
    {
        if self.in_flow() {
            return 0;
        }
        let kept = self.margin_kept(kind);
        self.levels.close_down_to(kept)
    }

    /// The greatest margin that a lexeme of that kind here leaves open.
    fn margin_kept(&self, kind: LexemeKind) -> usize
        requires long { length self.now.text.now < 2 ^ 63 }
        requires place { IsPlace self.now.text.now self.now.at self.now.line self.now.wide }
        ensures { result ≡ keeps kind (column_at self.now.text.now self.now.at) }
    {
        if kind.is_outside() {
            0
        } else {
            self.column() + 1
        }
    }

    /// Reads the lexeme of that kind, which is here.
    // Each kind closes levels for itself: so what shows the kind leads to its arm.
    fn lexeme(&mut self, kind: LexemeKind) -> Result<(), Refused>
        requires { StandsAt kind self.old (history_of self.old) }
        ensures { Reads self.old self.new (history_of self.old) result }
    {
        match kind {
            LexemeKind::StreamEnd => self.stream_end(),
            LexemeKind::DocumentStart => self.document_mark(kind, Kind::DocumentStart),
            LexemeKind::DocumentEnd => self.document_mark(kind, Kind::DocumentEnd),
            LexemeKind::FlowSequenceStart => self.open_flow(kind, Kind::FlowSequenceStart),
            LexemeKind::FlowMappingStart => self.open_flow(kind, Kind::FlowMappingStart),
            LexemeKind::FlowSequenceEnd => self.close_flow(kind, Kind::FlowSequenceEnd),
            LexemeKind::FlowMappingEnd => self.close_flow(kind, Kind::FlowMappingEnd),
            LexemeKind::FlowEntry => self.flow_entry(),
            LexemeKind::BlockEntry => self.block_entry(),
            LexemeKind::KeyMark => self.key(),
            LexemeKind::ValueMark => self.value_mark(),
            LexemeKind::Directive | LexemeKind::Literal | LexemeKind::Folded => {
                self.line_word(kind)
            }
            LexemeKind::Plain => self.key_word(LexemeKind::Plain),
            LexemeKind::SingleQuoted => self.key_word(LexemeKind::SingleQuoted),
            LexemeKind::DoubleQuoted => self.key_word(LexemeKind::DoubleQuoted),
            LexemeKind::Alias => self.key_word(LexemeKind::Alias),
            LexemeKind::Anchor => self.key_word(LexemeKind::Anchor),
            LexemeKind::Tag => self.key_word(LexemeKind::Tag),
            LexemeKind::StreamStart => Err(Refused),
        }
    }

    /// The kind of what is here.
    #[tactic(auto, using(crate::proofs::SpotLemmas::other_kind))]
    fn kind_here(&self) -> Option<LexemeKind>
        requires some { 0 < length self.now.keys.levels.items }
        requires long { length self.now.text.now < 2 ^ 63 }
        requires place { IsPlace self.now.text.now self.now.at self.now.line self.now.wide }
        ensures { result ≡ kind_at (nat_lt 0 (inner (stack_of self.now.keys))) self.now.text.now
            self.now.at }
    {
        match byte(self.text, self.at) {
            0 => Some(LexemeKind::StreamEnd),
            b'[' => Some(LexemeKind::FlowSequenceStart),
            b'{' => Some(LexemeKind::FlowMappingStart),
            b']' => Some(LexemeKind::FlowSequenceEnd),
            b'}' => Some(LexemeKind::FlowMappingEnd),
            b',' => Some(LexemeKind::FlowEntry),
            b'*' => Some(LexemeKind::Alias),
            b'&' => Some(LexemeKind::Anchor),
            b'!' => Some(LexemeKind::Tag),
            b'\'' => Some(LexemeKind::SingleQuoted),
            b'"' => Some(LexemeKind::DoubleQuoted),
            b'-' => Some(self.hyphen_kind()),
            b'?' => Some(self.mark_kind(LexemeKind::KeyMark)),
            b':' => Some(self.mark_kind(LexemeKind::ValueMark)),
            b'|' => (!self.in_flow()).then_some(LexemeKind::Literal),
            b'>' => (!self.in_flow()).then_some(LexemeKind::Folded),
            b'%' => (self.column() == 0).then_some(LexemeKind::Directive),
            b'.' => Some(self.dot_kind()),
            b'\t' | b' ' | b'#' | b'@' | b'`' => None,
            b'\n' | b'\r' | 0xC2 | 0xE2 => {
                (break_width(self.text, self.at) == 0).then_some(LexemeKind::Plain)
            }
            _ => Some(LexemeKind::Plain),
        }
    }

    /// The kind of what begins with the `-` here.
    #[tactic(auto, using(crate::proofs::FirstLemmas::hyphen_entry, crate::proofs::FirstLemmas::hyphen_mark, crate::proofs::FirstLemmas::hyphen_plain))]
    fn hyphen_kind(&self) -> LexemeKind
        requires place { IsPlace self.now.text.now self.now.at self.now.line self.now.wide }
        requires few { self.now.at < 2 ^ 63 }
        requires byte { byte self.now.text.now self.now.at ≡ ascii.hyphen }
        ensures { Some result ≡ kind_at (nat_lt 0 (inner (stack_of self.now.keys)))
            self.now.text.now self.now.at }
    {
        if is_blank_or_end(self.text, self.at + 1) {
            LexemeKind::BlockEntry
        } else if self.is_mark(b'-') {
            LexemeKind::DocumentStart
        } else {
            LexemeKind::Plain
        }
    }

    /// The kind of what begins with the `.` here.
    #[tactic(auto, using(crate::proofs::FirstLemmas::dot_mark, crate::proofs::FirstLemmas::dot_plain))]
    fn dot_kind(&self) -> LexemeKind
        requires place { IsPlace self.now.text.now self.now.at self.now.line self.now.wide }
        requires byte { byte self.now.text.now self.now.at ≡ ascii.dot }
        ensures { Some result ≡ kind_at (nat_lt 0 (inner (stack_of self.now.keys)))
            self.now.text.now self.now.at }
    {
        if self.is_mark(b'.') {
            LexemeKind::DocumentEnd
        } else {
            LexemeKind::Plain
        }
    }

    /// The kind of what begins with the `?` or `:` here, which may be that mark.
    fn mark_kind(&self, mark: LexemeKind) -> LexemeKind
        requires some { 0 < length self.now.keys.levels.items }
        requires few { self.now.at < 2 ^ 63 }
        ensures { result ≡ (if nat_lt 0 (inner (stack_of self.now.keys))
            || is_blank_or_end self.now.text.now (self.now.at + 1) then mark else kinds.Plain) }
    {
        if self.in_flow() || is_blank_or_end(self.text, self.at + 1) {
            mark
        } else {
            LexemeKind::Plain
        }
    }

    /// Whether a document's mark, of three such bytes, is here.
    fn is_mark(&self, mark: u8) -> bool
        requires some { 0 < mark }
        requires place { IsPlace self.now.text.now self.now.at self.now.line self.now.wide }
        ensures { result ≡ (column_at self.now.text.now self.now.at == 0
            && is_thrice mark self.now.text.now self.now.at) }
    {
        self.column() == 0 && is_thrice(self.text, self.at, mark)
    }

    /// Past what is between lexemes: blanks, comments, breaks, and U+FEFF at the text's start.
    fn skip_gap(&mut self)
        requires some { 0 < length self.old.keys.levels.items }
        requires long { length self.old.text.now < 2 ^ 63 }
        requires place { IsPlace self.old.text.now self.old.at self.old.line self.old.wide }
        ensures same { StaysAt self.old self.new }
        ensures passes { Passes self.old self.new }
        ensures gap { gap_there self.new ≡ record { place = self.new.at; broke = false } }
    {
        'gap: while self.pass_white() {}
    }

    /// Past what is here, unless it is a lexeme, and says whether it is none.
    // In line: the body of the gap's loop.
    #[inline(always)]
    fn pass_white(&mut self) -> bool
        requires some { 0 < length self.old.keys.levels.items }
        requires long { length self.old.text.now < 2 ^ 63 }
        requires place { IsPlace self.old.text.now self.old.at self.old.line self.old.wide }
        ensures { PassesOne self.old self.new result }
    {
        match byte(self.text, self.at) {
            b' ' => self.pass_spaces(),
            b'\t' => self.pass_tab(),
            b'#' => self.pass_comment(),
            0xEF => self.pass_mark(),
            b'\n' | b'\r' | 0xC2 | 0xE2 => self.pass_break(),
            _ => false,
        }
    }

    /// Past the spaces here.
    fn pass_spaces(&mut self) -> bool
        requires some { 0 < length self.old.keys.levels.items }
        requires long { length self.old.text.now < 2 ^ 63 }
        requires place { IsPlace self.old.text.now self.old.at self.old.line self.old.wide }
        requires byte { byte self.old.text.now self.old.at ≡ ascii.space }
        ensures { PassesOne self.old self.new result }
    {
        self.at = skip_spaces(self.text, self.at);
        true
    }

    /// Past the tab here, in brackets or where no key may begin.
    fn pass_tab(&mut self) -> bool
        requires some { 0 < length self.old.keys.levels.items }
        requires long { length self.old.text.now < 2 ^ 63 }
        requires place { IsPlace self.old.text.now self.old.at self.old.line self.old.wide }
        requires byte { byte self.old.text.now self.old.at ≡ ascii.tab }
        ensures { PassesOne self.old self.new result }
    {
        if !self.skips_tabs() {
            return false;
        }
        self.at += 1;
        true
    }

    /// Whether tabs are skipped here.
    fn skips_tabs(&self) -> bool
        requires { 0 < length self.now.keys.levels.items }
        ensures { result ≡ (nat_lt 0 (inner (stack_of self.now.keys)) || not self.now.key_allowed) }
    {
        self.in_flow() || !self.key_allowed
    }

    /// Whether a key may begin after a break.
    fn allows_behind(&self) -> bool
        requires { 0 < length self.now.keys.levels.items }
        ensures { result
            ≡ (self.now.key_allowed || not (nat_lt 0 (inner (stack_of self.now.keys)))) }
    {
        self.key_allowed || !self.in_flow()
    }

    /// Past the comment here.
    fn pass_comment(&mut self) -> bool
        requires some { 0 < length self.old.keys.levels.items }
        requires long { length self.old.text.now < 2 ^ 63 }
        requires place { IsPlace self.old.text.now self.old.at self.old.line self.old.wide }
        requires byte { byte self.old.text.now self.old.at ≡ ascii.hash }
        ensures { PassesOne self.old self.new result }
    {
        let end = line_end(self.text, self.at);
        self.wide += continuing(self.text, self.at, end);
        self.at = end;
        true
    }

    /// Past the break here, if there is one: in block context it allows a key.
    fn pass_break(&mut self) -> bool
        requires some { 0 < length self.old.keys.levels.items }
        requires long { length self.old.text.now < 2 ^ 63 }
        requires place { IsPlace self.old.text.now self.old.at self.old.line self.old.wide }
        requires byte { MayBreak (byte self.old.text.now self.old.at) }
        ensures { PassesOne self.old self.new result }
    {
        let width = break_width(self.text, self.at);
        if width == 0 {
            return false;
        }
        self.at += width;
        self.line = self.at;
        self.wide = 0;
        self.key_allowed = self.allows_behind();
        true
    }

    /// Past U+FEFF at the text's start.
    fn pass_mark(&mut self) -> bool
        requires some { 0 < length self.old.keys.levels.items }
        requires long { length self.old.text.now < 2 ^ 63 }
        requires place { IsPlace self.old.text.now self.old.at self.old.line self.old.wide }
        requires byte { byte self.old.text.now self.old.at ≡ 239 }
        ensures { PassesOne self.old self.new result }
    {
        if !self.is_mark_first() {
            return false;
        }
        self.at = 3;
        self.wide = 2;
        true
    }

    /// Whether U+FEFF is here, at the text's start.
    fn is_mark_first(&self) -> bool
        requires { self.now.at < 2 ^ 63 }
        ensures { result ≡ (self.now.at == 0 && is_bom self.now.text.now self.now.at) }
    {
        self.at == 0
            && byte(self.text, self.at) == 0xEF
            && byte(self.text, self.at + 1) == 0xBB
            && byte(self.text, self.at + 2) == 0xBF
    }
}
