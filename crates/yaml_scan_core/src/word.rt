//! Lexemes that carry a text.

ghost use Rattle.std.specs.Prelude.{ℕ, ◌≡◌, ◌+◌, ◌-◌, ◌<◌, ◌≤◌, true, false, List, [], Some, None, length, if◌then◌else◌};
ghost use Rattle.std.specs.Str.{is_utf8};
ghost use Rattle.yaml_scan_model.specs.scan_types.Ascii as ascii;
ghost use Rattle.yaml_scan_model.specs.scan_types.Marks.{break_width, byte, splits_break, starts};
ghost use Rattle.yaml_scan_model.specs.Runs.{columns_over};
ghost use Rattle.yaml_scan_history.specs.Block as blocks;
ghost use Rattle.yaml_scan_history.specs.Plain as plain;
ghost use Rattle.yaml_scan_history.specs.Quoted as quoted;
ghost use Rattle.yaml_scan_history.specs.Anchors as anchors;
ghost use Rattle.yaml_scan_history.specs.Directives as directives;
ghost use Rattle.yaml_scan_history.specs.Tags as tags;
ghost use Rattle.yaml_scan_history.specs.Words.{blocked, directed, plainly, tagged, valued, lexeme_at};
ghost use Rattle.yaml_scan_text.specs.Lines.{line_start};
ghost use Rattle.yaml_scan_text.specs.PlainRead as plainly_read;
ghost use Rattle.yaml_scan_text.specs.Refused.{Keeps};
ghost use Rattle.yaml_scan_model.specs.declared.kind.Kind.TheVariants as kinds;
ghost use Rattle.yaml_scan_core.specs.Rows.{bare};
ghost use Rattle.yaml_scan_core.specs.Scanning.{IsPlace, Reads, StandsAs, StandsAt, history_of};
ghost use Rattle.yaml_scan_core.specs.Texts.{PutsWord, ReadsWord, StoresMore, is_key_word, is_line_word, is_scalar};
ghost use Rattle.yaml_scan_core.specs.Told.{SpanFits, span_in};
ghost use Rattle.yaml_scan_core.specs.WordsRead.{GivesWord, IsMarkedBy, IsNamed, IsQuotedBy, IsSpot, StandsThere, has_text, joined_note, name_body, scalar_body, told_by, value_span};

use crate::fault::{Fault, Refused};
use crate::lexeme::{Lexeme, Note, Span};
use crate::scanner::Scanner;
use crate::text::{break_width, continuing};
use simdutf8::is_utf8;
use std::alloc::AllocError;
use yaml_scan_history::Kind as LexemeKind;
use yaml_scan_model::{Context, Kind, Problem, yaml_scalar_style_t};
use yaml_scan_text::{
    PlainLine, Refusal, Wrong, block_scalar, is_bad_colon, name, plain_line, plain_lines,
    quoted_scalar, read_directive, read_tag,
};

/// A lexeme's text as it was read: the lexeme, its note, if it has one, the place that is reached after it, where the line of that
/// starts, how many bytes between these continue a character, and whether the blanks after a plain scalar hold a break.
#[derive(Clone, Copy)]
pub(crate) struct Word {
    pub lexeme: Lexeme,
    pub note: Option<Note>,
    pub at: usize,
    pub line: usize,
    pub wide: usize,
    pub broke: bool,
}

/// Where a lexeme's text is: its place, where the line of that starts, how many bytes between these continue a character, and
/// how many levels end before the lexeme.
#[derive(Clone, Copy)]
pub(crate) struct Spot {
    pub at: usize,
    pub line: usize,
    pub wide: usize,
    pub ends: u32,
}

impl Scanner<'_> {
    /// A lexeme that may be a simple key.
    // In line, its kind known: a word by memory takes 10 in 100 of a block mapping's time.
    #[inline(always)]
    pub(crate) fn key_word(&mut self, kind: LexemeKind) -> Result<(), Refused>
        requires kind { is_key_word kind ≡ true }
        requires stands { StandsAt kind self.old (history_of self.old) }
        ensures { Reads self.old self.new (history_of self.old) result }
    {
        let ends = self.close_levels(kind);
        self.check_replaced()?;
        let word = self.word(kind, ends)?;
        let key = self.candidate();
        self.check_fresh(key, word.at, word.line)?;
        self.put(word)?;
        self.save_key(key);
        self.key_allowed = word.broke;
        self.reach(word.at, word.line, word.wide);
        Ok(())
    }

    /// A block scalar or a directive.
    pub(crate) fn line_word(&mut self, kind: LexemeKind) -> Result<(), Refused>
        requires kind { is_line_word kind ≡ true }
        requires stands { StandsAt kind self.old (history_of self.old) }
        ensures { Reads self.old self.new (history_of self.old) result }
    {
        let ends = self.close_levels(kind);
        self.check_cancelled()?;
        let word = self.word(kind, ends)?;
        self.put(word)?;
        self.keys.give_up();
        self.key_allowed = is_scalar(kind);
        self.reach(word.at, word.line, word.wide);
        Ok(())
    }

    /// The text of the lexeme of that kind that is here. What has to be joined is put after the arena.
    // In line, as `key_word`.
    #[inline(always)]
    fn word(&mut self, kind: LexemeKind, ends: u32) -> Result<Word, Refused>
        requires kind { has_text kind ≡ true }
        requires stands { StandsAs kind self.old (history_of self.old) ends }
        ensures stores { StoresMore self.old self.new }
        ensures reads { ReadsWord kind ends self.old self.new result }
    {
        let flow = self.in_flow();
        let spot = Spot {
            at: self.at,
            line: self.line,
            wide: self.wide,
            ends,
        };
        let margin = self.levels.margin;
        match read_word(&mut self.row.arena, self.text, kind, spot, flow, margin) {
            Ok(word) => Ok(word),
            Err(refusal) => {
                self.fault = fault_told(refusal, spot.at, self.text.len());
                Err(Refused)
            }
        }
    }

    /// Puts the lexeme of a word into the row, with its note.
    // In line, as `key_word`.
    #[inline(always)]
    fn put(&mut self, word: Word) -> Result<(), AllocError>
        ensures { PutsWord word self.old self.new result }
    {
        match word.note {
            Some(note) => self.row.push_noted(word.lexeme, note),
            None => self.row.push(word.lexeme),
        }
    }

    /// A place is reached, in a line that starts there, of which that many bytes continue characters.
    fn reach(&mut self, at: usize, line: usize, wide: usize)
        ensures { self.new ≡ record self.old { at = at; line = line; wide = wide } }
    {
        self.at = at;
        self.line = line;
        self.wide = wide;
    }
}

/// Whether it is a block scalar.
fn is_scalar(kind: LexemeKind) -> bool
    ensures { result ≡ is_scalar kind }
{
    matches!(kind, LexemeKind::Literal | LexemeKind::Folded)
}

/// The fault that a refusal means, of what starts there, unless memory ran out.
// No place lies after the text's end: the test goes once that is a law of the definitions.
fn fault_told(refusal: Refusal, start: usize, end: usize) -> Option<Fault>
    ensures { result ≡ told_by refusal start end }
{
    match refusal {
        Refusal::Wrong(wrong) if wrong.place <= end => Some(Fault {
            problem: wrong.problem,
            context: wrong.context,
            start,
            at: wrong.place,
        }),
        _ => None,
    }
}

/// The lexeme of that kind that is there, with its text, by the reader of that.
// In line, as `key_word`.
#[inline(always)]
fn read_word(
    arena: &mut Vec<u8>,
    text: &[u8],
    kind: LexemeKind,
    spot: Spot,
    flow: bool,
    margin: usize,
) -> Result<Word, Refusal>
    requires kind { has_text kind ≡ true }
    requires stands { StandsThere kind flow margin text.now spot }
    ensures value { GivesWord text.now arena.new.items spot result
        (lexeme_at kind flow margin text.now spot.at) }
    ensures kept { Keeps arena.old.items arena.new.items }
{
    match kind {
        LexemeKind::Alias => name_word(text, Kind::Alias, Context::Alias, spot),
        LexemeKind::Anchor => name_word(text, Kind::Anchor, Context::Anchor, spot),
        LexemeKind::Tag => tag_word(arena, text, spot, flow),
        LexemeKind::Directive => directive_word(arena, text, spot),
        LexemeKind::SingleQuoted => {
            let style = yaml_scalar_style_t::YAML_SINGLE_QUOTED_SCALAR_STYLE;
            quoted_word(arena, text, spot, style)
        }
        LexemeKind::DoubleQuoted => {
            let style = yaml_scalar_style_t::YAML_DOUBLE_QUOTED_SCALAR_STYLE;
            quoted_word(arena, text, spot, style)
        }
        LexemeKind::Literal => {
            let style = yaml_scalar_style_t::YAML_LITERAL_SCALAR_STYLE;
            block_word(arena, text, spot, style, margin)
        }
        LexemeKind::Folded => {
            let style = yaml_scalar_style_t::YAML_FOLDED_SCALAR_STYLE;
            block_word(arena, text, spot, style, margin)
        }
        LexemeKind::Plain => plain_word(arena, text, spot, flow, margin),
        _ => Err(Refusal::Memory),
    }
}

/// How many bytes continue a character between a line's start and a place in it, which is reached from a spot; `wide` where some may
/// after the spot.
// In line, as `key_word`.
#[inline(always)]
fn wide_behind(text: &[u8], spot: Spot, at: usize, line: usize, wide: bool) -> usize
    requires place { IsPlace text.now spot.at spot.line spot.wide }
    requires order { spot.at ≤ at }
    requires inside { at ≤ length text.now }
    requires whole { splits_break text.now at ≡ false }
    requires line { line ≡ line_start text.now at }
    requires narrow { wide ≡ false → (k : ℕ) → spot.at ≤ k → line ≤ k → k < at
        → starts (byte text.now k) ≡ true }
    ensures { IsPlace text.now at line result }
{
    if line <= spot.at {
        return spot.wide + counted(text, spot.at, at, wide);
    }
    counted(text, line, at, wide)
}

/// How many bytes between two places continue a character; `wide` where some may.
fn counted(text: &[u8], from: usize, to: usize, wide: bool) -> usize
    requires order { from ≤ to }
    requires inside { to ≤ length text.now }
    requires narrow { wide ≡ false → (k : ℕ) → from ≤ k → k < to → starts (byte text.now k) ≡ true }
    ensures { result + columns_over (to - from) text.now from ≡ to - from }
{
    if wide {
        return continuing(text, from, to);
    }
    0
}

/// A scalar without note.
fn scalar(style: yaml_scalar_style_t, spot: Spot, end: usize) -> Lexeme
    ensures { result ≡ record (bare kinds.Scalar spot.ends spot.at end 0) { style = style } }
{
    Lexeme {
        style,
        ..Lexeme::new(Kind::Scalar, spot.ends, spot.at, end)
    }
}

/// The note of a scalar that ends there, where its value was joined: it is what is in the arena between two places.
fn value_note(joined: bool, end: usize, from: usize, to: usize) -> Option<Note>
    ensures { result ≡ (if joined then Some (joined_note end from to) else None) }
{
    if !joined {
        return None;
    }
    Some(Note {
        end,
        first: Span::of_text(0, 0),
        second: Span {
            from,
            to,
            joined: true,
        },
    })
}

/// An anchor or alias.
// In line, as `key_word`.
#[inline(always)]
fn name_word(text: &[u8], kind: Kind, context: Context, spot: Spot) -> Result<Word, Refusal>
    requires spot { IsSpot text.now spot }
    requires named { IsNamed kind context }
    requires first { 31 < byte text.now spot.at }
    requires ascii { byte text.now spot.at < 127 }
    ensures { (arena : List ℕ) → GivesWord text.now arena spot result
        (valued (name_body kind) (anchors.anchor_at context text.now spot.at)) }
{
    let end = name(text, spot.at, context)?;
    Ok(Word {
        lexeme: Lexeme::new(kind, spot.ends, spot.at, end),
        note: None,
        at: end,
        line: spot.line,
        wide: spot.wide,
        broke: false,
    })
}

/// A part of the text, or where it was joined, what is in the arena between two places.
fn span(joined: bool, from: usize, to: usize, base: usize, end: usize) -> Span
    ensures { result ≡ value_span joined from to base end }
{
    if joined {
        Span {
            from: base,
            to: end,
            joined: true,
        }
    } else {
        Span::of_text(from, to)
    }
}

/// Whether the bytes of a span are UTF-8: those that escapes spell may be none.
fn is_text(arena: &[u8], text: &[u8], span: Span) -> bool
    requires { SpanFits (record { text = text.now; notes = []; arena = arena.now }) span }
    ensures { result ≡ is_utf8 (span_in (record { text = text.now; notes = []; arena = arena.now })
        span) }
{
    if span.joined {
        spells_text(&arena[span.from..span.to])
    } else {
        spells_text(&text[span.from..span.to])
    }
}

/// Whether bytes are UTF-8. Most are ASCII alone: a look at them costs less than what the decoder sets up.
fn spells_text(bytes: &[u8]) -> bool
    ensures { result ≡ is_utf8 bytes.now }
{
    bytes.is_ascii() || is_utf8(bytes)
}

/// What a tag is, by whether its suffix is UTF-8.
fn tag_kind(is_text: bool) -> Kind
    ensures { result ≡ (if is_text then kinds.Tag else kinds.BadTag) }
{
    if is_text { Kind::Tag } else { Kind::BadTag }
}

/// A tag, with handle and suffix.
fn tag_word(arena: &mut Vec<u8>, text: &[u8], spot: Spot, flow: bool) -> Result<Word, Refusal>
    requires spot { IsSpot text.now spot }
    requires mark { byte text.now spot.at ≡ ascii.exclamation }
    ensures value { GivesWord text.now arena.new.items spot result
        (tagged (tags.tag_at flow text.now spot.at)) }
    ensures kept { Keeps arena.old.items arena.new.items }
{
    let base = arena.len();
    let tag = read_tag(arena, text, spot.at, flow)?;
    let suffix = span(tag.joined, tag.from, tag.to, base, arena.len());
    let kind = tag_kind(is_text(arena, text, suffix));
    Ok(Word {
        lexeme: Lexeme::new(kind, spot.ends, spot.at, tag.end),
        note: Some(Note {
            end: tag.end,
            first: Span::of_text(spot.at, tag.handle),
            second: suffix,
        }),
        at: tag.end,
        line: spot.line,
        wide: spot.wide,
        broke: false,
    })
}

/// What a directive is, by whether it is a tag's, and whether its prefix is UTF-8.
fn directive_kind(is_tag: bool, is_text: bool) -> Kind
    ensures { result ≡ (if is_tag then (if is_text then kinds.TagDirective else kinds.BadPrefix)
        else kinds.VersionDirective) }
{
    if !is_tag {
        Kind::VersionDirective
    } else if is_text {
        Kind::TagDirective
    } else {
        Kind::BadPrefix
    }
}

/// A directive, with its two numbers, or with handle and prefix.
fn directive_word(arena: &mut Vec<u8>, text: &[u8], spot: Spot) -> Result<Word, Refusal>
    requires spot { IsSpot text.now spot }
    requires mark { byte text.now spot.at ≡ ascii.percent }
    ensures value { GivesWord text.now arena.new.items spot result
        (directed (directives.directive_at text.now spot.at)) }
    ensures kept { Keeps arena.old.items arena.new.items }
{
    let base = arena.len();
    let read = read_directive(arena, text, spot.at, spot.line)?;
    let value = read.value;
    let end = value.second_end;
    let second = span(value.joined, value.second, end, base, arena.len());
    let kind = directive_kind(value.is_tag, is_text(arena, text, second));
    Ok(Word {
        lexeme: Lexeme::new(kind, spot.ends, spot.at, end),
        note: Some(Note {
            end,
            first: Span::of_text(value.first, value.first_end),
            second,
        }),
        at: read.place,
        line: read.line,
        wide: wide_behind(text, spot, read.place, read.line, true),
        broke: false,
    })
}

/// A quoted scalar of that style.
// In line, as `key_word`.
#[inline(always)]
fn quoted_word(
    arena: &mut Vec<u8>,
    text: &[u8],
    spot: Spot,
    style: yaml_scalar_style_t,
) -> Result<Word, Refusal>
    requires spot { IsSpot text.now spot }
    requires quote { IsQuotedBy style (byte text.now spot.at) }
    ensures value { GivesWord text.now arena.new.items spot result
        (valued (scalar_body style) (quoted.quoted_at (byte text.now spot.at) text.now spot.at)) }
    ensures kept { Keeps arena.old.items arena.new.items }
{
    let base = arena.len();
    let read = quoted_scalar(arena, text, spot.at, spot.line)?;
    Ok(Word {
        lexeme: scalar(style, spot, read.end),
        note: value_note(read.joined, read.end, base, arena.len()),
        at: read.end,
        line: read.line,
        wide: wide_behind(text, spot, read.end, read.line, read.wide),
        broke: false,
    })
}

/// A block scalar of that style.
fn block_word(
    arena: &mut Vec<u8>,
    text: &[u8],
    spot: Spot,
    style: yaml_scalar_style_t,
    margin: usize,
) -> Result<Word, Refusal>
    requires spot { IsSpot text.now spot }
    requires mark { IsMarkedBy style (byte text.now spot.at) }
    requires margin { margin ≤ length text.now + 1 }
    ensures value { GivesWord text.now arena.new.items spot result
        (blocked style (blocks.block_at margin text.now spot.at)) }
    ensures kept { Keeps arena.old.items arena.new.items }
{
    let base = arena.len();
    let read = block_scalar(arena, text, spot.at, spot.line, margin)?;
    Ok(Word {
        lexeme: scalar(style, spot, read.end),
        note: value_note(true, read.end, base, arena.len()),
        at: read.place,
        line: read.line,
        wide: wide_behind(text, spot, read.place, read.line, true),
        broke: false,
    })
}

/// A plain scalar. Its value is a part of the text where it is on one line, else joined from its lines.
fn plain_word(
    arena: &mut Vec<u8>,
    text: &[u8],
    spot: Spot,
    flow: bool,
    margin: usize,
) -> Result<Word, Refusal>
    requires spot { IsSpot text.now spot }
    requires word { plainly_read.IsWord text.now spot.at }
    ensures value { GivesWord text.now arena.new.items spot result
        (plainly (plain.plain_at flow margin text.now spot.at)) }
    ensures kept { Keeps arena.old.items arena.new.items }
{
    let part = plain_line(text, spot.at, flow);
    if break_width(text, part.next) > 0 {
        return plain_lines_word(arena, text, spot, part, flow, margin);
    }
    if is_bad_colon(text, part.next, flow) {
        return Err(Refusal::Wrong(Wrong {
            problem: Problem::UnexpectedColon,
            context: Context::PlainScalar,
            place: part.next,
        }));
    }
    Ok(Word {
        lexeme: scalar(yaml_scalar_style_t::YAML_PLAIN_SCALAR_STYLE, spot, part.end),
        note: None,
        at: part.next,
        line: spot.line,
        wide: wide_behind(text, spot, part.next, spot.line, part.wide),
        broke: false,
    })
}

/// The same, where a break is after that part of it.
fn plain_lines_word(
    arena: &mut Vec<u8>,
    text: &[u8],
    spot: Spot,
    part: PlainLine,
    flow: bool,
    margin: usize,
) -> Result<Word, Refusal>
    requires spot { IsSpot text.now spot }
    requires inside { spot.at < length text.now }
    requires part { plainly_read.IsPlainLine flow text.now spot.at part }
    requires broke { 0 < break_width text.now part.next }
    ensures value { GivesWord text.now arena.new.items spot result
        (plainly (plain.plain_at flow margin text.now spot.at)) }
    ensures kept { Keeps arena.old.items arena.new.items }
{
    let base = arena.len();
    let read = plain_lines(arena, text, spot.at, part, flow, margin)?;
    Ok(Word {
        lexeme: scalar(yaml_scalar_style_t::YAML_PLAIN_SCALAR_STYLE, spot, read.end),
        note: value_note(read.joined, read.end, base, arena.len()),
        at: read.place,
        line: read.line,
        wide: wide_behind(text, spot, read.place, read.line, read.wide),
        broke: read.broke,
    })
}
