//! Why a text can't be scanned, and the texts that report it.

ghost use Rattle.std.specs.Prelude.{◌≡◌, option_map};
ghost use Rattle.yaml_scan_types.specs.Faults.{fault_of};
ghost use Rattle.yaml_scan_model.specs.Problems.{problem_text_of, context_text_of, scanner_fault};

use crate::fault::{yaml_fault_t, yaml_origin_t};
use crate::name::yaml_error_type_t;
use crate::record::yaml_mark_t;

/// What is wrong.
#[derive(Clone, Copy)]
pub enum Problem {
    NoTokenStart,
    NoColon,
    SequenceEntryNotAllowed,
    KeyNotAllowed,
    ValueNotAllowed,
    UnexpectedColon,
    TabInIndentation,
    UnknownEscape,
    NoHexNumber,
    InvalidCode,
    DocumentIndicator,
    EndOfStream,
    ZeroIndentation,
    NoCommentOrBreak,
    TabForSpace,
    NoAlphanumeric,
    NoTagUri,
    NoEscapedOctet,
    WrongLeadingOctet,
    WrongTrailingOctet,
    NoClosingBracket,
    NoWhitespaceOrBreak,
    NoDirectiveName,
    NotAlphabetical,
    UnknownDirective,
    NoVersionNumber,
    LongVersionNumber,
    NoDigitOrDot,
    NoExclamationMark,
    NoWhitespace,
}

/// What was being scanned.
#[derive(Clone, Copy)]
pub enum Context {
    /// Nothing is named, and the context's place is the problem's.
    Nothing,
    NextToken,
    SimpleKey,
    PlainScalar,
    QuotedScalarEscape,
    QuotedScalar,
    BlockScalar,
    Anchor,
    Alias,
    TagUri,
    Tag,
    TagDirectiveUri,
    Directive,
    VersionDirective,
    TagDirectiveStart,
    TagDirectiveHandle,
    TagDirective,
}

/// A problem in its context, and where both are.
#[derive(Clone, Copy)]
pub struct ScanFault {
    pub problem: Problem,
    pub context: Context,
    pub context_mark: yaml_mark_t,
    pub problem_mark: yaml_mark_t,
}

impl Problem {
    /// The problem in libyaml's words.
    #[tactic(auto, unfolding(crate::specs::Problems::problem_text_of))]
    pub fn text(self) -> &'static str
        ensures { result.now ≡ problem_text_of self }
    {
        match self {
            Problem::NoTokenStart => "found character that cannot start any token",
            Problem::NoColon => "could not find expected ':'",
            Problem::SequenceEntryNotAllowed =>
                "block sequence entries are not allowed in this context",
            Problem::KeyNotAllowed => "mapping keys are not allowed in this context",
            Problem::ValueNotAllowed => "mapping values are not allowed in this context",
            Problem::UnexpectedColon => "found unexpected ':'",
            Problem::TabInIndentation => "found a tab character that violates indentation",
            Problem::UnknownEscape => "found unknown escape character",
            Problem::NoHexNumber => "did not find expected hexdecimal number",
            Problem::InvalidCode => "found invalid Unicode character escape code",
            Problem::DocumentIndicator => "found unexpected document indicator",
            Problem::EndOfStream => "found unexpected end of stream",
            Problem::ZeroIndentation => "found an indentation indicator equal to 0",
            Problem::NoCommentOrBreak => "did not find expected comment or line break",
            Problem::TabForSpace => "found a tab character where an indentation space is expected",
            Problem::NoAlphanumeric => "did not find expected alphabetic or numeric character",
            Problem::NoTagUri => "did not find expected tag URI",
            Problem::NoEscapedOctet => "did not find URI escaped octet",
            Problem::WrongLeadingOctet => "found an incorrect leading UTF-8 octet",
            Problem::WrongTrailingOctet => "found an incorrect trailing UTF-8 octet",
            Problem::NoClosingBracket => "did not find the expected '>'",
            Problem::NoWhitespaceOrBreak => "did not find expected whitespace or line break",
            Problem::NoDirectiveName => "could not find expected directive name",
            Problem::NotAlphabetical => "found unexpected non-alphabetical character",
            Problem::UnknownDirective => "found unknown directive name",
            Problem::NoVersionNumber => "did not find expected version number",
            Problem::LongVersionNumber => "found extremely long version number",
            Problem::NoDigitOrDot => "did not find expected digit or '.' character",
            Problem::NoExclamationMark => "did not find expected '!'",
            Problem::NoWhitespace => "did not find expected whitespace",
        }
    }
}

impl Context {
    /// The context in libyaml's words, where there is one.
    #[tactic(auto, unfolding(crate::specs::Problems::context_text_of))]
    pub fn text(self) -> Option<&'static str>
        ensures { option_map (λ t. t.now) result ≡ context_text_of self }
    {
        match self {
            Context::Nothing => None,
            Context::NextToken => Some("while scanning for the next token"),
            Context::SimpleKey => Some("while scanning a simple key"),
            Context::PlainScalar => Some("while scanning a plain scalar"),
            Context::QuotedScalarEscape => Some("while parsing a quoted scalar"),
            Context::QuotedScalar => Some("while scanning a quoted scalar"),
            Context::BlockScalar => Some("while scanning a block scalar"),
            Context::Anchor => Some("while scanning an anchor"),
            Context::Alias => Some("while scanning an alias"),
            Context::TagUri => Some("while parsing a tag"),
            Context::Tag => Some("while scanning a tag"),
            Context::TagDirectiveUri => Some("while parsing a %TAG directive"),
            Context::Directive => Some("while scanning a directive"),
            Context::VersionDirective => Some("while scanning a %YAML directive"),
            Context::TagDirectiveStart => Some("while scanning a tag directive"),
            Context::TagDirectiveHandle => Some("while parsing a tag directive"),
            Context::TagDirective => Some("while scanning a %TAG directive"),
        }
    }
}

impl ScanFault {
    /// The fault as the port's calls answer it.
    pub fn located(self) -> yaml_fault_t
        ensures { fault_of result ≡ scanner_fault self }
    {
        yaml_fault_t {
            kind: yaml_error_type_t::YAML_SCANNER_ERROR,
            problem: self.problem.text(),
            offset: 0,
            value: 0,
            problem_mark: self.problem_mark,
            context: self.context.text(),
            context_mark: self.context_mark,
            origin: yaml_origin_t::Scanner,
        }
    }
}
