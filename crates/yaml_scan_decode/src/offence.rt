//! Characters, and the first offence of bytes that spell none.

ghost use Rattle.std.specs.Prelude.{◌≡◌, ◌<◌, ◌^◌};
ghost use Rattle.yaml_scan_types.specs.Faults.{fault_of};
ghost use Rattle.yaml_scan_decode.specs.Characters.{is_allowed, allowed_at};
ghost use Rattle.yaml_scan_decode.specs.Offences.{problem_text_of, reader_fault};

/// What is wrong with the bytes.
#[derive(Clone, Copy)]
pub enum ReaderProblem {
    InvalidLeadingOctet,
    IncompleteSequence,
    InvalidTrailingOctet,
    InvalidLength,
    InvalidCharacter,
    IncompleteCharacter,
    UnexpectedLowSurrogate,
    IncompletePair,
    ExpectedLowSurrogate,
    ControlCharacter,
}

/// What is wrong, and where.
#[derive(Clone, Copy)]
pub struct Offence {
    pub problem: ReaderProblem,
    /// The byte of the whole input where it is, a removed mark counted.
    pub offset: u64,
    /// The byte, unit or character that is wrong, or -1.
    pub value: i32,
}

/// A character, and how many bytes spell it.
#[derive(Clone, Copy)]
pub struct Character {
    pub code: u32,
    pub width: usize,
}

impl ReaderProblem {
    /// The problem in libyaml's words.
    #[tactic(auto, unfolding(crate::specs::Offences::problem_text_of))]
    pub fn text(self) -> &'static str
        ensures { result.now ≡ problem_text_of self }
    {
        match self {
            ReaderProblem::InvalidLeadingOctet => "invalid leading UTF-8 octet",
            ReaderProblem::IncompleteSequence => "incomplete UTF-8 octet sequence",
            ReaderProblem::InvalidTrailingOctet => "invalid trailing UTF-8 octet",
            ReaderProblem::InvalidLength => "invalid length of a UTF-8 sequence",
            ReaderProblem::InvalidCharacter => "invalid Unicode character",
            ReaderProblem::IncompleteCharacter => "incomplete UTF-16 character",
            ReaderProblem::UnexpectedLowSurrogate => "unexpected low surrogate area",
            ReaderProblem::IncompletePair => "incomplete UTF-16 surrogate pair",
            ReaderProblem::ExpectedLowSurrogate => "expected low surrogate area",
            ReaderProblem::ControlCharacter => "control characters are not allowed",
        }
    }
}

impl Offence {
    /// The offence of that byte, unit or character at that place, or of -1 where there is none to
    /// name.
    pub(crate) fn of(problem: ReaderProblem, place: usize, value: i32) -> Offence
        ensures { result ≡ record { problem = problem; offset = place; value = value } }
    {
        Offence {
            problem,
            offset: place as u64,
            value,
        }
    }

    /// The fault as the port's calls answer it.
    pub fn located(self) -> yaml_fault_t
        ensures { fault_of result ≡ reader_fault self }
    {
        let zero = yaml_mark_t {
            index: 0,
            line: 0,
            column: 0,
        };
        yaml_fault_t {
            kind: yaml_error_type_t::YAML_READER_ERROR,
            problem: self.problem.text(),
            offset: self.offset,
            value: self.value,
            problem_mark: zero,
            context: None,
            context_mark: zero,
            origin: yaml_origin_t::Reader,
        }
    }
}

/// Whether a stream may hold the character (YAML 1.1, 5.1).
#[tactic(auto, unfolding(crate::specs::Characters::is_allowed))]
fn is_allowed(code: u32) -> bool
    ensures { result ≡ is_allowed code }
{
    match code {
        0x09 | 0x0A | 0x0D | 0x85 => true,
        0x20..=0x7E | 0xA0..=0xD7FF | 0xE000..=0xFFFD | 0x1_0000..=0x10_FFFF => true,
        _ => false,
    }
}

/// The character of that code, which that many bytes at that place spell, if a stream may hold it.
#[tactic(auto, unfolding(crate::specs::Characters::allowed_at))]
pub fn allowed_character(place: usize, width: usize, code: u32) -> Result<Character, Offence>
    requires { code < 2 ^ 31 }
    ensures { result ≡ allowed_at place width code }
{
    if is_allowed(code) {
        Ok(Character { code, width })
    } else {
        Err(Offence::of(ReaderProblem::ControlCharacter, place, code as i32))
    }
}

use yaml_scan_model::{yaml_error_type_t, yaml_fault_t, yaml_mark_t, yaml_origin_t};
