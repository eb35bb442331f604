//! What the words of a command say that it is to do.

use crate::fault::Fault;
use clap::ArgMatches;
use std::io::ErrorKind;
use yaml_cli_files::{Choice, Format, row_of};
use yaml_round_device::{yaml_command_t, yaml_output_encoding_t, yaml_settings_t};
use yaml_scan_types::{yaml_break_t, yaml_encoding_t};

/// The status where the words are wrong.
pub const WRONG_WORDS: u8 = 2;

/// How inputs are read, and how a text is written.
#[derive(Clone, Copy)]
pub struct Manner {
    pub from: yaml_encoding_t,
    pub settings: yaml_settings_t,
}

/// What a run is asked to do.
#[derive(Clone, Copy)]
pub struct Task {
    pub command: yaml_command_t,
    pub manner: Manner,
}

/// What is asked of each of many files.
#[derive(Clone, Copy)]
pub enum Question {
    /// Whether it loads.
    Loads,
    /// Whether it is the text that a rewriting of it would write.
    HasForm,
    /// Whether it is in the normal form.
    IsNormal,
}

/// How files are judged.
#[derive(Clone, Copy)]
pub struct Judging {
    pub question: Question,
    pub manner: Manner,
    /// Nothing is reported except by the status.
    pub quiet: bool,
    /// How findings are reported.
    pub format: Format,
}

/// By what two inputs are compared: how both are encoded, and whether by their loaded documents or by their contents.
#[derive(Clone, Copy)]
pub struct Measure {
    pub from: yaml_encoding_t,
    pub documents: bool,
}

/// What a command does.
#[derive(Clone, Copy)]
pub(crate) enum Does {
    /// It rewrites a file, or judges files by that.
    Run(yaml_command_t),
    /// It writes the normal form of a file, or judges files by that.
    Norm,
    Same,
    Diff,
    Check,
}

/// What the program is asked to do.
#[derive(Clone, Copy)]
pub(crate) struct Order<'o, 'a> {
    pub(crate) does: Does,
    /// What is after it.
    pub(crate) told: &'o ArgMatches<'a>,
    /// The files; standard input where there are none.
    pub(crate) files: &'o [&'a str],
    /// Files are judged, and nothing of them is written.
    pub(crate) judges: bool,
    /// Files are written in place.
    pub(crate) writes: bool,
    /// How they are read and written, and what they are judged by.
    pub(crate) judging: Judging,
    /// Which files of a folder are read.
    pub(crate) choice: Choice<'o, 'a>,
}

impl Order<'_, '_> {
    /// Whether a file that can't be read for that is a folder whose files are judged.
    pub(crate) fn walks(&self, kind: ErrorKind) -> bool {
        (self.judges || self.writes) && kind == ErrorKind::IsADirectory
    }
}

const BREAKS: [(&'static str, yaml_break_t); 3] = [
    ("lf", yaml_break_t::YAML_LN_BREAK),
    ("cr", yaml_break_t::YAML_CR_BREAK),
    ("crlf", yaml_break_t::YAML_CRLN_BREAK),
];

const ENCODINGS: [(&'static str, yaml_output_encoding_t); 6] = [
    ("utf8", yaml_output_encoding_t::Utf8),
    ("utf16le", yaml_output_encoding_t::Utf16Le),
    ("utf16be", yaml_output_encoding_t::Utf16Be),
    ("utf-8", yaml_output_encoding_t::Utf8),
    ("utf-16le", yaml_output_encoding_t::Utf16Le),
    ("utf-16be", yaml_output_encoding_t::Utf16Be),
];

const INPUT_ENCODINGS: [(&'static str, yaml_encoding_t); 7] = [
    ("auto", yaml_encoding_t::YAML_ANY_ENCODING),
    ("utf8", yaml_encoding_t::YAML_UTF8_ENCODING),
    ("utf16le", yaml_encoding_t::YAML_UTF16LE_ENCODING),
    ("utf16be", yaml_encoding_t::YAML_UTF16BE_ENCODING),
    ("utf-8", yaml_encoding_t::YAML_UTF8_ENCODING),
    ("utf-16le", yaml_encoding_t::YAML_UTF16LE_ENCODING),
    ("utf-16be", yaml_encoding_t::YAML_UTF16BE_ENCODING),
];

const FORMATS: [(&'static str, Format); 4] = [
    ("full", Format::Full),
    ("line", Format::Line),
    ("github", Format::Github),
    ("json", Format::Json),
];

// An option whose value is a word: its name, how a wrong one is called, and the words that help names.
#[derive(Clone, Copy)]
struct Worded(&'static str, &'static str, &'static str);

const BREAK: Worded = Worded("break", "break", "lf, cr, crlf");

const ENCODING: Worded = Worded("encoding", "encoding", "utf8, utf16le, utf16be");

const FROM: Worded = Worded("from", "input encoding", "auto, utf8, utf16le, utf16be");

const FORMAT: Worded = Worded("format", "format", "full, line, github, json");

// The words of a command, and the first thing that is wrong with them.
#[derive(Drop)]
struct Words<'o, 'a, 'w> {
    told: &'o ArgMatches<'a>,
    // What is known is listed where a word isn't: the lines of the other commands are fixed.
    lists: bool,
    wrong: &'w mut Option<Fault<'a>>,
}

impl<'a> Words<'_, 'a, '_> {
    fn keep(&mut self, wrong: Fault<'a>) {
        if self.wrong.is_none() {
            *self.wrong = Some(wrong);
        }
    }

    // What the rows have for the word of an option; the usual one where the command doesn't have it, or they don't have the word.
    fn option_in<T: Copy>(&mut self, option: Worded, rows: &[(&'static str, T)], usual: T) -> T {
        let Worded(name, what, known) = option;
        let Some(word) = self.told.get_str(name) else {
            return usual;
        };
        let value = row_of(rows, word);
        match value {
            Some(_) => {}
            None if self.lists => self.keep(Fault::UnknownOf { what, word, known }),
            None => self.keep(Fault::Unknown { what, word }),
        }
        value.unwrap_or(usual)
    }
}

// The settings except for those that are words.
fn numbers_in(told: &ArgMatches<'_>) -> yaml_settings_t {
    let usual = yaml_settings_t::new();
    yaml_settings_t {
        indent: told.get_one::<i32>("indent").unwrap_or(usual.indent),
        width: told.get_one::<i32>("width").unwrap_or(usual.width),
        canonical: !told.get_flag("pretty"),
        unicode: !told.get_flag("ascii"),
        limit: told.get_one::<u64>("limit").unwrap_or(usual.limit),
        ..usual
    }
}

// The break is judged first, then the encoding, then how the input is encoded.
fn manner_in(words: &mut Words<'_, '_, '_>) -> Manner {
    let usual = numbers_in(words.told);
    let line_break = words.option_in(BREAK, &BREAKS, usual.line_break);
    let encoding = words.option_in(ENCODING, &ENCODINGS, usual.encoding);
    let any = yaml_encoding_t::YAML_ANY_ENCODING;
    let from = words.option_in(FROM, &INPUT_ENCODINGS, any);
    let settings = yaml_settings_t {
        encoding,
        line_break,
        ..usual
    };
    Manner { from, settings }
}

const COMMANDS: [(&'static str, Does); 7] = [
    ("fmt", Does::Run(yaml_command_t::Fmt)),
    ("docs", Does::Run(yaml_command_t::Docs)),
    ("events", Does::Run(yaml_command_t::Events)),
    ("norm", Does::Norm),
    ("same", Does::Same),
    ("diff", Does::Diff),
    ("check", Does::Check),
];

/// What the command of that name does.
pub(crate) fn does_of(name: &str) -> Option<Does> {
    row_of(&COMMANDS, name)
}

fn question_of(does: Does) -> Question {
    match does {
        Does::Run(_) => Question::HasForm,
        Does::Norm => Question::IsNormal,
        _ => Question::Loads,
    }
}

// What is wrong with how many files are named, and what for.
fn misused(does: Does, told: &ArgMatches<'_>) -> Option<&'static str> {
    let (checks, writes) = (told.get_flag("check"), told.get_flag("write"));
    let count = told.get_strs("files").unwrap_or(&[]).len();
    match does {
        Does::Norm if checks && writes => Some("--check and --write don't go together"),
        Does::Norm if writes && count == 0 => Some("--write needs files"),
        Does::Norm if count > 1 && !checks && !writes => {
            Some("several files need --check or --write")
        }
        Does::Run(_) if count > 1 && !checks => Some("several files need --check"),
        _ => None,
    }
}

// Keeps a width that an indent is too large for. Where numbers are fixed such a width counts as another one.
fn judge_width(words: &mut Words<'_, '_, '_>, settings: &yaml_settings_t) {
    let least = settings.indent.saturating_mul(2).saturating_add(1);
    if settings.width < least {
        words.keep(Fault::Width {
            width: settings.width,
            least,
        });
    }
}

/// What the arguments of a command ask for. The first thing that is wrong with them is kept: what is
/// known to be wrong already, then how many files one is given, then its other arguments.
pub(crate) fn order_in<'o, 'a>(
    name: &'a str,
    told: &'o ArgMatches<'a>,
    choice: Choice<'o, 'a>,
    wrong: &mut Option<Fault<'a>>,
) -> Order<'o, 'a> {
    let does = does_of(name).unwrap_or(Does::Check);
    let mut words = Words {
        told,
        lists: matches!(does, Does::Norm | Does::Diff | Does::Check),
        wrong,
    };
    if let Some(why) = misused(does, told) {
        words.keep(Fault::Usage { command: name, why });
    }
    Order {
        does,
        told,
        files: told.get_strs("files").unwrap_or(&[]),
        judges: matches!(does, Does::Check) || told.get_flag("check"),
        writes: told.get_flag("write"),
        judging: judging_in(does, &mut words),
        choice,
    }
}

fn judging_in(does: Does, words: &mut Words<'_, '_, '_>) -> Judging {
    let manner = manner_in(words);
    let format = words.option_in(FORMAT, &FORMATS, Format::Full);
    if matches!(does, Does::Norm) {
        judge_width(words, &manner.settings);
    }
    Judging {
        question: question_of(does),
        manner,
        quiet: words.told.get_flag("quiet"),
        format,
    }
}
