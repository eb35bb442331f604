//! What arguments each command takes, as tables.

/// A command: its name, what it does, an example of it with its statuses, and its bit among those of a row.
pub(crate) struct Told {
    pub(crate) name: &'static str,
    pub(crate) about: &'static str,
    pub(crate) after: &'static str,
    pub(crate) bit: u8,
}

/// How an argument is given, and what it may be: what help calls its value, and the value where it is left out.
#[derive(Clone, Copy)]
pub(crate) enum Kind {
    /// A word by itself, which may be left out.
    Place(&'static str),
    /// Words by themselves, any number of them.
    Many(&'static str),
    /// A word by itself, which has to be there.
    Needed(&'static str),
    /// An option without a value, and its letter.
    Flag(char),
    /// An option whose value is any text.
    Text(&'static str, &'static str),
    /// The same, without a value where it is left out.
    Name(&'static str),
    /// The same, any number of times.
    Names(&'static str),
    /// An option whose value is a number of columns, from the least to the greatest one.
    Columns(&'static str, i64, i64),
    /// An option whose value is a number of bytes.
    Bytes(&'static str),
}

/// An argument: its name, how it is given, the bits of the commands that take it, and its help.
pub(crate) struct Row(
    pub(crate) &'static str,
    pub(crate) Kind,
    pub(crate) u8,
    pub(crate) &'static str,
);

/// The flag has no letter.
pub(crate) const LONG: char = '-';

const MOST: i64 = 2_147_483_647;

const FMT: u8 = 1;

const DOCS: u8 = 2;

const EVENTS: u8 = 4;

const SAME: u8 = 8;

const CHECK: u8 = 16;

const NORM: u8 = 32;

const DIFF: u8 = 64;

// Those that write a text, those that judge many files, and all.
const TEXT: u8 = FMT | NORM | DOCS;

const MANY: u8 = FMT | NORM | CHECK;

const ALL: u8 = 127;

/// What is after the help of the program.
pub(crate) const AFTER: &'static str = "\
Examples:
  yaml_cli check config.yaml
  yaml_cli fmt --pretty config.yaml

Status:
  0  All is well
  1  An input is rejected, not in the form asked for, or differs (diff), or reading or writing fails
  2  The arguments are wrong, or check, --check, diff or same -q can't read a file";

/// The commands, in the order in which help lists them.
pub(crate) const COMMANDS: [Told; 7] = [
    Told {
        name: "fmt",
        about: "Writes the text again in canonical or pretty form; comments are dropped",
        after: "\
Examples:
  yaml_cli fmt --pretty config.yaml
  yaml_cli fmt --check --pretty *.yaml

Status:
  0  The text was written, or with --check all files are in this form
  1  An input is rejected or isn't in this form, or reading or writing fails
  2  The arguments are wrong, or with --check a file can't be read",
        bit: FMT,
    },
    Told {
        name: "norm",
        about: "Writes the normal form: the one readable text of a content; comments are dropped",
        after: "\
Examples:
  yaml_cli norm config.yaml
  yaml_cli norm --check .
  yaml_cli norm --write config.yaml

Status:
  0  The text was written, or all files are in normal form, or are now
  1  An input is rejected or isn't in normal form, or reading or writing fails
  2  The arguments are wrong, or with --check a file can't be read",
        bit: NORM,
    },
    Told {
        name: "docs",
        about: "Writes the loaded documents in canonical form; comments are dropped",
        after: "\
Example:
  yaml_cli docs config.yaml

Status:
  0  The text was written
  1  The input is rejected, or reading or writing fails
  2  The arguments are wrong",
        bit: DOCS,
    },
    Told {
        name: "events",
        about: "Writes a line for each event",
        after: "\
Example:
  printf 'a: [b, c]' | yaml_cli events

Status:
  0  The lines were written
  1  The input is rejected, or reading or writing fails
  2  The arguments are wrong",
        bit: EVENTS,
    },
    Told {
        name: "same",
        about: "Checks whether two files have the same content",
        after: "\
Examples:
  yaml_cli same old.yaml new.yaml
  yaml_cli same -q old.yaml new.yaml

Status:
  0  `equal` or `different` was written; with -q they have the same content
  1  An input is rejected, or reading or writing fails; with -q the contents differ
  2  The arguments are wrong; with -q an input is rejected or can't be read",
        bit: SAME,
    },
    Told {
        name: "diff",
        about: "Shows where the contents of two files differ; writes nothing if they don't",
        after: "\
Examples:
  yaml_cli diff old.yaml new.yaml
  yaml_cli diff --all old.yaml new.yaml
  yaml_cli diff --documents old.yaml new.yaml

Status:
  0  The files have the same content, or the same documents
  1  They differ: path, cause and both values of the first difference (--all: of each) were written
  2  The arguments are wrong, or a file is rejected or can't be read",
        bit: DIFF,
    },
    Told {
        name: "check",
        about: "Checks that files load, and shows where one doesn't",
        after: "\
Examples:
  yaml_cli check config.yaml
  yaml_cli check --exclude vendor .
  yaml_cli check --unique-keys --format line .
  find . -name '*.yaml' -print0 | yaml_cli check --files0-from -

Status:
  0  All files load, or there are none
  1  A file doesn't load, or with --unique-keys has a key twice
  2  The arguments are wrong, or a file can't be read",
        bit: CHECK,
    },
];

/// The arguments, in the order in which a command lists those that it takes.
pub(crate) const ROWS: [Row; 28] = [
    Row(
        "files",
        Kind::Place("FILE"),
        DOCS | EVENTS,
        "The file to read; `-`, or none, is standard input",
    ),
    Row(
        "files",
        Kind::Many("FILE"),
        FMT | NORM,
        "The file to read, or with --check the files and folders; `-`, or none, is standard input",
    ),
    Row(
        "files",
        Kind::Many("FILE"),
        CHECK,
        "The files to load, and folders: all *.yaml and *.yml below; `-`, or none, is standard input",
    ),
    Row(
        "first",
        Kind::Needed("A"),
        SAME | DIFF,
        "The file to compare; `-` is standard input",
    ),
    Row(
        "second",
        Kind::Needed("B"),
        SAME | DIFF,
        "The file to compare it with; `-` is standard input",
    ),
    Row(
        "from",
        Kind::Text("ENCODING", "auto"),
        ALL,
        "How the input is encoded: auto, utf8, utf16le or utf16be",
    ),
    Row(
        "check",
        Kind::Flag(LONG),
        FMT | NORM,
        "List the files that aren't in this form, and write nothing else",
    ),
    Row(
        "write",
        Kind::Flag('w'),
        NORM,
        "Rewrite the files in place, and list those that change",
    ),
    Row(
        "drop-comments",
        Kind::Flag(LONG),
        NORM,
        "Also rewrite files that have comments, which are lost",
    ),
    Row(
        "all",
        Kind::Flag(LONG),
        DIFF,
        "List all differences, and their number; mappings are compared by key, sharing doesn't count",
    ),
    Row(
        "documents",
        Kind::Flag(LONG),
        DIFF,
        "Compare the loaded documents: anchor names and quotes don't count, sharing does",
    ),
    Row(
        "quiet",
        Kind::Flag('q'),
        MANY | SAME | DIFF,
        "Report nothing; only set the exit status",
    ),
    Row(
        "verbose",
        Kind::Flag('v'),
        MANY,
        "Report how many files were checked, and how many were refused",
    ),
    Row(
        "include",
        Kind::Names("GLOB"),
        MANY,
        "Read the files of folders that match GLOB, instead of *.yaml and *.yml",
    ),
    Row(
        "exclude",
        Kind::Names("GLOB"),
        MANY,
        "Skip the files and subfolders of folders that match GLOB",
    ),
    Row(
        "files0-from",
        Kind::Name("LIST"),
        CHECK,
        "Also load the files named in LIST, each name ended by a zero byte; `-` is standard input",
    ),
    Row(
        "unique-keys",
        Kind::Flag(LONG),
        CHECK,
        "Also reject a mapping that has the same key twice",
    ),
    Row(
        "stdin-filename",
        Kind::Name("NAME"),
        MANY,
        "The name for standard input in messages",
    ),
    Row(
        "format",
        Kind::Text("FORMAT", "full"),
        CHECK,
        "How rejected files are reported: full, line, github or json",
    ),
    Row(
        "pretty",
        Kind::Flag(LONG),
        FMT,
        "Keep the styles, if the text then reads back the same",
    ),
    Row(
        "indent",
        Kind::Columns("2", 0, MOST),
        FMT | DOCS,
        "Columns per level, 2 to 9; any other number counts as 2",
    ),
    Row(
        "indent",
        Kind::Columns("2", 2, 9),
        NORM,
        "Columns per level, 2 to 9",
    ),
    Row(
        "width",
        Kind::Columns("80", 0, MOST),
        FMT | DOCS,
        "The column after which lines are folded; up to twice the indent counts as 80",
    ),
    Row(
        "width",
        Kind::Columns("80", 5, MOST),
        NORM,
        "The column after which lines are folded, more than twice the indent",
    ),
    Row(
        "ascii",
        Kind::Flag(LONG),
        TEXT,
        "Escape all characters that aren't ASCII",
    ),
    Row(
        "break",
        Kind::Text("BREAK", "lf"),
        TEXT,
        "How lines end: lf, cr or crlf",
    ),
    Row(
        "encoding",
        Kind::Text("ENCODING", "utf8"),
        TEXT,
        "How the output is encoded: utf8, utf16le or utf16be",
    ),
    Row(
        "limit",
        Kind::Bytes("1099511627776"),
        TEXT,
        "The most bytes that the output may have",
    ),
];
