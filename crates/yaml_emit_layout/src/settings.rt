//! Settings.

ghost use Rattle.std.specs.Prelude.{◌≡◌, ◌<◌, pos, false};
ghost use Rattle.yaml_scan_types.specs.Indents.{default_indent};
ghost use Rattle.yaml_scan_types.specs.Widths.{default_width};
ghost use Rattle.yaml_emit_layout.specs.Settings.{settled, settled_indent, settled_width, settled_break, encoding_or};

use yaml_scan_types::{DEFAULT_INDENT, DEFAULT_WIDTH, yaml_break_t, yaml_encoding_t};

/// How the characters are spelled in bytes.
#[derive(Clone, Copy, PartialEq, Eq, Debug)]
pub enum Encoding {
    Utf8,
    /// UTF-16, the low byte of a unit first; a byte order mark comes first.
    Utf16Le,
    /// UTF-16, the high byte of a unit first; a byte order mark comes first.
    Utf16Be,
}

/// What ends a line.
#[derive(Clone, Copy)]
pub enum LineBreak {
    Lf,
    Cr,
    CrLf,
}

/// What an emitter was asked for.
#[derive(Clone, Copy, PartialEq, Eq, Debug)]
pub struct RequestedSettings {
    pub encoding: yaml_encoding_t,
    pub canonical: bool,
    /// Columns.
    pub indent: i32,
    /// Columns.
    pub width: i32,
    pub unicode: bool,
    pub line_break: yaml_break_t,
}

/// What is in force.
#[derive(Clone, Copy)]
pub struct Settings {
    pub encoding: Encoding,
    /// The canonical layout and not the pretty one.
    pub canonical: bool,
    /// How many columns deeper a collection is than the one round it: 2 to 9.
    pub indent: u64,
    /// After this column a line may be broken.
    pub width: u64,
    /// Characters above U+007F may be as they are.
    pub unicode: bool,
    pub line_break: LineBreak,
}

impl RequestedSettings {
    /// Any encoding and break, canonical and unicode off, indent 2, the default width.
    pub fn new() -> RequestedSettings
        ensures encoding { result.encoding ≡ yaml_encoding_t.YAML_ANY_ENCODING }
        ensures canonical { result.canonical ≡ false }
        ensures indent { result.indent ≡ pos default_indent }
        ensures width { result.width ≡ pos default_width }
        ensures unicode { result.unicode ≡ false }
        ensures line_break { result.line_break ≡ yaml_break_t.YAML_ANY_BREAK }
    {
        RequestedSettings {
            encoding: yaml_encoding_t::YAML_ANY_ENCODING,
            canonical: false,
            indent: DEFAULT_INDENT,
            width: DEFAULT_WIDTH,
            unicode: false,
            line_break: yaml_break_t::YAML_ANY_BREAK,
        }
    }
}

fn settled_indent(indent: i32) -> u64
    ensures { result ≡ settled_indent indent }
{
    if 2 <= indent && indent <= 9 {
        indent as u64
    } else {
        2
    }
}

fn settled_width(width: i32, indent: u64) -> u64
    requires { indent < 10 }
    ensures { result ≡ settled_width width indent }
{
    if width < 0 {
        2147483647
    } else if width as u64 <= 2 * indent {
        DEFAULT_WIDTH as u64
    } else {
        width as u64
    }
}

fn settled_break(line_break: yaml_break_t) -> LineBreak
    ensures { result ≡ settled_break line_break }
{
    match line_break {
        yaml_break_t::YAML_ANY_BREAK | yaml_break_t::YAML_LN_BREAK => LineBreak::Lf,
        yaml_break_t::YAML_CR_BREAK => LineBreak::Cr,
        yaml_break_t::YAML_CRLN_BREAK => LineBreak::CrLf,
    }
}

fn encoding_or(other: Encoding, encoding: yaml_encoding_t) -> Encoding
    ensures { result ≡ encoding_or other encoding }
{
    match encoding {
        yaml_encoding_t::YAML_ANY_ENCODING => other,
        yaml_encoding_t::YAML_UTF8_ENCODING => Encoding::Utf8,
        yaml_encoding_t::YAML_UTF16LE_ENCODING => Encoding::Utf16Le,
        yaml_encoding_t::YAML_UTF16BE_ENCODING => Encoding::Utf16Be,
    }
}

/// What is in force for an emitter with those settings, in a stream that starts with that encoding.
/// An indent of other than 2 to 9 means 2; a negative width 2,147,483,647, and one of 0 to twice
/// the indent 80; any break LF; any encoding the stream's, or UTF-8.
pub fn settled(requested: RequestedSettings, stream: yaml_encoding_t) -> Settings
    ensures { result ≡ settled requested stream }
{
    let indent = settled_indent(requested.indent);
    Settings {
        encoding: encoding_or(encoding_or(Encoding::Utf8, stream), requested.encoding),
        canonical: requested.canonical,
        indent,
        width: settled_width(requested.width, indent),
        unicode: requested.unicode,
        line_break: settled_break(requested.line_break),
    }
}
