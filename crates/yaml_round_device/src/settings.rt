//! What a caller of the engine sets, and what it receives besides a text.

ghost use Rattle.std.specs.Prelude.{◌≡◌};

use crate::yaml_output_encoding_t;
use yaml_scan_types::{DEFAULT_INDENT, DEFAULT_WIDTH, yaml_break_t};

/// How many bytes an answer may have, if no limit is set: 2 to the power of 40.
pub const DEFAULT_LIMIT: u64 = 1_099_511_627_776;

/// How a text is written.
#[derive(Clone, Copy, PartialEq, Eq, Debug)]
pub struct yaml_settings_t {
    pub encoding: yaml_output_encoding_t,
    /// Canonical form; pretty form where it is off.
    pub canonical: bool,
    /// Columns of a level's indentation, 2 to 9; any other number means 2.
    pub indent: i32,
    /// The column after which a line is folded. A negative one means 2,147,483,647, and one from 0 to twice the indent
    /// means 80.
    pub width: i32,
    /// Printable characters that aren't ASCII are written as they are; escaped where it is off.
    pub unicode: bool,
    /// How lines end; `YAML_ANY_BREAK` means a line feed.
    pub line_break: yaml_break_t,
    /// How many bytes the answer may have.
    pub limit: u64,
}

impl yaml_settings_t {
    ghost use Rattle.yaml_round_device.specs.Settings.{default_settings};

    /// UTF-8, canonical, indent 2, the default width, unicode on, line feeds, 1,099,511,627,776 bytes.
    pub fn new() -> yaml_settings_t
        ensures { result ≡ default_settings }
    {
        yaml_settings_t {
            encoding: yaml_output_encoding_t::Utf8,
            canonical: true,
            indent: DEFAULT_INDENT,
            width: DEFAULT_WIDTH,
            unicode: true,
            line_break: yaml_break_t::YAML_LN_BREAK,
            limit: DEFAULT_LIMIT,
        }
    }
}
