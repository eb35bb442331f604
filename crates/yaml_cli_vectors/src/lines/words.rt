//! The words of a line for the engine's names, as tables.

ghost use Rattle.std.specs.Prelude.{◌<◌, length};

use crate::lines::Reply;
use serde_json::Value;
use yaml_scan::{
    yaml_break_t, yaml_encoding_t, yaml_mapping_style_t, yaml_origin_t,
    yaml_scalar_style_t as Style, yaml_sequence_style_t,
};

/// A word, and its meaning.
pub type Row<T> = (&'static str, T);

/// Encodings.
pub const ENCODINGS: [Row<yaml_encoding_t>; 4] = [
    ("any", yaml_encoding_t::YAML_ANY_ENCODING),
    ("utf8", yaml_encoding_t::YAML_UTF8_ENCODING),
    ("utf16le", yaml_encoding_t::YAML_UTF16LE_ENCODING),
    ("utf16be", yaml_encoding_t::YAML_UTF16BE_ENCODING),
];

/// What ends a line.
pub const BREAKS: [Row<yaml_break_t>; 4] = [
    ("any", yaml_break_t::YAML_ANY_BREAK),
    ("cr", yaml_break_t::YAML_CR_BREAK),
    ("lf", yaml_break_t::YAML_LN_BREAK),
    ("crlf", yaml_break_t::YAML_CRLN_BREAK),
];

/// Styles of scalars.
pub const SCALARS: [Row<Style>; 6] = [
    ("any", Style::YAML_ANY_SCALAR_STYLE),
    ("plain", Style::YAML_PLAIN_SCALAR_STYLE),
    ("single", Style::YAML_SINGLE_QUOTED_SCALAR_STYLE),
    ("double", Style::YAML_DOUBLE_QUOTED_SCALAR_STYLE),
    ("literal", Style::YAML_LITERAL_SCALAR_STYLE),
    ("folded", Style::YAML_FOLDED_SCALAR_STYLE),
];

/// Styles of sequences.
pub const SEQUENCES: [Row<yaml_sequence_style_t>; 3] = [
    ("any", yaml_sequence_style_t::YAML_ANY_SEQUENCE_STYLE),
    ("block", yaml_sequence_style_t::YAML_BLOCK_SEQUENCE_STYLE),
    ("flow", yaml_sequence_style_t::YAML_FLOW_SEQUENCE_STYLE),
];

/// Styles of mappings.
pub const MAPPINGS: [Row<yaml_mapping_style_t>; 3] = [
    ("any", yaml_mapping_style_t::YAML_ANY_MAPPING_STYLE),
    ("block", yaml_mapping_style_t::YAML_BLOCK_MAPPING_STYLE),
    ("flow", yaml_mapping_style_t::YAML_FLOW_MAPPING_STYLE),
];

/// Who found a fault.
pub const ORIGINS: [Row<yaml_origin_t>; 7] = [
    ("Reader", yaml_origin_t::Reader),
    ("Scanner", yaml_origin_t::Scanner),
    ("Adapter", yaml_origin_t::Adapter),
    ("Parser", yaml_origin_t::Parser),
    ("Loader", yaml_origin_t::Loader),
    ("Emitter", yaml_origin_t::Emitter),
    ("Writer", yaml_origin_t::Writer),
];

/// The word of that number, counted from 0.
pub fn word_at(words: &'static str, number: usize) -> &'static str {
    words.split_whitespace().nth(number).unwrap_or("")
}

/// The word that the rows have for the value; none where they haven't it.
pub fn word_of<T: Copy + PartialEq>(rows: &[Row<T>], value: T) -> &'static str {
    let row = rows.iter().find(|row| row.1 == value);
    row.map_or("", |row| row.0)
}

impl Reply {
    /// What the rows have for the word there; the first row's where they haven't it, which is an error.
    pub fn choice<T: Copy>(&mut self, of: &Value, path: &'static str, rows: &[Row<T>]) -> T
        requires { 0 < length rows.now }
    {
        let word = self.text(of, path);
        let row = rows.iter().find(|row| row.0 == word);
        self.take(row.map(|row| row.1), path, rows[0].1)
    }
}
