//! The encoding of a stream, and the byte order mark that it begins with (YAML 1.1, 5.2).

ghost use Rattle.std.specs.Prelude.{◌≡◌, ◌≤◌, length};
ghost use Rattle.yaml_scan_decode.specs.Encodings.{encoding_of, mark_length};

// FF FE: the low byte of each unit comes first.
const LOW_FIRST: [u8; 2] = [0xFF, 0xFE];

// FE FF: the high byte of each unit comes first.
const HIGH_FIRST: [u8; 2] = [0xFE, 0xFF];

// U+FEFF in UTF-8.
const UTF8_MARK: [u8; 3] = [0xEF, 0xBB, 0xBF];

/// The encoding of a stream: the one that is set, or with `YAML_ANY_ENCODING` the one that its byte order
/// mark shows, UTF-8 where it has none (YAML 1.1, 5.2).
#[tactic(auto, unfolding(crate::specs::Encodings::encoding_of))]
pub fn stream_encoding(input: &[u8], setting: yaml_encoding_t) -> yaml_encoding_t
    ensures { result ≡ encoding_of setting input.now }
{
    match setting {
        yaml_encoding_t::YAML_ANY_ENCODING => {
            if input.starts_with(&LOW_FIRST) {
                yaml_encoding_t::YAML_UTF16LE_ENCODING
            } else if input.starts_with(&HIGH_FIRST) {
                yaml_encoding_t::YAML_UTF16BE_ENCODING
            } else {
                yaml_encoding_t::YAML_UTF8_ENCODING
            }
        }
        set => set,
    }
}

/// How many bytes the byte order mark has that is removed: none where an encoding is set.
#[tactic(auto, unfolding(crate::specs::Encodings::mark_length))]
pub fn removed_mark_length(input: &[u8], setting: yaml_encoding_t) -> usize
    ensures value { result ≡ mark_length setting input.now }
    ensures inside { result ≤ length input.now }
{
    match setting {
        yaml_encoding_t::YAML_ANY_ENCODING => {
            if input.starts_with(&LOW_FIRST) || input.starts_with(&HIGH_FIRST) {
                2
            } else if input.starts_with(&UTF8_MARK) {
                3
            } else {
                0
            }
        }
        _ => 0,
    }
}

use yaml_scan_model::yaml_encoding_t;
