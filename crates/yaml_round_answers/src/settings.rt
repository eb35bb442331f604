//! The encodings and the settings that numbers and records of C mean.

ghost use Rattle.std.specs.Prelude.{◌≡◌};
ghost use Rattle.yaml_round_answers.specs.Numbers.{encoding_meant};
ghost use Rattle.yaml_round_answers.specs.Settings.{output_meant, settings_meant};
ghost use Rattle.yaml_round_answers.specs.Told.{both, call_meant};

use crate::number::{break_of, encoding_of, is_set};
use crate::record::yaml_c_settings;
use yaml_round::{yaml_encoding_t, yaml_output_encoding_t, yaml_settings_t};

// The encoding of an answer that a number means.
#[tactic(auto, unfolding(crate::specs::Settings::output_meant))]
fn output_of(number: i32) -> Option<yaml_output_encoding_t>
    ensures { result ≡ output_meant number }
{
    match number {
        0 | 1 => Some(yaml_output_encoding_t::Utf8),
        2 => Some(yaml_output_encoding_t::Utf16Le),
        3 => Some(yaml_output_encoding_t::Utf16Be),
        _ => None,
    }
}

// The settings that C's record means.
fn settings_of(given: &yaml_c_settings) -> Option<yaml_settings_t>
    ensures { result ≡ settings_meant given.now }
{
    let encoding = output_of(given.encoding)?;
    let line_break = break_of(given.line_break)?;
    Some(yaml_settings_t {
        encoding,
        canonical: is_set(given.canonical),
        indent: given.indent,
        width: given.width,
        unicode: is_set(given.unicode),
        line_break,
        limit: given.limit,
    })
}

/// The encoding and the settings of a call.
pub(crate) fn call_of(
    from: i32,
    settings: &yaml_c_settings,
) -> Option<(yaml_encoding_t, yaml_settings_t)>
    ensures { result ≡ call_meant from settings.now }
{
    Some((encoding_of(from)?, settings_of(settings)?))
}

/// The encodings of two inputs.
pub(crate) fn both_of(first: i32, second: i32) -> Option<(yaml_encoding_t, yaml_encoding_t)>
    ensures { result ≡ both (encoding_meant first) (encoding_meant second) }
{
    Some((encoding_of(first)?, encoding_of(second)?))
}
