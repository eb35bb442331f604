//! The calls that read a text whole and answer another.

ghost use Rattle.yaml_scan_model.specs.scan_types.Faults.{Answers};
ghost use Rattle.yaml_round_engine.specs.Layers.{list_layers, reformat_layers};
ghost use Rattle.yaml_round_engine.specs.Answers.{IsReformatted, IsInCanonicalForm, IsListed, text_and_form, bytes_of};

use std::alloc::Global;
use yaml_round_device::{yaml_form_t, yaml_settings_t};
use yaml_round_engine::{
    Form, ReadText, in_pretty_form, let_go, let_text_go, lines_of, read_text, reading_of, written,
};
use yaml_scan_model::{yaml_encoding_t, yaml_fault_t};

// The text in canonical form.
fn in_canonical_form(
    alloc: Global,
    input: &[u8],
    from: yaml_encoding_t,
    settings: &yaml_settings_t,
) -> Result<(Vec<u8>, yaml_form_t), yaml_fault_t>
    ensures { Answers reformat_layers text_and_form
        (IsInCanonicalForm from settings.now input.now) result }
{
    let mut form = Form::Canonical;
    let text = written(alloc, input, from, settings, &mut form)?;
    Ok((text, yaml_form_t::Canonical))
}

/// The text rewritten, and its form. With `settings.canonical` on the answer is in canonical form. With it off the events
/// are laid out in pretty form, with their styles, and that text reads back; only where the input begins with nothing (its first
/// document has no `---` and is a `!` alone) it doesn't, and the answer is in canonical form.
///
/// Refusals: a fault of the input (kinds 2, 3 and 4), which comes before a limit; `write error` (kind 6) where the text
/// has more than `settings.limit` bytes; `indentation is too deep` (kind 7); out of memory (kind 1).
pub fn yaml_reformat(
    alloc: Global,
    input: &[u8],
    from: yaml_encoding_t,
    settings: &yaml_settings_t,
) -> Result<(Vec<u8>, yaml_form_t), yaml_fault_t>
    ensures { Answers reformat_layers text_and_form
        (IsReformatted from settings.now input.now) result }
{
    if settings.canonical {
        return in_canonical_form(alloc, input, from, settings);
    }
    match in_pretty_form(alloc, input, from, settings) {
        Err(fault) => Err(fault),
        Ok((text, nothing)) => {
            if nothing {
                in_canonical_form(alloc, input, from, settings)
            } else {
                Ok((text, yaml_form_t::Pretty))
            }
        }
    }
}

// A line for each event of the input whose text it is.
fn lines_in(alloc: Global, text: &ReadText<'_>) -> Result<Vec<u8>, yaml_fault_t>
    ensures { Answers list_layers bytes_of (IsListed text.now.from text.now.bytes) result }
{
    match reading_of(alloc, text) {
        Err(refusal) => Err(refusal),
        Ok(mut reading) => {
            // Mostly the lines have at most twice the input's bytes.
            let answer = lines_of(alloc, &mut reading, text.input_len().saturating_mul(2));
            let_go(reading);
            answer
        }
    }
}

/// A line for each event of the input, as the parser gives it. Refused by a fault of the input
/// (kinds 2, 3 and 4) or when out of memory.
pub fn yaml_events(
    alloc: Global,
    input: &[u8],
    from: yaml_encoding_t,
) -> Result<Vec<u8>, yaml_fault_t>
    ensures { Answers list_layers bytes_of (IsListed from input.now) result }
{
    let text = read_text(alloc, input, from);
    let answer = lines_in(alloc, &text);
    let_text_go(text);
    answer
}
