//! The text of an input's events, and whether they begin with nothing.

ghost use Rattle.std.specs.Prelude.{◌≡◌, [], IfErr, IfOk};
ghost use Rattle.yaml_scan_types.specs.Faults.{Answers, fault_of, parse_layers};
ghost use Rattle.yaml_round_engine.specs.Layers.{reformat_layers};
ghost use Rattle.yaml_round_content.specs.Input.{ReadsInput, ending_of, events_of};
ghost use Rattle.yaml_round_reading.specs.Reading.{AreReal, IsFaultOf};
ghost use Rattle.yaml_round_engine.specs.Answers.{IsInPrettyForm, IsJudged, IsWrittenIn, text_and_whether, bytes_of};
ghost use Rattle.yaml_round_engine.specs.Writing.{WritesAll, comes_to_nothing};

use crate::beginning::Beginning;
use crate::writing::{
    Form, begins_with_nothing, emit_formed, emitter_under, finished, is_canonical,
};
use std::alloc::Global;
use yaml_emit::{yaml_emitter_output, yaml_emitter_t};
use yaml_parse::{yaml_encoding_t, yaml_fault_t, yaml_found_t};
use yaml_round_device::yaml_settings_t;
use yaml_round_reading::{ReadText, Reading, let_go, read_out, read_text, reading_of};

// A text that has more than this many bytes for each byte of its input has outgrown it.
const OUTGROWN: usize = 32;

// No input has as many bytes: so the product stays within a word, and isn't asked about at each event.
const UNREACHED: usize = 1 << 58;

// Reads the input to its end and writes nothing. Its fault is the answer.
fn judge(alloc: Global, text: &ReadText<'_>) -> Result<(), yaml_fault_t>
    ensures { Answers parse_layers (λ done. done) (IsJudged text.now.from text.now.bytes) result }
{
    let mut reading = reading_of(alloc, text)?;
    let answer = read_out(&mut reading);
    let_go(reading);
    answer
}

// The most bytes that a text of that size may have from now on. Where it has outgrown its input, that is judged first, so that
// its fault costs no more than its size, and then the text may have any: the layout of deep nesting grows with the square of
// its input.
#[tactic(auto, using(crate::proofs::Judging::met_again))]
fn most_behind(
    alloc: Global,
    text: &ReadText<'_>,
    size: usize,
    most: usize,
) -> Result<usize, yaml_fault_t>
    ensures { IfErr result (λ f. IsFaultOf (ending_of text.now.from text.now.bytes) (fault_of f)) }
{
    if size <= most {
        return Ok(most);
    }
    match judge(alloc, text) {
        Ok(()) => Ok(usize::MAX),
        Err(fault) => Err(fault),
    }
}

// Writes the events to their end. A fault of theirs is the answer; the emitter keeps its own.
fn write_events(
    alloc: Global,
    text: &ReadText<'_>,
    reading: &mut Reading<'_>,
    emitter: &mut yaml_emitter_t,
    form: &mut Form,
) -> Result<(), yaml_fault_t>
    requires real { AreReal reading.old.parser.events }
    requires ending { reading.old.parser.ending ≡ ending_of text.now.from text.now.bytes }
    ensures { WritesAll form.old reading.old.parser emitter.old result form.new emitter.new }
{
    let mut most = text.input_len() % UNREACHED * OUTGROWN;
    'events: loop {
        match most_behind(alloc, text, yaml_emitter_output(emitter).len(), most) {
            Ok(behind) => most = behind,
            Err(fault) => return Err(fault),
        }
        match reading.next() {
            yaml_found_t::Refused => return Err(reading.fault()),
            yaml_found_t::End => return Ok(()),
            yaml_found_t::Event => emit_formed(emitter, form, reading.event()),
        }
    }
}

// The text of the events of the input's reading in that form, or their fault.
fn written_from(
    alloc: Global,
    text: &ReadText<'_>,
    reading: &mut Reading<'_>,
    settings: &yaml_settings_t,
    form: &mut Form,
) -> Result<Vec<u8>, yaml_fault_t>
    requires reads { ReadsInput text.now.from text.now.bytes reading.old.parser }
    requires real { AreReal reading.old.parser.events }
    ensures text { Answers reformat_layers bytes_of (IsWrittenIn form.old text.now.from settings.now
        text.now.bytes) result }
    ensures beginning { IfOk result (λ _. comes_to_nothing form.old
        (events_of text.now.from text.now.bytes) ≡ comes_to_nothing form.new []) }
{
    let mut emitter = emitter_under(alloc, settings, is_canonical(*form))?;
    let written = write_events(alloc, text, reading, &mut emitter, form);
    let output = finished(emitter);
    match written {
        Err(fault) => Err(fault),
        Ok(()) => output,
    }
}

/// The text of the input's events in that form. The input is read to its end, also where the text passes its
/// limit before, so that a fault of the input comes first.
pub fn written(
    alloc: Global,
    input: &[u8],
    from: yaml_encoding_t,
    settings: &yaml_settings_t,
    form: &mut Form,
) -> Result<Vec<u8>, yaml_fault_t>
    ensures text { Answers reformat_layers bytes_of (IsWrittenIn form.old from settings.now
        input.now) result }
    ensures beginning { IfOk result (λ _. comes_to_nothing form.old (events_of from input.now)
        ≡ comes_to_nothing form.new []) }
{
    let text = read_text(alloc, input, from);
    let mut reading = reading_of(alloc, &text)?;
    let answer = written_from(alloc, &text, &mut reading, settings, form);
    let_go(reading);
    answer
}

/// The text in pretty form, and whether the input begins with nothing; where it doesn't, the text reads back.
pub fn in_pretty_form(
    alloc: Global,
    input: &[u8],
    from: yaml_encoding_t,
    settings: &yaml_settings_t,
) -> Result<(Vec<u8>, bool), yaml_fault_t>
    ensures { Answers reformat_layers text_and_whether
        (IsInPrettyForm from settings.now input.now) result }
{
    let mut form = Form::Pretty(Beginning::Start);
    let text = written(alloc, input, from, settings, &mut form)?;
    Ok((text, begins_with_nothing(form)))
}
