//! An emitter under the engine's settings, and the events that it is given.

ghost use Rattle.std.specs.Prelude.{◌≡◌, ℕ, Some, List, [], ◌∷◌, IfOk, IfErr, option_map};
ghost use Rattle.yaml_scan_types.specs.Faults.{Fault, fault_of, memory_fault};
ghost use Rattle.yaml_parse.specs.Events.{Event, borrowed_body};
ghost use Rattle.yaml_parse.specs.Constructors.{HasUtf8};
ghost use Rattle.yaml_emit.specs.Content.{emitter_event};
ghost use Rattle.yaml_emit.specs.Emitter.{IsLimited};
ghost use Rattle.yaml_round_engine.specs.Beginning.{nothing_comes};
ghost use Rattle.yaml_round_engine.specs.Writing.{IsUnder, Gives, given_in, is_canonical, is_pretty, requested_under, comes_to_nothing, encoding_under, FinishesText};

use crate::beginning::{Beginning, behind};
use crate::styles::{OpeningPosition, position_after, restyle};
use std::alloc::Global;
use yaml_emit::{
    yaml_emitter_emit_soon, yaml_emitter_fault, yaml_emitter_initialize, yaml_emitter_into_output,
    yaml_emitter_set_break, yaml_emitter_set_canonical, yaml_emitter_set_encoding,
    yaml_emitter_set_indent, yaml_emitter_set_unicode, yaml_emitter_set_width, yaml_emitter_t,
};
use yaml_parse::{EventRef, yaml_encoding_t, yaml_fault_t, yaml_memory_fault, yaml_origin_t};
use yaml_round_device::{yaml_output_encoding_t, yaml_settings_t};
use yaml_round_reading::normalized;

/// The form in which events are given to the emitter, and what it has to know of those that were.
#[derive(Clone, Copy)]
pub enum Form {
    /// Canonical form.
    Canonical,
    /// Pretty form, with the events' own styles, and what they show of their beginning.
    Pretty(Beginning),
    /// The normal form that people read, and where the next event is.
    Readable(OpeningPosition),
}

/// Whether that is canonical form.
pub(crate) fn is_canonical(form: Form) -> bool
    ensures { result ≡ is_canonical form }
{
    matches!(form, Form::Canonical)
}

/// Whether the events that were given are those of an input that begins with nothing, as pretty form has to know.
pub(crate) fn begins_with_nothing(form: Form) -> bool
    ensures { result ≡ comes_to_nothing form [] }
{
    matches!(form, Form::Pretty(Beginning::Nothing))
}

// Whether that is pretty form, with the events' own styles.
fn is_pretty(form: Form) -> bool
    ensures { result ≡ is_pretty form }
{
    matches!(form, Form::Pretty(_))
}

fn output_encoding(encoding: yaml_output_encoding_t) -> yaml_encoding_t
    ensures { result ≡ encoding_under encoding }
{
    match encoding {
        yaml_output_encoding_t::Utf8 => yaml_encoding_t::YAML_UTF8_ENCODING,
        yaml_output_encoding_t::Utf16Le => yaml_encoding_t::YAML_UTF16LE_ENCODING,
        yaml_output_encoding_t::Utf16Be => yaml_encoding_t::YAML_UTF16BE_ENCODING,
    }
}

/// An emitter under these settings that was given nothing yet.
pub(crate) fn emitter_under(
    alloc: Global,
    settings: &yaml_settings_t,
    canonical: bool,
) -> Result<yaml_emitter_t, yaml_fault_t>
    ensures under { IfOk result (λ e. IsUnder e (requested_under settings.now canonical)
        settings.now.limit) }
    ensures memory { IfErr result (λ f. fault_of f ≡ memory_fault yaml_origin_t.Emitter) }
{
    let Ok(mut emitter) = yaml_emitter_initialize(alloc, settings.limit) else {
        return Err(yaml_memory_fault(yaml_origin_t::Emitter));
    };
    yaml_emitter_set_encoding(&mut emitter, output_encoding(settings.encoding));
    yaml_emitter_set_canonical(&mut emitter, canonical);
    yaml_emitter_set_indent(&mut emitter, settings.indent);
    yaml_emitter_set_width(&mut emitter, settings.width);
    yaml_emitter_set_unicode(&mut emitter, settings.unicode);
    yaml_emitter_set_break(&mut emitter, settings.line_break);
    Ok(emitter)
}

// What is known of the beginning with the event.
// Inlined: a test an event; only the first three are looked at.
#[inline(always)]
fn see(beginning: &mut Beginning, event: EventRef<'_>)
    ensures { (es : List _) → nothing_comes beginning.old
        (emitter_event (borrowed_body event.entry) ∷ es) ≡ nothing_comes beginning.new es }
{
    match *beginning {
        Beginning::Nothing | Beginning::Something => {}
        Beginning::Start | Beginning::Stream | Beginning::Document => {
            *beginning = behind(*beginning, event);
        }
    }
}

/// Gives the event, normalized, as its form has it. The emitter keeps its first fault.
pub(crate) fn emit_formed(emitter: &mut yaml_emitter_t, form: &mut Form, event: EventRef<'_>)
    requires { HasUtf8 (borrowed_body event) }
    ensures { (e : Event) → e.body ≡ borrowed_body event.entry
        → Gives form.old emitter.old e form.new emitter.new }
{
    let normal = normalized(event, !is_pretty(*form));
    match form {
        Form::Canonical => yaml_emitter_emit_soon(emitter, &normal),
        Form::Pretty(beginning) => {
            see(beginning, normal);
            yaml_emitter_emit_soon(emitter, &normal);
        }
        Form::Readable(place) => {
            let at = *place;
            *place = position_after(normal, at);
            yaml_emitter_emit_soon(emitter, &restyle(normal, at));
        }
    }
}

fn fault_in(emitter: &yaml_emitter_t) -> Option<yaml_fault_t>
    ensures is { option_map fault_of result ≡ emitter.now.fault }
    ensures limited { (f : Fault) → emitter.now.fault ≡ Some f → IsLimited emitter.now f }
{
    yaml_emitter_fault(emitter).copied()
}

/// The text, which passes no limit, or the emitter's fault, which names a limit or says that memory ran out.
#[tactic(auto, using(crate::proofs::Laying::whole_text))]
pub(crate) fn finished(emitter: yaml_emitter_t) -> Result<Vec<u8>, yaml_fault_t>
    ensures { FinishesText emitter result }
{
    let fault = fault_in(&emitter);
    let text = yaml_emitter_into_output(emitter);
    match fault {
        Some(fault) => Err(fault),
        None => Ok(text),
    }
}
