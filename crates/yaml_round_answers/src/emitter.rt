//! What an emitter makes of records.

ghost use Rattle.std.specs.Prelude.{◌≡◌, None, Some, IsSome, IfOk, IfErr, OnOk, option_map};
ghost use Rattle.yaml_parse.specs.scan_types.Faults.{Fault, fault_of, IsMemoryFault, emit_layers, Answers};
ghost use Rattle.yaml_emit.specs.Emitter.{IsLimited};
ghost use Rattle.yaml_emit.specs.Verdict.{TellsOutcome};
ghost use Rattle.yaml_round_answers.specs.Meaning.{events_meant, asked_meant};
ghost use Rattle.yaml_round_answers.specs.Written.{IsEmitted};
ghost use Rattle.yaml_round_answers.specs.Leading.{bytes_of, requested, asked_for, all_events, StartsUnder, TakesAllEvents, FinishesEmitter};

use crate::event::{directives_of, event_of};
use crate::number::{break_of, encoding_of, is_set};
use crate::record::{yaml_c_directive, yaml_c_event, yaml_c_settings};
use std::alloc::Global;
use yaml_emit::{
    RequestedSettings, yaml_emitter_delete, yaml_emitter_emit_ref, yaml_emitter_fault,
    yaml_emitter_initialize, yaml_emitter_into_output, yaml_emitter_set_break,
    yaml_emitter_set_canonical, yaml_emitter_set_encoding, yaml_emitter_set_indent,
    yaml_emitter_set_unicode, yaml_emitter_set_width, yaml_emitter_t,
};
use yaml_parse::{yaml_fault_t, yaml_memory_fault, yaml_origin_t};

/// What is asked of an emitter.
#[derive(Clone, Copy)]
pub struct Asked {
    pub settings: RequestedSettings,
    pub limit: u64,
}

/// What C's record asks of an emitter.
pub fn asked_of(given: &yaml_c_settings) -> Option<Asked>
    ensures { option_map asked_for result ≡ asked_meant given.now }
{
    let encoding = encoding_of(given.encoding)?;
    let line_break = break_of(given.line_break)?;
    Some(Asked {
        settings: RequestedSettings {
            encoding,
            canonical: is_set(given.canonical),
            indent: given.indent,
            width: given.width,
            unicode: is_set(given.unicode),
            line_break,
        },
        limit: given.limit,
    })
}

/// Out of memory, as an emitter's fault.
pub(crate) fn no_memory() -> yaml_fault_t
    ensures { IsMemoryFault emit_layers (fault_of result) }
{
    yaml_memory_fault(yaml_origin_t::Emitter)
}

// An emitter that is asked for this, and was given nothing yet.
pub(crate) fn emitter_under(
    alloc: Global,
    asked: &Asked,
    limit: u64,
) -> Result<yaml_emitter_t, yaml_fault_t>
    ensures under { IfOk result (λ e. StartsUnder e (requested asked.now) limit) }
    ensures memory { IfErr result (λ f. IsMemoryFault emit_layers (fault_of f)) }
{
    let Ok(mut emitter) = yaml_emitter_initialize(alloc, limit) else {
        return Err(no_memory());
    };
    let settings = asked.settings;
    yaml_emitter_set_encoding(&mut emitter, settings.encoding);
    yaml_emitter_set_canonical(&mut emitter, settings.canonical);
    yaml_emitter_set_indent(&mut emitter, settings.indent);
    yaml_emitter_set_width(&mut emitter, settings.width);
    yaml_emitter_set_unicode(&mut emitter, settings.unicode);
    yaml_emitter_set_break(&mut emitter, settings.line_break);
    Ok(emitter)
}

// Gives the events of records, one after another. Refused when out of memory alone.
pub(crate) fn give_all(
    alloc: Global,
    bytes: &[u8],
    list: &[yaml_c_directive],
    records: &[yaml_c_event],
    emitter: &mut yaml_emitter_t,
) -> Result<(), yaml_fault_t>
    requires { IsSome (events_meant bytes.now list.now records.now) }
    ensures given { OnOk result (TakesAllEvents emitter.old
        (all_events (events_meant bytes.now list.now records.now)) emitter.new) }
    ensures memory { IfErr result (λ f. IsMemoryFault emit_layers (fault_of f)) }
{
    if records.is_empty() {
        return Ok(());
    }
    for record in records {
        let Some(directives) = directives_of(alloc, bytes, list, record) else {
            return Err(no_memory());
        };
        let Some(event) = event_of(bytes, &directives, record) else {
            return Err(no_memory());
        };
        yaml_emitter_emit_ref(emitter, event);
    }
    Ok(())
}

pub(crate) fn fault_in(emitter: &yaml_emitter_t) -> Option<yaml_fault_t>
    ensures is { option_map fault_of result ≡ emitter.now.fault }
    ensures tells { TellsOutcome emitter.now }
    ensures limited { (f : Fault) → emitter.now.fault ≡ Some f → IsLimited emitter.now f }
{
    yaml_emitter_fault(emitter).copied()
}

// The text, or the emitter's fault.
fn finished(emitter: yaml_emitter_t) -> Result<Vec<u8>, yaml_fault_t>
    ensures { FinishesEmitter emitter result }
{
    let fault = fault_in(&emitter);
    let text = yaml_emitter_into_output(emitter);
    match fault {
        Some(fault) => Err(fault),
        None => Ok(text),
    }
}

/// The text that an emitter makes of the events that records mean, or its fault.
pub fn emitted(
    alloc: Global,
    bytes: &[u8],
    list: &[yaml_c_directive],
    records: &[yaml_c_event],
    asked: &Asked,
) -> Result<Vec<u8>, yaml_fault_t>
    requires { IsSome (events_meant bytes.now list.now records.now) }
    ensures { Answers emit_layers bytes_of (IsEmitted (requested asked.now) asked.now.limit
        (all_events (events_meant bytes.now list.now records.now))) result }
{
    let mut emitter = emitter_under(alloc, asked, asked.limit)?;
    match give_all(alloc, bytes, list, records, &mut emitter) {
        Ok(()) => finished(emitter),
        Err(fault) => {
            yaml_emitter_delete(emitter);
            Err(fault)
        }
    }
}
