//! Events that are written in pieces.

ghost use Rattle.std.specs.Prelude.{◌≡◌, ◌≤◌, ◌<◌, ◌^◌, None, IfSome};
ghost use Rattle.yaml_emit.specs.Judged.{refused_at};

use super::emitter::{Made, emitter_under, flush, give};
use crate::lines::{Reply, Settings};
use serde_json::Value;
use std::alloc::Global;
use std::mem;
use yaml_emit::{
    Expected, Level, yaml_emitter_directives, yaml_emitter_into_output, yaml_emitter_outer,
    yaml_emitter_resume, yaml_emitter_stand, yaml_emitter_stand_t, yaml_emitter_t,
};
use yaml_parse::yaml_tag_directive_t;
use yaml_scan::{yaml_error_type_t, yaml_fault_t};

// No emitter goes on with a larger limit, nor in a line of more columns.
const MOST: u64 = 4_611_686_018_427_387_904;

/// What was written in pieces under the settings, and the checkpoint of the last of their emitters.
#[derive(Drop)]
pub struct Pieces {
    pub settings: Settings,
    pub text: Vec<u8>,
    /// The first fault.
    pub fault: Option<yaml_fault_t>,
    // How many events were given, without those that wait.
    taken: usize,
    // None where no event was given.
    stand: Option<yaml_emitter_stand_t>,
    around: Vec<Level>,
    directives: Vec<yaml_tag_directive_t>,
}

// The last emitter's checkpoint, if one may continue from it: no event was refused, and the line
// isn't too long.
fn right_stand(pieces: &Pieces) -> Option<yaml_emitter_stand_t>
    ensures right { IfSome result (λ s. refused_at s.place ≡ None) }
    ensures column { IfSome result (λ s. s.cursor.column < 2 ^ 62) }
{
    let stand = pieces.stand?;
    if stand.cursor.column >= MOST {
        return None;
    }
    match stand.place {
        Expected::Refused(_) => None,
        _ => Some(stand),
    }
}

// What is left of a limit.
fn rest_of(limit: u64, text: &[u8]) -> u64
    ensures { result ≤ 2 ^ 62 }
{
    limit.saturating_sub(text.len() as u64).min(MOST)
}

// An emitter that continues where the last one stopped, or that begins.
fn next_emitter(alloc: Global, pieces: &mut Pieces) -> Made {
    let Settings { asked, limit } = pieces.settings;
    let limit = rest_of(limit, pieces.text.as_slice());
    match right_stand(pieces) {
        Some(stand) => {
            let around = mem::replace(&mut pieces.around, Vec::new(alloc));
            let directives = mem::replace(&mut pieces.directives, Vec::new(alloc));
            yaml_emitter_resume(alloc, asked, limit, stand, around, directives)
        }
        None => emitter_under(alloc, &asked, limit),
    }
}

// Keeps the checkpoint of an emitter that was given the line's events up to there, with copies of
// the open collections and the directives.
fn keep_stand(reply: &mut Reply, emitter: &yaml_emitter_t, upto: usize, pieces: &mut Pieces) {
    let stand = yaml_emitter_stand(emitter);
    pieces.taken = upto.saturating_sub(stand.waiting as usize);
    pieces.stand = Some(stand);
    reply.room(pieces.around.extend_from_slice(yaml_emitter_outer(emitter)));
    for directive in yaml_emitter_directives(emitter) {
        let handle = reply.copy(directive.handle.as_slice());
        let prefix = reply.copy(directive.prefix.as_slice());
        let copied = yaml_tag_directive_t { handle, prefix };
        reply.room(pieces.directives.push(copied));
    }
}

// Gives the events from the first that wasn't taken, and keeps the first fault.
fn feed(reply: &mut Reply, events: &[Value], emitter: &mut yaml_emitter_t, pieces: &mut Pieces) {
    for listed in events.get(pieces.taken..).unwrap_or(&[]) {
        let fault = give(reply, listed, emitter);
        pieces.fault = pieces.fault.or(fault);
    }
}

// Has a further emitter write the line's events up to there, from the first that wasn't taken.
fn put_piece(reply: &mut Reply, events: &[Value], upto: usize, pieces: &mut Pieces) {
    match next_emitter(reply.alloc, pieces) {
        Ok(mut emitter) => {
            let given = events.get(..upto).unwrap_or(events);
            feed(reply, given, &mut emitter, pieces);
            if upto == events.len() {
                pieces.fault = flush(&mut emitter);
            }
            keep_stand(reply, &emitter, upto, pieces);
            let text = yaml_emitter_into_output(emitter);
            reply.room(pieces.text.extend_from_slice(text.as_slice()));
        }
        Err(fault) => pieces.fault = Some(fault),
    }
}

/// What is written of the line's events in pieces of that many, up to the first fault.
pub fn written(reply: &mut Reply, line: &Value, settings: Settings, size: usize) -> Pieces {
    let mut pieces = Pieces {
        settings,
        text: Vec::new(reply.alloc),
        fault: None,
        taken: 0,
        stand: None,
        around: Vec::new(reply.alloc),
        directives: Vec::new(reply.alloc),
    };
    let events = reply.list(line, "/events");
    let mut upto = 0usize;
    for _ in events {
        upto = upto.saturating_add(size).min(events.len());
        put_piece(reply, events, upto, &mut pieces);
        if upto == events.len() || pieces.fault.is_some() {
            break;
        }
    }
    match pieces.fault {
        // Out of memory is answered whichever pieces meet it.
        Some(fault) if fault.kind == yaml_error_type_t::YAML_MEMORY_ERROR => reply.done(Some(
            fault,
        )),
        _ => {}
    }
    pieces
}
