//! Comparisons of loaded documents, by their dumps side by side: anchors count by what they share, and not by name.

ghost use Rattle.yaml_round_engine.specs.Dumps.{AreDumps, TurnsOn, Compares, ComparesAll, document_says, dump_left, documents_left};

use crate::cause::{parting, yaml_cause_t};
use crate::dump::Dump;
use crate::front::Front;
use std::alloc::{AllocError, Global};
use std::collections::VecDeque;
use yaml_parse::yaml_document_t;

/// How two dumps go on.
#[derive(Clone, Copy)]
pub(crate) enum Turn {
    // Both events have the same content.
    Same,
    // Both are at their end.
    End,
    // They don't, or one is at its end.
    Different(yaml_cause_t),
}

// The next event of each dump.
fn turned(first: &mut Dump, second: &mut Dump) -> Result<Turn, AllocError>
    requires { AreDumps first.old second.old }
    ensures { TurnsOn first.old second.old result first.new second.new }
{
    let one = first.next()?;
    let other = second.next()?;
    match (one, other) {
        (true, true) => match parting(first.event(), second.event()) {
            None => Ok(Turn::Same),
            Some(cause) => Ok(Turn::Different(cause)),
        },
        (true, false) => Ok(Turn::Different(yaml_cause_t::OnlyFirst)),
        (false, true) => Ok(Turn::Different(yaml_cause_t::OnlySecond)),
        (false, false) => Ok(Turn::End),
    }
}

// Whether two dumps are the same to their end.
fn same_dumps(first: &mut Dump, second: &mut Dump, front: &mut Front) -> Result<bool, AllocError>
    requires { AreDumps first.old second.old }
    ensures { Compares (dump_left first.old) (dump_left second.old) front.old result front.new }
{
    'events: loop {
        match turned(first, second) {
            Err(refusal) => return Err(refusal),
            Ok(Turn::End) => return Ok(true),
            Ok(Turn::Different(cause)) => {
                front.part_at(cause);
                return Ok(false);
            }
            Ok(Turn::Same) => match front.pass(first.event()) {
                Ok(()) => {}
                Err(refusal) => return Err(refusal),
            },
        }
    }
}

// Whether two documents have the same dump.
fn same_document(
    alloc: Global,
    document: yaml_document_t,
    other: yaml_document_t,
    front: &mut Front,
) -> Result<bool, AllocError>
    ensures { Compares (document_says document) (document_says other) front.old result front.new }
{
    let mut first = Dump::of(alloc, document)?;
    let mut second = Dump::of(alloc, other)?;
    same_dumps(&mut first, &mut second, front)
}

/// Whether documents have the same dumps, one after another. Where they haven't, the front says what is before the first
/// events that differ. Documents are dropped as they are passed.
pub fn same_documents(
    alloc: Global,
    first: &mut VecDeque<yaml_document_t>,
    second: &mut VecDeque<yaml_document_t>,
    front: &mut Front,
) -> Result<bool, AllocError>
    ensures { ComparesAll (documents_left first.old.items) (documents_left second.old.items)
        front.old result front.new }
{
    'documents: loop {
        match first.pop_front() {
            None => match second.pop_front() {
                None => return Ok(true),
                Some(_) => {
                    front.part_at(yaml_cause_t::OnlySecond);
                    return Ok(false);
                }
            },
            Some(document) => match second.pop_front() {
                None => {
                    front.part_at(yaml_cause_t::OnlyFirst);
                    return Ok(false);
                }
                Some(other) => match same_document(alloc, document, other, front) {
                    Ok(true) => {}
                    Ok(false) => return Ok(false),
                    Err(refusal) => return Err(refusal),
                },
            },
        }
    }
}
