//! Documents to text.

ghost use Rattle.std.specs.Prelude.{◌≡◌, ◌≢◌, ◌<◌, ◌≤◌, ◌++◌, ◌∷◌, [], List, length, None, true, false, OnOk, OnErr};
ghost use Rattle.yaml_emit_machine.specs.emit_layout.Content.{stream_end, Event};
ghost use Rattle.yaml_emit_machine.specs.Emitter.{Answers, Stays, left_if, opening_events, document_events, dump_events};
ghost use Rattle.yaml_emit_machine.specs.Verdict.{TellsOutcome};
ghost use Rattle.yaml_emit_machine.specs.Taking.{TakesEvents, Stuck, NotesMemory, NotesMemoryOf, BlamesLevels};
ghost use Rattle.yaml_emit_machine.specs.Dumping.{OpensStream, opening_event};

use yaml_emit_machine::{
    EventRef, answer, dump_document, is_closed, is_opened, set_closed, set_opened, take_event,
    yaml_document_delete, yaml_document_t, yaml_emitter_t, yaml_encoding_t, yaml_fault_t,
};

/// Starts the stream, which must not have been opened (see `yaml_emitter_opened`). Refused as `yaml_emitter_emit` is.
pub fn yaml_emitter_open(emitter: &mut yaml_emitter_t) -> Result<(), yaml_fault_t>
    requires { emitter.old.opened ≡ false }
    ensures answer { Answers emitter.new.fault result }
    ensures few { length emitter.new.held ≤ 3 }
    ensures opened { OnOk result (emitter.new.opened ≡ true) }
    ensures refused { OnErr result (emitter.new.opened ≡ false) }
    ensures keeps { emitter.new.closed ≡ emitter.old.closed }
    ensures takes { TakesEvents emitter.old (opening_event ∷ []) emitter.new [] }
    ensures memory { NotesMemoryOf opening_event emitter.old emitter.new }
    ensures blames { BlamesLevels opening_event emitter.old emitter.new }
    ensures tells { TellsOutcome emitter.new }
    ensures stays { Stays emitter.old emitter.new }
    ensures stuck { OnErr result (Stuck emitter.new) }
{
    take_event(
        emitter,
        &EventRef::StreamStart {
            encoding: yaml_encoding_t::YAML_ANY_ENCODING,
        },
    );
    answer(emitter)?;
    set_opened(emitter, true);
    Ok(())
}

/// Ends the stream, which must have been opened. A close after one that was Ok is Ok while no fault has come. Refused as
/// `yaml_emitter_emit` is.
pub fn yaml_emitter_close(emitter: &mut yaml_emitter_t) -> Result<(), yaml_fault_t>
    requires { emitter.old.opened ≡ true }
    ensures answer { Answers emitter.new.fault result }
    ensures again { emitter.old.closed ≡ true → emitter.new ≡ emitter.old }
    ensures takes { emitter.old.closed ≡ false
        → TakesEvents emitter.old (stream_end ∷ []) emitter.new [] }
    ensures memory { emitter.old.closed ≡ false
        → NotesMemoryOf stream_end emitter.old emitter.new }
    ensures blames { emitter.old.closed ≡ false
        → BlamesLevels stream_end emitter.old emitter.new }
    ensures tells { TellsOutcome emitter.new }
    ensures stays { Stays emitter.old emitter.new }
    ensures few { length emitter.new.held ≤ 3 }
    ensures closed { OnOk result (emitter.new.closed ≡ true) }
    ensures refused { OnErr result (emitter.new.closed ≡ emitter.old.closed) }
    ensures keeps { emitter.new.opened ≡ emitter.old.opened }
    ensures begun { emitter.new.fresh ≡ false }
{
    if is_closed(emitter) {
        answer(emitter)
    } else {
        take_event(emitter, &EventRef::StreamEnd);
        answer(emitter)?;
        set_closed(emitter, true);
        Ok(())
    }
}

// What a document without a root says is the end of the stream.
fn dump_nodes(emitter: &mut yaml_emitter_t, document: &yaml_document_t)
    requires { emitter.old.opened ≡ true }
    ensures takes { TakesEvents emitter.old (document_events emitter.old.closed document.now)
        emitter.new [] }
    ensures memory { NotesMemory true emitter.old emitter.new }
    ensures opened { emitter.new.opened ≡ true }
    ensures closed { 0 < length document.now.nodes → emitter.new.closed ≡ emitter.old.closed }
    ensures ended { length document.now.nodes ≡ 0 → emitter.new.fault ≡ None
        → emitter.new.closed ≡ true }
    ensures refused { emitter.new.fault ≢ None → emitter.new.closed ≡ emitter.old.closed }
{
    if document.node_count() == 0 {
        // The emitter keeps its fault.
        let _ = yaml_emitter_close(emitter);
    } else {
        dump_document(emitter, document);
    }
}

// Whether the stream is open.
fn open_if_needed(emitter: &mut yaml_emitter_t) -> bool
    ensures takes { (es : List Event)
        → TakesEvents emitter.old (opening_events emitter.old.opened ++ es) emitter.new
        (left_if result es) }
    ensures memory { NotesMemory true emitter.old emitter.new }
    ensures opened { result ≡ true → emitter.new.opened ≡ true }
    ensures kept { emitter.old.opened ≡ true → emitter.new.opened ≡ true }
    ensures refused { result ≡ false → emitter.new.fault ≢ None }
    ensures closed { emitter.new.closed ≡ emitter.old.closed }
    ensures opens { OpensStream emitter.old emitter.new }
    ensures begun { emitter.new.fresh ≡ false }
{
    if is_opened(emitter) {
        true
    } else {
        match yaml_emitter_open(emitter) {
            Ok(()) => true,
            Err(_) => false,
        }
    }
}

fn dump_all(emitter: &mut yaml_emitter_t, document: &yaml_document_t)
    ensures takes { TakesEvents emitter.old (dump_events emitter.old document.now) emitter.new [] }
    ensures memory { NotesMemory true emitter.old emitter.new }
    ensures opened { emitter.new.fault ≡ None → emitter.new.opened ≡ true }
    ensures kept { emitter.old.opened ≡ true → emitter.new.opened ≡ true }
    ensures closed { 0 < length document.now.nodes → emitter.new.closed ≡ emitter.old.closed }
    ensures ended { length document.now.nodes ≡ 0 → emitter.new.fault ≡ None
        → emitter.new.closed ≡ true }
    ensures refused { emitter.new.fault ≢ None → emitter.new.closed ≡ emitter.old.closed }
    ensures opens { OpensStream emitter.old emitter.new }
    ensures begun { emitter.new.fresh ≡ false }
{
    if open_if_needed(emitter) {
        dump_nodes(emitter, document);
    }
}

/// Writes a document, which is consumed. Opens the stream if that was not done, and closes it where
/// the document has no root. A node that is visited more than once has an anchor, `id` and a number
/// of at least three digits, and is an alias at its later visits. Refused as `yaml_emitter_emit`
/// is: the stream is open then where its start was right, and closed where it was before.
pub fn yaml_emitter_dump(
    emitter: &mut yaml_emitter_t,
    document: yaml_document_t,
) -> Result<(), yaml_fault_t>
    ensures takes { TakesEvents emitter.old (dump_events emitter.old document) emitter.new [] }
    ensures memory { NotesMemory true emitter.old emitter.new }
    ensures tells { TellsOutcome emitter.new }
    ensures answer { Answers emitter.new.fault result }
    ensures few { length emitter.new.held ≤ 3 }
    ensures opened { OnOk result (emitter.new.opened ≡ true) }
    ensures kept { emitter.old.opened ≡ true → emitter.new.opened ≡ true }
    // A document with a root doesn't end the stream, one without a root does.
    ensures closed { 0 < length document.nodes → emitter.new.closed ≡ emitter.old.closed }
    ensures ended { length document.nodes ≡ 0 → OnOk result (emitter.new.closed ≡ true) }
    ensures refused { OnErr result (emitter.new.closed ≡ emitter.old.closed) }
    ensures opens { OpensStream emitter.old emitter.new }
    ensures begun { emitter.new.fresh ≡ false }
    ensures stays { Stays emitter.old emitter.new }
{
    match answer(emitter) {
        Err(fault) => {
            yaml_document_delete(document);
            Err(fault)
        }
        Ok(()) => {
            dump_all(emitter, &document);
            yaml_document_delete(document);
            answer(emitter)
        }
    }
}
