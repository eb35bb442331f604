//! The answer to a line, while it is made.

use crate::lines::Part;
use json::Writer;
use std::alloc::Global;
use yaml_parse::{yaml_event_t, yaml_text_fault_t};
use yaml_scan::yaml_fault_t;

/// Why a line has no answer: what is wrong, and of what.
pub type Wrong = (&'static str, &'static str);

/// What is reported where memory ran out.
pub const MEMORY: &'static str = "out of memory";

// What is reported of a field.
const NO_FIELD: &'static str = "no such field, or not of its form: ";

/// Reads fields of a line one after another, and writes the answer, an object, as JSON. The first error is kept, and `finish` answers it:
/// what is read of a field that is missing, and all that is written after it, is ignored, so that the calls in between
/// have no exits, which are expensive to prove.
#[derive(Drop)]
pub struct Reply {
    /// Where memory comes from.
    pub alloc: Global,
    /// What the answer is written by.
    pub(crate) writer: Writer,
    wrong: Option<Wrong>,
    /// The fault that is after what else was answered, or of a call that refuses.
    pub fault: Option<yaml_fault_t>,
    /// The first error is that the call refuses.
    pub is_refused: bool,
    /// The call of a session or a parser that is made again and again; none: those that the line lists.
    pub again: Option<&'static str>,
    /// The events that a parser gave.
    pub kept: Vec<yaml_event_t>,
}

impl Reply {
    /// Before the first field.
    pub fn new(alloc: Global) -> Reply {
        let mut reply = Reply {
            alloc,
            writer: Writer::new(Vec::new(alloc)),
            wrong: None,
            fault: None,
            is_refused: false,
            again: None,
            kept: Vec::new(alloc),
        };
        reply.put(Part::Object);
        reply
    }

    /// That field is missing, or not of its form.
    pub fn miss(&mut self, name: &'static str) {
        self.wrong = self.wrong.or(Some((NO_FIELD, name)));
    }

    /// There is no room.
    pub fn memory(&mut self) {
        self.wrong = self.wrong.or(Some((MEMORY, "")));
    }

    /// There was room for a part, or there wasn't.
    pub fn room<E: Drop>(&mut self, done: Result<(), E>) {
        if done.is_err() {
            self.memory();
        }
    }

    /// Keeps an event.
    pub fn keep(&mut self, event: yaml_event_t) {
        let kept = self.kept.push(event);
        self.room(kept);
    }

    /// The call was made, and refuses where it answers a fault.
    pub fn done(&mut self, fault: Option<yaml_fault_t>) {
        if let (Some(told), None) = (fault, self.wrong) {
            self.fault = fault;
            self.is_refused = true;
            self.wrong = Some(("refused: ", told.problem));
        }
    }

    /// An event or a document isn't made where its text is refused.
    pub fn refuse_text(&mut self, fault: Option<yaml_text_fault_t>) {
        match fault {
            Some(yaml_text_fault_t::Memory) => self.memory(),
            Some(yaml_text_fault_t::NotUtf8) => self.miss("text"),
            None => {}
        }
    }

    /// What was found, else `otherwise`.
    pub fn take<T: Copy>(&mut self, found: Option<T>, name: &'static str, otherwise: T) -> T {
        if found.is_none() {
            self.miss(name);
        }
        found.unwrap_or(otherwise)
    }

    /// The object that was written, unless there was an error.
    pub fn finish(mut self) -> Result<Vec<u8>, Wrong> {
        self.put(Part::EndObject);
        match self.wrong {
            Some(wrong) => Err(wrong),
            None => Ok(self.writer.into_inner()),
        }
    }
}
