//! Faults, as the lines write them.

use crate::lines::words::{ORIGINS, word_of};
use crate::lines::{Part, Reply};
use serde_json::Value;
use yaml_scan::{yaml_error_type_t, yaml_fault_t};

/// The problem of a fault that a line gives to its source. A fault's texts are the program's own, so this one replaces those
/// of the line.
pub const OWN: &str = "the source's own fault";

// The kinds of faults, by their numbers from 1.
const KINDS: [yaml_error_type_t; 7] = [
    yaml_error_type_t::YAML_MEMORY_ERROR,
    yaml_error_type_t::YAML_READER_ERROR,
    yaml_error_type_t::YAML_SCANNER_ERROR,
    yaml_error_type_t::YAML_PARSER_ERROR,
    yaml_error_type_t::YAML_COMPOSER_ERROR,
    yaml_error_type_t::YAML_WRITER_ERROR,
    yaml_error_type_t::YAML_EMITTER_ERROR,
];

/// The fault with those fields; `OWN` replaces its texts.
pub fn own_fault(reply: &mut Reply, fields: &Value) -> yaml_fault_t {
    let number = reply.count(fields, "/kind").wrapping_sub(1);
    let kind = KINDS.get(number as usize).copied();
    yaml_fault_t {
        kind: reply.take(kind, "kind", yaml_error_type_t::YAML_NO_ERROR),
        problem: OWN,
        offset: reply.count(fields, "/offset"),
        value: reply.number(fields, "/value"),
        problem_mark: reply.mark(fields, "/problem_mark"),
        context: None,
        context_mark: reply.mark(fields, "/context_mark"),
        origin: reply.choice(fields, "/origin", &ORIGINS),
    }
}

impl Reply {
    // A text of a fault; where it has none, the one that the line gives to its own fault.
    fn field_text(&mut self, name: &str, text: Option<&'static str>, own: Option<&Value>) {
        match (text, own.and_then(|own| own.get(name))) {
            (Some(text), _) => self.field(name, Part::Word(text)),
            (None, Some(Value::String(text))) => self.field_utf8(name, text.as_bytes()),
            _ => self.field(name, Part::Null),
        }
    }

    /// A fault, with all its fields; the source's own one has the texts that the line gives it.
    pub fn put_fault(&mut self, line: &Value, fault: &yaml_fault_t) {
        self.put(Part::Object);
        let is_own = fault.problem == OWN;
        let own = line.get("own").filter(|_| is_own);
        self.field_text("problem", Some(fault.problem).filter(|_| !is_own), own);
        self.field_text("context", fault.context, own);
        self.field("kind", Part::Count(fault.kind as u64));
        self.field("offset", Part::Count(fault.offset));
        self.field("value", Part::Number(fault.value));
        self.field("problem_mark", Part::Mark(fault.problem_mark));
        self.field("context_mark", Part::Mark(fault.context_mark));
        self.field("origin", Part::Word(word_of(&ORIGINS, fault.origin)));
        self.put(Part::EndObject);
    }

    /// The fault, null where there is none.
    pub fn put_told(&mut self, line: &Value, fault: Option<&yaml_fault_t>) {
        match fault {
            Some(fault) => self.put_fault(line, fault),
            None => self.put(Part::Null),
        }
    }
}
