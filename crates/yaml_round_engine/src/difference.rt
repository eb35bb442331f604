//! Where the contents of two inputs differ.

use crate::cause::yaml_cause_t;
use yaml_parse::{yaml_event_type_t, yaml_mark_t};

/// A step of a path, into a collection that is open at the place.
#[derive(Drop)]
pub enum yaml_step_t {
    /// An item of a sequence, from 0.
    Item(u64),
    /// The key itself of a mapping's pair, from 0.
    Key(u64),
    /// The value of a mapping's pair, from 0; `key` is the text of its key, in UTF-8, where that is a scalar.
    Value { pair: u64, key: Option<Vec<u8>> },
}

/// The first place at which the contents of two inputs differ: the events before it have the same
/// content, the next ones don't.
#[derive(Drop)]
pub struct yaml_difference_t {
    /// That many documents end before it.
    pub document: u64,
    /// From the document's root inwards. It is empty at the root, and where a document or its directives differ.
    pub path: Vec<yaml_step_t>,
    /// Where the first input's event begins.
    pub first_mark: yaml_mark_t,
    /// Where it ends.
    pub first_end: yaml_mark_t,
    /// Where the second input's event begins.
    pub second_mark: yaml_mark_t,
    /// Where it ends.
    pub second_end: yaml_mark_t,
    /// What the first input's event is.
    pub first_type: yaml_event_type_t,
    /// What the second input's event is.
    pub second_type: yaml_event_type_t,
    /// In what they differ.
    pub cause: yaml_cause_t,
}
