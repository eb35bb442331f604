//! What a call that fills borrowed slots answers.

/// What a call finds: an event or a fault, which is in its slot, or the end.
#[derive(Clone, Copy, PartialEq, Eq, Debug)]
pub enum yaml_found_t {
    Event,
    Refused,
    End,
}
