//! What a parser keeps of the event that it gave last.

/// What an event is.
#[derive(Clone, Copy, PartialEq, Eq)]
pub(crate) enum EventKind {
    StreamStart,
    StreamEnd,
    DocumentStart,
    DocumentEnd,
    Alias,
    Scalar,
    SequenceStart,
    SequenceEnd,
    MappingStart,
    MappingEnd,
}

/// What of an event isn't text. `implicit` is that of a document's start or end, of a collection, or of a plain scalar.
#[derive(Clone, Copy)]
pub(crate) struct Slot<P> {
    pub kind: EventKind,
    pub style: yaml_scalar_style_t,
    pub flow: bool,
    pub implicit: bool,
    pub quoted_implicit: bool,
    /// A node has such properties.
    pub has_anchor: bool,
    pub has_tag: bool,
    /// A scalar, which isn't left out, or an alias.
    pub has_value: bool,
    pub start: P,
    pub end: P,
}

use yaml_scan_model::yaml_scalar_style_t;
