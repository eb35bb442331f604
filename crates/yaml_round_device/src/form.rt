//! How an answer is written, and what a run does.

/// How the bytes of the answer spell its characters. A UTF-16 text begins with U+FEFF.
#[derive(Clone, Copy, PartialEq, Eq, Debug)]
pub enum yaml_output_encoding_t {
    Utf8,
    Utf16Le,
    Utf16Be,
}

/// The form that an answer has.
#[derive(Clone, Copy, PartialEq, Eq, Debug)]
pub enum yaml_form_t {
    Canonical,
    Pretty,
}

/// What a run does with its input.
#[derive(Clone, Copy, PartialEq, Eq, Debug)]
pub enum yaml_command_t {
    /// Writes the events again.
    Fmt,
    /// Writes the loaded documents again.
    Docs,
    /// Writes a line for each event.
    Events,
}
