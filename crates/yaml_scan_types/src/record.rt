//! The plain records of marks and simple keys.

/// A place in a text.
#[derive(Clone, Copy, PartialEq, Eq, Debug)]
pub struct yaml_mark_t {
    /// Bytes of the decoded text (UTF-8) before the place.
    pub index: u64,
    /// Line breaks before the place.
    pub line: u64,
    /// Characters since the last line break, so that columns count from 0.
    pub column: u64,
}

/// A place where a simple key may begin (YAML 1.1, 7.3.3). The scanner itself holds none: it looks back.
#[derive(Clone, Copy, PartialEq, Eq, Debug)]
pub struct yaml_simple_key_t {
    /// Whether a key may still begin there.
    pub possible: bool,
    /// Whether the key's `:` has to come.
    pub required: bool,
    /// The number of the key's first token, from 0.
    pub token_number: u64,
    pub mark: yaml_mark_t,
}
