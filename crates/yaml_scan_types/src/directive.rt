//! The plain records of directives.

/// The version that a `%YAML` directive names (YAML 1.1, 7.1.1).
#[derive(Clone, Copy, PartialEq, Eq, Debug)]
pub struct yaml_version_directive_t {
    pub major: i32,
    pub minor: i32,
}

/// A `%TAG` directive (YAML 1.1, 7.1.2): the handle stands for the prefix.
#[derive(Drop)]
pub struct yaml_tag_directive_t {
    /// `!`, `!!` or `!name!`.
    pub handle: Vec<u8>,
    pub prefix: Vec<u8>,
}
