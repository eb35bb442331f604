//! Directives.

/// Which directive a name shows.
#[derive(Clone, Copy)]
pub enum DirectiveName {
    Yaml,
    Tag,
}
