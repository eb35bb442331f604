//! Which of two inputs is spoken of.

/// One of two inputs.
#[derive(Clone, Copy, PartialEq, Eq, Debug)]
pub enum yaml_side_t {
    First,
    Second,
}
