//! Scalars on a draft: their styles, and their texts in runs.
#![tactic(auto)]

mod block;
mod class;
mod flow;
mod letters;
mod quoted;
mod run;
mod scalar;
mod style;
mod word;

pub use class::{BREAK, classes_of};
pub use quoted::hex;
pub use scalar::{Manner, put_scalar};
pub use style::{allowed_by, taken};
pub use word::put_word;
