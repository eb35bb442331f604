//! A caller of the members, as an example: the value of a key in a document of settings. Of the members it knows what the
//! contracts of their public calls say, and no more.
#![tactic(auto)]

mod error;
mod load;
mod value;

pub use error::LookupError;
pub use load::{load_mapping, lookup};
pub use value::value_of;
