//! The loader: makes a document of a parser's events.
#![tactic(auto)]

mod anchors;
mod loader;
mod making;

pub use loader::{Loader, loads_documents, numbers_follow_visits, undefined_alias_fault};
