//! What an input says: its content, plain reading and documents, and laws: an input has one content, which its canonical, pretty
//! and readable texts say again and no other content's text does; documents depend on the content alone. No code.
#![tactic(auto)]

mod adapted_laws;
mod back;
mod bytes_laws;
mod canonical;
mod canonical_laws;
mod content_laws;
mod dumps_laws;
mod encodings_laws;
mod input_laws;
mod kept_laws;
mod loads;
mod pretty_laws;
mod readable_laws;
mod reading_laws;
mod streams_laws;
mod token_laws;
mod tree_laws;
mod writable_laws;
