//! Laws of written text: quoted, plain and block scalars, tags, directives and whole documents, canonical and pretty, are read as
//! what they were written for; columns and sizes; and dumps, which load again as the documents that they were made of. No code.
#![tactic(auto)]

mod block_laws;
mod canonical_laws;
mod columns_laws;
mod doc_laws;
mod dumps_laws;
mod flows;
mod key_laws;
mod laws;
mod leaf_laws;
mod pretty_laws;
mod quoted_laws;
mod scalar_laws;
mod streams_laws;
mod tags_laws;
mod text_laws;

pub use dumps_laws::documents_are_loaded;
