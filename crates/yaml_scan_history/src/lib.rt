//! What the lexemes of a text become: which of them are keys, which block levels they open and close, and which
//! tokens can be handed out. Definitions and laws; the code is the tables of kinds alone.
#![tactic(auto)]

mod between;
mod directives;
mod header;
mod kind;
mod laws;
mod lexeme;
mod run;
mod words_laws;

pub use between::GapSpot;
pub use directives::DirectiveName;
pub use header::Chomp;
pub use kind::Kind;
pub use laws::{faults_are_told, kinds_have_roles, settled_stays};
pub use lexeme::{Entry, Lexeme, Opens};
pub use run::Run;
pub use words_laws::{
    anchor_reads, gap_reads, gaps_and_uris_are_unbounded, lines_are_unbounded,
    scalars_are_unbounded, tag_reads, uri_reads,
};
