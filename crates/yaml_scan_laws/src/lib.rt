//! Laws of every text: lexemes come one after another and end, what is settled stays so, few wait; tokens have texts in UTF-8; words
//! that are written are read; and texts that are cut between documents are read part by part. No code.
#![tactic(auto)]

mod cuts_laws;
mod ends;
mod keys;
mod keys_laws;
mod laws;
mod look_back;
mod names_laws;
mod pushes;
mod rows;
mod signs;
mod slots;
mod steps;
mod tokens;
mod utf8_laws;
mod walks;
mod white;
mod words_laws;
