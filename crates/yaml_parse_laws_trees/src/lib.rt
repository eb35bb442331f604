//! Laws of the grammar of tokens and of the parser's machine: which lists of tokens it accepts, and where it refuses the others.
//! The fault of a list of tokens, its events, before a fault too, and the fault that loading ends in, said of trees and of the
//! tokens, are what the machine, and the loads of its events, come to. No code.
#![tactic(auto)]

mod counts_laws;
mod faults_laws;
mod given_laws;
mod loading_laws;
mod sound_laws;
mod windows_laws;

pub use counts_laws::laws_of_counts;
pub use faults_laws::laws_of_faults;
pub use given_laws::laws_of_events;
pub use loading_laws::laws_of_loading;
pub use sound_laws::laws_of_acceptance;
pub use windows_laws::{
    brackets_are_closed, directives_are_parsed, ended_fronts_stay, refused_fronts_stay,
    refused_tokens_stay, windows_are_parsed,
};
