//! Laws for users, of what a program makes of several calls: the headline, sizes, limits, normal forms, and texts that are written
//! piece by piece. No code.
#![tactic(auto)]

mod column;
mod json_laws;
mod laws;
mod mark;
mod normalizing;
mod parting;
mod pieces_laws;
mod plain;
mod reload;
mod size;
mod sizes_laws;
mod windows_laws;
