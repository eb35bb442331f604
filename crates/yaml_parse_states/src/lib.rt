//! The parser: tokens to borrowed events, in libyaml's way, one function a state; and a caller's own source of tokens.
#![tactic(auto)]

mod block;
mod directives;
mod document;
mod event;
mod flow;
mod handles;
mod list;
mod node;
mod owned;
mod parser;
mod source;

pub use list::{yaml_token_list_t, yaml_token_utf8};
pub use parser::{Parser, Refusal, Step};
pub use source::SourceTokens;
