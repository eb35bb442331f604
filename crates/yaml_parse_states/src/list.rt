//! The list.

ghost use Rattle.std.specs.Prelude.{◌≡◌, ◌↔◌, ◌++◌, [], ◌∷◌, Some, None, IsTrue, OnOk, OnErr};
ghost use Rattle.yaml_scan_model.specs.scan_types.Tokens.{token_of};
ghost use Rattle.yaml_scan_model.specs.scan_types.Faults.{fault_of};
ghost use Rattle.yaml_parse_model.specs.Source.{HasUtf8};

use simdutf8::is_utf8;
use std::alloc::{AllocError, Global};
use std::collections::VecDeque;
use std::marker::Model;
use yaml_parse_model::yaml_token_source_t;
use yaml_scan_model::{yaml_fault_t, yaml_token_body_t, yaml_token_t};

/// Tokens in order, and the fault that ends them, if any. Their texts are UTF-8.
#[derive(Drop)]
pub struct yaml_token_list_t {
    tokens: VecDeque<yaml_token_t>,
    fault: Option<yaml_fault_t>,
}

impl Model for yaml_token_list_t {
    ghost use Rattle.yaml_parse_states.specs.List.{TokenList};

    ghost Value = { TokenList };

    ghost use Rattle.yaml_parse_states.specs.ListView.{list_view, IsList};

    ghost view = { list_view };

    ghost invariant = { IsList };
}

impl yaml_token_list_t {
    /// No tokens, and no fault.
    pub fn new(alloc: Global) -> yaml_token_list_t
        ensures { result ≡ record { tokens = []; fault = None } }
    {
        yaml_token_list_t {
            tokens: VecDeque::new(alloc),
            fault: None,
        }
    }

    /// Adds a token at the end. Where the growth is refused the list stays.
    pub fn push(&mut self, token: yaml_token_t) -> Result<(), AllocError>
        requires { HasUtf8 (token_of token).body }
        ensures ok { OnOk result (self.new ≡ record self.old {
          tokens = self.old.tokens ++ token_of
              token ∷ [];
        }) }
        ensures err { OnErr result (self.new ≡ self.old) }
    {
        self.tokens.push_back(token)?;
        Ok(())
    }

    /// The fault that comes after the tokens.
    pub fn end(&mut self, fault: yaml_fault_t)
        ensures { self.new ≡ record self.old { fault = Some (fault_of fault) } }
    {
        self.fault = Some(fault);
    }
}

impl yaml_token_source_t for yaml_token_list_t {
    ghost to_come = { λ l. l.tokens };

    ghost fault_to_come = { λ l. l.fault };

    fn next_token(&mut self) -> Result<yaml_token_t, yaml_fault_t> {
        match self.tokens.pop_front() {
            Some(token) => Ok(token),
            None => match self.fault.take() {
                Some(fault) => Err(fault),
                None => Ok(yaml_token_t::empty()),
            },
        }
    }
}

/// Whether all texts of the token are UTF-8. The scanner's are, except for tags and prefixes, whose escapes can spell any
/// bytes.
pub fn yaml_token_utf8(token: &yaml_token_t) -> bool
    ensures { IsTrue result ↔ HasUtf8 (token_of token.now).body }
{
    match &token.body {
        yaml_token_body_t::TagDirective { handle, prefix } => is_utf8(handle) && is_utf8(prefix),
        yaml_token_body_t::Alias { value } | yaml_token_body_t::Anchor { value } => is_utf8(value),
        yaml_token_body_t::Tag { handle, suffix } => is_utf8(handle) && is_utf8(suffix),
        yaml_token_body_t::Scalar { value, .. } => is_utf8(value),
        _ => true,
    }
}
