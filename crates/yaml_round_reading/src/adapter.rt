//! The adapter.

ghost use Rattle.std.specs.Prelude.{◌≡◌};
ghost use Rattle.yaml_scan.specs.Session.{begun};
ghost use Rattle.yaml_scan.specs.Scanned.{scanned};
ghost use Rattle.yaml_round_content.specs.Adapted.{adapted};
ghost use Rattle.yaml_round_reading.specs.Adapter.{IsStep, LooksAtTag, remaining_of};

use crate::refusal::{yaml_tag_fault, yaml_token_spells_text};
use std::alloc::Global;
use std::marker::Model;
use yaml_parse_model::yaml_token_source_t;
use yaml_scan::{
    yaml_encoding_t, yaml_fault_t, yaml_mark_t, yaml_parser_end, yaml_parser_peek,
    yaml_parser_scan, yaml_parser_t, yaml_token_t,
};

/// An input's tokens as a parser takes them: those of its session, up to the first tag that isn't UTF-8.
#[derive(Drop)]
pub struct yaml_adapter_t<'a> {
    session: yaml_parser_t<'a>,
}

impl<'a> Model for yaml_adapter_t<'a> {
    ghost use Rattle.yaml_scan.specs.Session.{View};

    ghost Value = { View };

    ghost use Rattle.yaml_round_reading.specs.AdapterView.{adapter_view, IsAdapter};

    ghost view = { adapter_view };

    ghost invariant = { IsAdapter };
}

impl<'a> yaml_adapter_t<'a> {
    /// An adapter over a session of its own, that input's in that encoding, of which nothing is read. What is to come is what is
    /// of the session, up to the first tag that isn't UTF-8.
    pub fn new(alloc: Global, input: &'a [u8], encoding: yaml_encoding_t) -> yaml_adapter_t<'a>
        ensures begun { result ≡ begun encoding input.now }
        ensures comes { remaining_of result ≡ adapted (scanned encoding input.now) }
    {
        yaml_adapter_t {
            session: yaml_parser_t::new(alloc, input, encoding),
        }
    }
}

impl<'a> yaml_token_source_t for yaml_adapter_t<'a> {
    ghost to_come = { λ a. (remaining_of a).tokens };

    ghost fault_to_come = { λ a. (remaining_of a).fault };

    ghost own_step = { IsStep };

    fn next_token(&mut self) -> Result<yaml_token_t, yaml_fault_t> {
        match wrong_tag(&mut self.session) {
            Ok(None) => yaml_parser_scan(&mut self.session),
            Ok(Some(mark)) => {
                let fault = yaml_tag_fault(mark);
                yaml_parser_end(&mut self.session, &fault);
                Err(fault)
            }
            Err(refused) => Err(refused),
        }
    }
}

// Where the next token is, if its tag isn't UTF-8. Nothing is taken.
fn wrong_tag(session: &mut yaml_parser_t) -> Result<Option<yaml_mark_t>, yaml_fault_t>
    ensures { LooksAtTag session.old result session.new }
{
    match yaml_parser_peek(session) {
        Ok(token) => {
            if yaml_token_spells_text(token) {
                return Ok(None);
            }
            Ok(Some(token.start_mark))
        }
        Err(refused) => Err(refused),
    }
}
