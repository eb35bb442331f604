//! Tokens, one after another.

ghost use Rattle.std.specs.Prelude.{◌≡◌, ⊤, [], option_map, true};
ghost use Rattle.std.specs.Borrow.{sem, follows_so};
ghost use mir.Syntax.{named};
ghost use mathlib.Core.Option.{none};
ghost use Rattle.yaml_scan_types.specs.Faults.{fault_of};
ghost use Rattle.yaml_scan.specs.contracts.session.yaml_parser_t.{the_row};
ghost use Rattle.yaml_scan.specs.Session.{HasFirst, HoldsLittle, Peeks, ReadsNeeded, Scans, Shows, begun, behind_first, ended, is_settled};

use crate::known::Queue;
use crate::reading::Reading;
use std::alloc::Global;
use std::collections::VecDeque;
use std::marker::Model;
use yaml_scan_model::{yaml_encoding_t, yaml_fault_t, yaml_token_t};

/// The tokens of an input that are still to come, and the fault that ends them. At most 1,025 lexemes that were read wait.
#[derive(Drop)]
pub struct yaml_parser_t<'a> {
    reading: Reading<'a>,
}

impl<'a> Model for yaml_parser_t<'a> {
    ghost use Rattle.yaml_scan.specs.Session.{View};

    ghost Value = { View };

    ghost use Rattle.yaml_scan.specs.SessionView.{session_view, IsSession};

    ghost view = { session_view };

    ghost invariant = { IsSession };
}

impl<'a> yaml_parser_t<'a> {
    /// A session over an input, in that encoding; with `YAML_ANY_ENCODING` in the one that a byte order mark shows, or
    /// UTF-8 (YAML 1.1, 5.2).
    pub fn new(alloc: Global, input: &'a [u8], encoding: yaml_encoding_t) -> yaml_parser_t<'a>
        ensures { result ≡ begun encoding input.now }
    {
        let queue = Queue {
            known: VecDeque::new(alloc),
            taken: 0,
        };
        yaml_parser_t {
            reading: Reading {
                alloc,
                input,
                setting: encoding,
                standing: None,
                queue,
                fault: None,
                none: yaml_token_t::empty(),
            },
        }
    }

    /// The allocator that the session keeps.
    pub fn allocator(&self) -> Global {
        self.reading.alloc
    }
}

/// The next token: the empty one after the end or a fault.
///
/// The first call, or the first peek, decodes the whole input. A refusal is the fault that ends the tokens of the input
/// (kind 2 where its bytes spell no text, else 3), where they are all taken, or out of memory (kind 1). It is answered
/// once; after it, and after the last token, comes the empty token.
pub fn yaml_parser_scan(parser: &mut yaml_parser_t) -> Result<yaml_token_t, yaml_fault_t>
    ensures scans { Scans parser.old parser.new result }
    ensures few { HoldsLittle parser.new }
{
    match parser.reading.fill() {
        Ok(()) => Ok(parser.reading.queue.pop()),
        Err(fault) => Err(fault),
    }
}

/// The token that the next scan gives, by reference; nothing is taken. Refused as a scan is.
pub fn yaml_parser_peek<'p>(parser: &'p mut yaml_parser_t) -> Result<&'p yaml_token_t, yaml_fault_t>
    ensures shows { Shows parser.old result }
    // What the session becomes, once the token is given back.
    ensures* lends { sem 𝓛 (follows_so (the_row (record { mir = named 1; lft = [] }))
        (the_row (record { mir = named 1; lft = [] })) parser.entry.ghost_name none (λ _ _. ⊤)
        (λ new. Peeks parser.old new result × HoldsLittle new)) }
{
    parser.reading.fill()?;
    Ok(parser.reading.front())
}

/// Whether the next token is settled by what was read, so that no later text can change it: the next scan gives it without
/// reading on, and a skip may drop it.
pub fn yaml_parser_has_token(parser: &yaml_parser_t) -> bool
    ensures settled { result ≡ is_settled parser.now }
    ensures first { result ≡ true → HasFirst parser.now.remaining.tokens }
{
    !parser.reading.queue.is_empty()
}

/// Drops the next token, which `yaml_parser_has_token` has to know.
pub fn yaml_parser_skip(parser: &mut yaml_parser_t)
    requires { is_settled parser.old ≡ true }
    ensures rest { parser.new.remaining ≡ behind_first parser.old.remaining }
    ensures same { parser.new.answered ≡ parser.old.answered }
    ensures reads { ReadsNeeded parser.old parser.new }
    ensures few { HoldsLittle parser.new }
{
    drop(parser.reading.queue.pop());
}

/// Ends a session by a fault that its caller found, in a token that was taken: it is kept as the one that was answered, in the
/// place of one that was kept, and after it comes the empty token. A session's own fault ends it without this call.
pub fn yaml_parser_end(parser: &mut yaml_parser_t, found: &yaml_fault_t)
    ensures ends { parser.new ≡ ended parser.old (fault_of found.now) }
    ensures few { HoldsLittle parser.new }
{
    parser.reading.end(*found);
}

/// The fault that was answered, if one was.
pub fn yaml_parser_fault<'p>(parser: &'p yaml_parser_t) -> Option<&'p yaml_fault_t>
    ensures { option_map (λ f. fault_of f.now) result ≡ parser.now.answered }
{
    parser.reading.fault.as_ref()
}
