//! The parser and its calls.

ghost use Rattle.std.specs.Prelude.{◌≡◌, ◌≤◌, List, Some, None, true, length, IfOk, IfErr};
ghost use Rattle.yaml_scan_model.specs.scan_types.Tokens.{Token};
ghost use Rattle.yaml_scan_model.specs.scan_types.Faults.{Fault, fault_of, memory_fault};
ghost use Rattle.yaml_scan_model.specs.declared.fault.yaml_origin_t.TheVariants.{Parser as ParserLayer};
ghost use Rattle.yaml_parse_model.specs.Events.{event_of};
ghost use Rattle.yaml_parse_model.specs.Prefix.{prefix_of, no_fault};
ghost use Rattle.yaml_parse_model.specs.Constructors.{HasUtf8};
ghost use Rattle.yaml_parse_grammar.specs.Trees.{Stream, spell};
ghost use Rattle.yaml_parse_grammar.specs.TreeEvents.{given_of};
ghost use Rattle.yaml_parse_grammar.specs.Resolve.{reading, no_directives};
ghost use Rattle.yaml_parse_grammar.specs.Remaining.{EventOf, FaultOf, IsFinished};
ghost use Rattle.yaml_parse_grammar.specs.Stacks.{parts_documents_behind};
ghost use Rattle.yaml_parse_laws_trees.specs.Places.{FaultOfTokens, IsToldWith};
ghost use Rattle.yaml_parse_laws_trees.specs.Given.{EventsOfTokens};
ghost use Rattle.yaml_parse_laws_trees.specs.NextLoad.{AreLoadsByContent, loads_fault};
ghost use Rattle.yaml_parse_laws_trees.specs.Faults.{FaultOfLoading};
ghost use Rattle.yaml_parse_laws_trees.specs.Falling.{AreFalling};
ghost use Rattle.yaml_parse_states.specs.Members.{members_of};
ghost use Rattle.yaml_parse_states.specs.Turned.{Means};
ghost use Rattle.yaml_parse.specs.Finds.{Finds, IsUtf8Found, IsStackFound};
ghost use Rattle.yaml_parse.specs.HandsOut.{HandsOut};

use crate::found::yaml_found_t;
use crate::token_parser::no_fault;
use std::alloc::Global;
use std::marker::Model;
use yaml_parse_model::{
    yaml_event_body_t, yaml_event_t, yaml_parser_t_prefix, yaml_token_source_t,
};
use yaml_parse_states::{Parser, Refusal, SourceTokens};
use yaml_scan_model::{Tokens, yaml_fault_t, yaml_memory_fault, yaml_origin_t};

/// A parser of the tokens of a source.
#[derive(Drop)]
pub struct yaml_parser_t<S: yaml_token_source_t> {
    alloc: Global,
    parser: Parser<SourceTokens<S>>,
    // The fault that was answered.
    prefix: yaml_parser_t_prefix,
}

impl<S: yaml_token_source_t> Model for yaml_parser_t<S> {
    ghost use Rattle.yaml_parse_model.specs.Prefix.{prefix_of};
    ghost use Rattle.yaml_parse_grammar.specs.Remaining.{ParserRemaining};
    ghost use Rattle.yaml_parse_states.specs.Counts.{held_of, unasked_of};
    ghost use Rattle.yaml_parse_states.specs.Members.{members_of};
    ghost use Rattle.yaml_parse_states.specs.Remaining.{remaining_of, tokens_of};

    ghost Value = { ParserRemaining };

    ghost view = { λ p. remaining_of (members_of S.to_come S.fault_to_come) held_of p.parser
        (unasked_of S.to_come (tokens_of p.parser)) (prefix_of p.prefix) };

    ghost use Rattle.yaml_parse_states.specs.Standing.{Stands};
    ghost use Rattle.yaml_parse_states.specs.Utf8.{IsUtf8Held};

    ghost invariant = { λ p. Stands p.parser
        × IsUtf8Held (members_of S.to_come S.fault_to_come) p.parser };
}

impl<S: yaml_token_source_t> yaml_parser_t<S> {
    /// The allocator that the parser keeps.
    pub(crate) fn allocator(&self) -> Global
        // Between documents, whole ones are to come, and a front of one.
        ensures loads { self.now.between ≡ true → AreLoadsByContent self.now }
        // As an event is given, no fewer tokens are left unasked for than as the next one is.
        ensures falls { AreFalling self.now.events self.now.ending_unasked }
    {
        self.alloc
    }

    /// Nothing more is to come, and that fault was answered.
    pub(crate) fn refuse(&mut self, fault: &yaml_fault_t)
        ensures finished { IsFinished self.new }
        ensures answered { self.new.answered ≡ fault_of fault.now }
        ensures unasked { self.new.unasked ≡ self.old.unasked }
        ensures held { self.new.held ≤ 1 }
    {
        self.parser.stop();
        self.prefix = yaml_parser_t_prefix::of(fault);
    }
}

/// A parser of the source's tokens. Refused only where memory ran out.
pub fn yaml_parser_initialize<S: yaml_token_source_t>(
    alloc: Global,
    source: S,
) -> Result<yaml_parser_t<S>, yaml_fault_t>
    // Where the source's tokens begin with those of a tree, the tree's events are to come, resolved by each
    // document's directives, or those before the first fault of a directive or a tag handle, and that fault.
    ensures tree { (t : Stream) (rest : List Token) → S.to_come source ≡ spell t rest
        → IfOk result (λ p. (p.events ≡ (reading (given_of t (length rest)) None
        no_directives).events)
        × (p.ending ≡ (reading (given_of t (length rest)) None no_directives).ending)) }
    // They are the tokens' events, also where those begin with no tree's: before their fault. What follows from that is a law
    // (`events_keep_to_tokens`).
    ensures events { IfOk result (λ p. EventsOfTokens (S.to_come source) (S.fault_to_come source)
        p.events) }
    // No fault is to come exactly where they begin with a sentence, and else the tokens' fault: that of the least place, a
    // token's, a directive's or a tag handle's, or after all the source's own.
    ensures fault { IfOk result (λ p. FaultOfTokens (S.to_come source) (S.fault_to_come source)
        p.ending) }
    // It is reported once its place is reached, with no token asked for after that.
    ensures told { (e : Fault) → IfOk result (λ p. p.ending ≡ Some e
        → IsToldWith (S.to_come source) (S.fault_to_come source) e p.ending_unasked) }
    // Load after load, as content says (`yaml_parser_load`), they come to the fault of loading the tokens: the one of the least
    // place, of an alias without an anchor too.
    ensures loading { IfOk result (λ p. (h : AreLoadsByContent p) → FaultOfLoading
        (S.to_come source) (S.fault_to_come source) (loads_fault h)) }
    // No token was asked for yet.
    ensures unasked { IfOk result (λ p. (p.unasked ≡ length (S.to_come source)) × (p.held ≡ 0)) }
    ensures quiet { IfOk result (λ p. (p.answered ≡ no_fault) × (p.between ≡ true)) }
    ensures memory { IfErr result (λ f. fault_of f ≡ memory_fault ParserLayer) }
{
    Ok(yaml_parser_t {
        alloc,
        parser: Parser::new(alloc, SourceTokens::new(source)),
        prefix: yaml_parser_t_prefix::of(&no_fault()),
    })
}

// The fault of a refusal, which the tokens hold where it is theirs.
fn told_fault<S: yaml_token_source_t>(tokens: &SourceTokens<S>, refusal: Refusal) -> yaml_fault_t
    requires { (f : Fault) × Means (members_of S.to_come S.fault_to_come) tokens.now refusal f }
    ensures { (f : Fault) → Means (members_of S.to_come S.fault_to_come) tokens.now refusal f
        → fault_of result ≡ f }
{
    match refusal {
        Refusal::OfTokens => tokens.fault(),
        Refusal::LackOfMemory => yaml_memory_fault(yaml_origin_t::Parser),
        Refusal::Wrong(fault) => fault.located(),
    }
}

/// The next event in a slot that is passed by reference, or a fault in another, or neither after the last event and after a fault: what
/// `yaml_parser_parse` answers. A slot that isn't filled may hold anything afterwards.
pub fn yaml_parser_parse_into<S: yaml_token_source_t>(
    parser: &mut yaml_parser_t<S>,
    event: &mut yaml_event_t,
    fault: &mut yaml_fault_t,
) -> yaml_found_t
    ensures finds { Finds parser.old result (event_of event.new) (fault_of fault.new) parser.new }
    ensures utf8 { IsUtf8Found result (event_of event.new) }
    ensures between { IsStackFound result (event_of event.new) parser.new.between }
    // One token at most is asked for and not consumed.
    ensures held { parser.new.held ≤ 1 }
{
    match parser.parser.parse_into(parser.alloc, event) {
        Ok(true) => yaml_found_t::Event,
        Ok(false) => yaml_found_t::End,
        Err(refusal) => {
            *fault = told_fault(parser.parser.tokens(), refusal);
            parser.prefix = yaml_parser_t_prefix::of(fault);
            yaml_found_t::Refused
        }
    }
}

// What was found: the event or the fault in its slot, or after the end the empty event.
fn handed_out(
    found: yaml_found_t,
    event: yaml_event_t,
    fault: yaml_fault_t,
) -> Result<yaml_event_t, yaml_fault_t>
    ensures { HandsOut found (event_of event) (fault_of fault) result }
{
    match found {
        yaml_found_t::Event => Ok(event),
        yaml_found_t::Refused => {
            drop(event);
            Err(fault)
        }
        yaml_found_t::End => {
            drop(event);
            Ok(yaml_event_t::unplaced(yaml_event_body_t::No))
        }
    }
}

/// The next event, whose texts are UTF-8; after the last one and after a fault the empty event. Refused by the source's
/// fault, by one of its own (kind 4: the tokens are those of no stream, or a directive or a handle is wrong), or when out
/// of memory; once.
pub fn yaml_parser_parse<S: yaml_token_source_t>(
    parser: &mut yaml_parser_t<S>,
) -> Result<yaml_event_t, yaml_fault_t>
    ensures ok { IfOk result (λ e. EventOf parser.old (event_of e) parser.new) }
    ensures utf8 { IfOk result (λ e. HasUtf8 (event_of e).body) }
    // What was given says whether a document is half taken.
    ensures between { IfOk result (λ e. parser.new.between ≡ parts_documents_behind
        (event_of e).body) }
    ensures err { IfErr result (λ f. FaultOf parser.old (fault_of f) parser.new) }
    // One token at most is asked for and not consumed.
    ensures held { parser.new.held ≤ 1 }
{
    let mut event = yaml_event_t::unplaced(yaml_event_body_t::No);
    let mut fault = yaml_memory_fault(yaml_origin_t::Parser);
    let found = yaml_parser_parse_into(parser, &mut event, &mut fault);
    handed_out(found, event, fault)
}

/// No document is half taken: true at first, after the stream's start, after a document, at the end and after a fault.
pub fn yaml_parser_between<S: yaml_token_source_t>(parser: &yaml_parser_t<S>) -> bool
    ensures { result ≡ parser.now.between }
{
    parser.parser.is_between()
}

/// The fault that was answered; before one its kind is `YAML_NO_ERROR`.
pub fn yaml_parser_prefix<S: yaml_token_source_t>(
    parser: &yaml_parser_t<S>,
) -> &yaml_parser_t_prefix
    ensures { prefix_of result.now ≡ parser.now.answered }
{
    &parser.prefix
}

/// Drops the parser and its source.
pub fn yaml_parser_delete<S: yaml_token_source_t>(parser: yaml_parser_t<S>) {
    drop(parser);
}
