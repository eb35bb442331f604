//! The parser over any tokens: what `yaml_parser_t` is over a source. That one has bodies of its
//! own, since the kit's borrow checker covers no call from there: `SourceTokens<S>` has
//! several lifetimes, those of `S` and `'static`, and the calls here name `'static`.

ghost use Rattle.std.specs.Prelude.{◌≡◌, true, Some, IfOk, IfErr};
ghost use Rattle.yaml_scan_model.specs.scan_types.Faults.{Fault, fault_of};
ghost use Rattle.yaml_scan_model.specs.Utf8.{IsUtf8Next};
ghost use Rattle.yaml_parse_model.specs.Events.{borrowed_body};
ghost use Rattle.yaml_parse_model.specs.Prefix.{no_fault};
ghost use Rattle.yaml_parse_grammar.specs.Machine.{initial, run};
ghost use Rattle.yaml_parse_grammar.specs.Resolve.{no_directives};
ghost use Rattle.yaml_parse_grammar.specs.Remaining.{IsFinished, reading_of, unasked_of};
ghost use Rattle.yaml_parse_model.specs.Sizes.{IsSized};
ghost use Rattle.yaml_parse_laws_trees.specs.NextLoad.{AreLoadsByContent, LoadIsNext, RefusalIsNext};
ghost use Rattle.yaml_parse_laws_trees.specs.Falling.{AreFalling};
ghost use Rattle.yaml_parse_states.specs.Turned.{Means};
ghost use Rattle.yaml_parse_states.specs.declared.parser.Refusal.{Refusal};
ghost use Rattle.yaml_parse.specs.Finds.{Finds, IsHeldBy, IsUtf8Found, IsStackFound};

use crate::found::yaml_found_t;
use std::alloc::Global;
use std::marker::Model;
use yaml_parse_loader::Loader;
use yaml_parse_model::{EventRef, ZERO_MARK, no_document, yaml_document_t};
use yaml_parse_states::{Parser, Refusal, Step};
use yaml_scan_model::{
    Tokens, yaml_error_type_t, yaml_fault_t, yaml_mark_t, yaml_memory_fault, yaml_origin_t,
};

/// A parser of tokens.
#[derive(Drop)]
pub struct TokenParser<T: Tokens> {
    alloc: Global,
    parser: Parser<T>,
    // The fault that was answered.
    fault: yaml_fault_t,
}

impl<T: Tokens> Model for TokenParser<T> {
    ghost use Rattle.yaml_parse.specs.View.{ParserView, view_of};

    ghost Value = { ParserView };

    ghost view = { λ p. view_of T.Tokens p.parser p.fault };

    ghost use Rattle.yaml_parse_states.specs.Standing.{Stands};
    ghost use Rattle.yaml_parse_states.specs.Utf8.{IsUtf8Held};

    ghost invariant = { λ p. Stands p.parser × IsUtf8Held T.Tokens p.parser };
}

impl<T: Tokens> TokenParser<T> {
    /// A parser of the tokens from a stream's start on.
    pub fn new(alloc: Global, tokens: T) -> TokenParser<T>
        requires { IsUtf8Next T.Tokens tokens }
        // To come is what the grammar's machine makes of the tokens, resolved by each document's
        // directives, and the fault that ends it.
        ensures events { result.remaining.events ≡ (reading_of (run (T.to_come tokens) initial
            (T.fault_to_come tokens)) no_directives).events }
        ensures ending { result.remaining.ending ≡ (reading_of (run (T.to_come tokens) initial
            (T.fault_to_come tokens)) no_directives).ending }
        // The fault is reported with no token asked for after its place.
        ensures told { result.remaining.ending_unasked ≡ unasked_of (T.to_come tokens)
            (T.fault_to_come tokens) initial no_directives }
        // No token was asked for or taken here.
        ensures unasked { result.remaining.unasked ≡ T.unasked tokens }
        ensures held { result.remaining.held ≡ T.held tokens }
        ensures answered { result.remaining.answered ≡ no_fault }
        ensures between { result.remaining.between ≡ true }
    {
        TokenParser {
            alloc,
            parser: Parser::new(alloc, tokens),
            fault: no_fault(),
        }
    }

    /// The next event, which is borrowed by `event` until the next call; or its fault, which
    /// `fault` returns; or neither after the last event and after a fault.
    pub fn next(&mut self) -> yaml_found_t
        ensures finds { Finds self.old.remaining result self.new.given self.new.remaining.answered
            self.new.remaining }
        ensures utf8 { IsUtf8Found result self.new.given }
        ensures between { IsStackFound result self.new.given self.new.remaining.between }
        ensures held { IsHeldBy T.held self.new.remaining.held }
    {
        match self.parser.next() {
            Step::Event => yaml_found_t::Event,
            Step::End => yaml_found_t::End,
            Step::Refused => {
                tell_fault(&mut self.fault, &self.parser);
                yaml_found_t::Refused
            }
        }
    }

    /// The event that was given last.
    // In line: by memory it takes a tenth of `events` on short words.
    #[inline(always)]
    pub fn event(&self) -> EventRef<'_>
        ensures { borrowed_body result ≡ self.now.given.body }
    {
        self.parser.event()
    }

    /// Where it starts.
    pub fn start_mark(&mut self) -> yaml_mark_t
        ensures start { result ≡ self.old.given.start_mark }
        ensures same { self.new ≡ self.old }
    {
        self.parser.start_mark()
    }

    /// Where it starts and ends.
    pub fn marks(&mut self) -> (yaml_mark_t, yaml_mark_t)
        ensures start { result.0 ≡ self.old.given.start_mark }
        ensures end { result.1 ≡ self.old.given.end_mark }
        ensures same { self.new ≡ self.old }
    {
        self.parser.marks()
    }

    /// The next document, its nodes numbered from 1 in preorder; after the last one a document
    /// without root. Refused by the parser's fault, or for an alias of which no node before it in
    /// its document has the anchor. After a refusal nothing is to come. No document may be half
    /// taken (see `between`); none is afterwards.
    pub fn load(&mut self) -> Result<yaml_document_t, yaml_fault_t>
        requires { self.old.remaining.between ≡ true }
        ensures by_content { AreLoadsByContent self.old.remaining }
        ensures next { IfOk result (λ d. LoadIsNext self.old.remaining d self.new.remaining) }
        ensures refused { IfErr result (λ f. RefusalIsNext self.old.remaining (fault_of f)
            self.new.remaining) }
        ensures between { self.new.remaining.between ≡ true }
        ensures sized { IfOk result (λ d. IsSized d) }
        ensures held { IsHeldBy T.held self.new.remaining.held }
    {
        let alloc = self.allocator();
        let mut loader = Loader::new(alloc);
        'events: loop {
            match self.next() {
                yaml_found_t::Event => {
                    let marks = self.marks();
                    match loader.feed(self.event(), marks) {
                        Ok(None) => {}
                        Ok(Some(document)) => {
                            loader.let_go();
                            return Ok(document);
                        }
                        Err(refused) => {
                            loader.let_go();
                            self.refuse(&refused);
                            return Err(refused);
                        }
                    }
                }
                yaml_found_t::End => {
                    loader.let_go();
                    return Ok(no_document(alloc));
                }
                yaml_found_t::Refused => {
                    loader.let_go();
                    return Err(self.fault());
                }
            }
        }
    }

    /// No document is half taken.
    pub fn between(&self) -> bool
        ensures { result ≡ self.now.remaining.between }
    {
        self.parser.is_between()
    }

    /// The fault that was answered; before one its kind is `YAML_NO_ERROR`.
    pub fn fault(&self) -> yaml_fault_t
        ensures { fault_of result ≡ self.now.remaining.answered }
    {
        self.fault
    }

    /// The allocator that the parser keeps.
    pub(crate) fn allocator(&self) -> Global
        // Between documents, whole ones are to come, and a front of one.
        ensures loads { self.now.remaining.between ≡ true → AreLoadsByContent self.now.remaining }
        // As an event is given, no fewer tokens are left unasked for than as the next one is.
        ensures falls { AreFalling self.now.remaining.events self.now.remaining.ending_unasked }
    {
        self.alloc
    }

    /// Nothing more is to come, and that fault was answered.
    pub(crate) fn refuse(&mut self, fault: &yaml_fault_t)
        ensures finished { IsFinished self.new.remaining }
        ensures answered { self.new.remaining.answered ≡ fault_of fault.now }
        ensures unasked { self.new.remaining.unasked ≡ self.old.remaining.unasked }
        ensures held { IsHeldBy T.held self.new.remaining.held }
    {
        self.parser.stop();
        self.fault = *fault;
    }
}

/// What is reported before any fault.
pub(crate) fn no_fault() -> yaml_fault_t
    ensures { fault_of result ≡ no_fault }
{
    yaml_fault_t {
        kind: yaml_error_type_t::YAML_NO_ERROR,
        problem: "",
        offset: 0,
        value: 0,
        problem_mark: ZERO_MARK,
        context: None,
        context_mark: ZERO_MARK,
        origin: yaml_origin_t::Parser,
    }
}

// The fault of a refusal, which the tokens hold where it is theirs.
fn told_fault<T: Tokens>(tokens: &T, refusal: Refusal) -> yaml_fault_t
    requires { (f : Fault) × Means T.Tokens tokens.now refusal f }
    ensures { (f : Fault) → Means T.Tokens tokens.now refusal f → fault_of result ≡ f }
{
    match refusal {
        Refusal::OfTokens => tokens.fault(),
        Refusal::LackOfMemory => yaml_memory_fault(yaml_origin_t::Parser),
        Refusal::Wrong(fault) => fault.located(),
    }
}

// The fault of a parser's refusal, in its slot.
// Out of line: else each event sets the room of a fault to zero.
#[inline(never)]
fn tell_fault<T: Tokens>(slot: &mut yaml_fault_t, parser: &Parser<T>)
    requires { (r : Refusal) × (parser.now.refusal ≡ Some r) × (f : Fault)
        × Means T.Tokens parser.now.tokens r f }
    ensures { (r : Refusal) (f : Fault) → parser.now.refusal ≡ Some r
        → Means T.Tokens parser.now.tokens r f → fault_of slot.new ≡ f }
{
    let refusal = parser.refusal();
    *slot = told_fault(parser.tokens(), refusal);
}
