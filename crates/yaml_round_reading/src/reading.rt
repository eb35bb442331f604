//! The events of an input.

ghost use Rattle.std.specs.Prelude.{◌≡◌, true, IfOk, IfErr};
ghost use Rattle.yaml_parse.specs.scan_types.Faults.{fault_of, memory_fault};
ghost use Rattle.yaml_parse.specs.Events.{borrowed_body};
ghost use Rattle.yaml_parse.specs.Finds.{Finds};
ghost use Rattle.yaml_parse.specs.NextLoad.{AreLoadsByContent, LoadIsNext, RefusalIsNext};
ghost use Rattle.yaml_round_content.specs.Input.{ReadsInput};
ghost use Rattle.yaml_round_reading.specs.Reading.{AreReal, FindsNextEvent, EndsWith};

use crate::scanned::ScannedTokens;
use crate::text::ReadText;
use std::alloc::Global;
use std::marker::Model;
use yaml_parse::{
    EventRef, TokenParser, yaml_document_t, yaml_fault_t, yaml_found_t, yaml_mark_t,
    yaml_memory_fault, yaml_origin_t,
};

/// A parser of an input's tokens. Its calls are calls of their own, so that no proof above writes out the drops of all that a parser
/// holds.
#[derive(Drop)]
pub struct Reading<'a> {
    parser: TokenParser<ScannedTokens<'a>>,
}

impl<'a> Model for Reading<'a> {
    ghost use Rattle.yaml_round_reading.specs.ReadingView.{ReadingView};

    ghost Value = { ReadingView };

    ghost use Rattle.yaml_round_reading.specs.ReadingInside.{reading_view};

    ghost view = { reading_view };
}

/// A reading of the input whose text it is, that has given nothing yet.
pub fn reading_of<'a>(alloc: Global, text: &'a ReadText<'a>) -> Result<Reading<'a>, yaml_fault_t>
    ensures reads { IfOk result (λ r. ReadsInput text.now.from text.now.bytes r.parser) }
    ensures real { IfOk result (λ r. AreReal r.parser.events) }
    ensures between { IfOk result (λ r. r.parser.between ≡ true) }
    ensures memory { IfErr result (λ f. fault_of f ≡ memory_fault yaml_origin_t.Parser) }
{
    match ScannedTokens::new(alloc, text) {
        Ok(tokens) => {
            let parser = TokenParser::new(alloc, tokens);
            Ok(Reading { parser })
        }
        Err(_) => Err(yaml_memory_fault(yaml_origin_t::Parser)),
    }
}

impl Reading<'_> {
    /// Whether there is a next event, which `event` gives up to the next call, or a fault, which `fault` answers, or neither at the
    /// end.
    pub fn next(&mut self) -> yaml_found_t
        requires { AreReal self.old.parser.events }
        ensures { FindsNextEvent self.old.parser result self.new.given self.new.parser.answered
            self.new.parser }
    {
        self.parser.next()
    }

    /// The next event of a reading whose events may be any.
    pub fn find(&mut self) -> yaml_found_t
        ensures finds { Finds self.old.parser result self.new.given self.new.parser.answered
            self.new.parser }
    {
        self.parser.next()
    }

    /// The event that was given last.
    // In line: by memory it takes a tenth of `events` on short words.
    #[inline(always)]
    pub fn event(&self) -> EventRef<'_>
        ensures { borrowed_body result ≡ self.now.given.body }
    {
        self.parser.event()
    }

    /// Where it starts.
    pub fn start_mark(&mut self) -> yaml_mark_t
        ensures mark { result ≡ self.old.given.start_mark }
        ensures stays { self.new ≡ self.old }
    {
        self.parser.start_mark()
    }

    /// Where it starts and ends.
    pub fn marks(&mut self) -> (yaml_mark_t, yaml_mark_t)
        ensures start { result.0 ≡ self.old.given.start_mark }
        ensures end { result.1 ≡ self.old.given.end_mark }
        ensures stays { self.new ≡ self.old }
    {
        self.parser.marks()
    }

    /// The fault that was answered.
    pub fn fault(&self) -> yaml_fault_t
        ensures { fault_of result ≡ self.now.parser.answered }
    {
        self.parser.fault()
    }

    /// The next document; after the last one a document without root.
    pub fn load(&mut self) -> Result<yaml_document_t, yaml_fault_t>
        requires { self.old.parser.between ≡ true }
        ensures by_content { AreLoadsByContent self.old.parser }
        ensures next { IfOk result (λ d. LoadIsNext self.old.parser d self.new.parser) }
        ensures refused { IfErr result (λ f. RefusalIsNext self.old.parser (fault_of f)
            self.new.parser) }
        ensures between { self.new.parser.between ≡ true }
    {
        self.parser.load()
    }
}

/// Drops a reading. It is a call, so that no owner's proof writes out the drop of all that a parser holds.
pub fn let_go(reading: Reading<'_>) {
    let Reading { parser } = reading;
    drop(parser);
}

/// Reads the input to the end. The fault that is met is the answer.
pub fn read_out(reading: &mut Reading<'_>) -> Result<(), yaml_fault_t>
    requires { AreReal reading.old.parser.events }
    ensures { EndsWith reading.old.parser.ending result }
{
    'events: loop {
        match reading.next() {
            yaml_found_t::Refused => return Err(reading.fault()),
            yaml_found_t::End => return Ok(()),
            yaml_found_t::Event => {}
        }
    }
}
