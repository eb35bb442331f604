//! An input that is read token by token.

ghost use Rattle.std.specs.Prelude.{◌≡◌, [], true, false, Some, None};
ghost use Rattle.yaml_scan_types.specs.Tokens.{token_of, no_token};
ghost use Rattle.yaml_scan_types.specs.Faults.{fault_of};
ghost use Rattle.yaml_scan_decode.specs.DecodedText.{text_bytes};
ghost use Rattle.yaml_scan_core.specs.Told.{Locates};
ghost use Rattle.yaml_scan_core.specs.Waiting.{knows};
ghost use Rattle.yaml_scan.specs.declared.known.ScannedText.{ScannedText};
ghost use Rattle.yaml_scan.specs.Known.{FillsText, IsReady, first_known, scanner_of};
ghost use Rattle.yaml_scan.specs.Session.{Looks};
ghost use Rattle.yaml_scan.specs.SessionView.{IsReading, Keeps, ReadsOn, Stood, view_of};

use crate::known::{Queue, ScannedText};
use std::alloc::Global;
use yaml_scan_model::{yaml_encoding_t, yaml_fault_t, yaml_token_t};

/// What a session holds.
#[derive(Drop)]
pub(crate) struct Reading<'a> {
    pub alloc: Global,
    pub input: &'a [u8],
    pub setting: yaml_encoding_t,
    /// The decoded text and its scanner: none before the first call.
    pub standing: Option<ScannedText<'a>>,
    pub queue: Queue,
    /// The fault that was answered: nothing comes after it.
    pub fault: Option<yaml_fault_t>,
    /// What a peek returns where no token is to come: the empty one.
    pub none: yaml_token_t,
}

impl<'a> Reading<'a> {
    /// Reads on until the next token is known, where none is and no fault was answered. All that are known then are taken into the
    /// queue, so that none that is settled is refused later.
    pub(crate) fn fill(&mut self) -> Result<(), yaml_fault_t>
        requires { IsReading self.old }
        ensures reading { IsReading self.new }
        ensures looks { Looks (view_of self.old) (view_of self.new)
            (first_known self.new.queue.known.items) result }
    {
        if self.fault.is_some() {
            return Ok(());
        }
        if !self.queue.is_empty() {
            return Ok(());
        }
        match self.read_on() {
            Ok(()) => Ok(()),
            Err(fault) => {
                self.end(fault);
                Err(fault)
            }
        }
    }

    /// The same, where no token is known.
    fn read_on(&mut self) -> Result<(), yaml_fault_t>
        requires reading { IsReading self.old }
        requires none { self.old.queue.known.items ≡ [] }
        requires free { self.old.fault ≡ None }
        ensures keeps { Keeps self.old self.new }
        ensures reads { ReadsOn self.old self.new result }
    {
        match self.stand() {
            Ok(standing) => self.fill_from(standing),
            Err(fault) => Err(fault),
        }
    }

    /// Takes the scanner out. Before the first call the input is decoded.
    fn stand(&mut self) -> Result<ScannedText<'a>, yaml_fault_t>
        ensures same { self.new ≡ record self.old { standing = None } }
        ensures stood { Stood self.old.standing self.old.setting self.old.input.now result }
    {
        match self.standing.take() {
            Some(standing) => Ok(standing),
            None => ScannedText::new(self.alloc, self.input, self.setting),
        }
    }

    /// Takes all tokens that are known next of a scanner, and puts it back.
    fn fill_from(&mut self, standing: ScannedText<'a>) -> Result<(), yaml_fault_t>
        requires ready { IsReady (scanner_of standing) }
        requires idle { standing.scanner.ended ≡ true
            → knows (scanner_of standing) ≡ false }
        requires locates { Locates (text_bytes standing.text) standing.locator }
        requires none { self.old.queue.known.items ≡ [] }
        ensures keeps { Keeps self.old self.new }
        ensures fills { (z : ScannedText) × (self.new.standing ≡ Some z)
            × FillsText standing.entry z self.old.queue self.new.queue result }
    {
        let (standing, answer) = standing.fill(self.alloc, &mut self.queue);
        self.standing = Some(standing);
        answer
    }

    /// The first token that is known, or the empty one.
    pub(crate) fn front(&self) -> &yaml_token_t
        requires { token_of self.now.none ≡ no_token }
        ensures { token_of result.now ≡ first_known self.now.queue.known.items }
    {
        match self.queue.known.front() {
            Some(known) => &known.token,
            None => &self.none,
        }
    }

    /// A fault is answered, and what was read is dropped.
    pub(crate) fn end(&mut self, fault: yaml_fault_t)
        ensures same { self.new ≡ record self.old {
          standing = None;
          queue = self.new.queue;
          fault = Some fault;
        } }
        ensures none { self.new.queue.known.items ≡ [] }
    {
        self.standing = None;
        self.queue.known.clear();
        self.fault = Some(fault);
    }
}
