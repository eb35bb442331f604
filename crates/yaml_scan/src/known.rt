//! The tokens that are known next, and the scanner that finds them.

ghost use Rattle.std.specs.Prelude.{◌≡◌, ◌++◌, ◌∷◌, [], true, false, Ok, IfErr, IfOk, OnOk};
ghost use Rattle.yaml_scan_model.specs.declared.fault.yaml_origin_t.TheVariants.{Scanner as OfScanner};
ghost use Rattle.yaml_scan_types.specs.Faults.{fault_of, memory_fault};
ghost use Rattle.yaml_scan_types.specs.Tokens.{token_of};
ghost use Rattle.yaml_scan_decode.specs.DecodedText.{text_bytes};
ghost use Rattle.yaml_scan_core.specs.Found.{HasMore};
ghost use Rattle.yaml_scan_core.specs.Handed.{to_come};
ghost use Rattle.yaml_scan_core.specs.Told.{Locates};
ghost use Rattle.yaml_scan_core.specs.Waiting.{knows};
ghost use Rattle.yaml_scan.specs.Known.{Begins, Fills, FillsText, IsReady, PopsFirst, TakesOne, first_known, is_none, scanner_of};

use std::alloc::Global;
use std::collections::VecDeque;
use yaml_scan_core::{Locator, Scanner, next_token};
use yaml_scan_decode::{stream_encoding, yaml_decode, yaml_text_t};
use yaml_scan_model::{
    yaml_encoding_t, yaml_fault_t, yaml_memory_fault, yaml_origin_t, yaml_token_t,
};

/// A token that is known, with texts of its own.
#[derive(Drop)]
pub(crate) struct Known {
    pub token: yaml_token_t,
    /// With it that many lexemes have all their tokens taken.
    pub taken: usize,
}

/// The next tokens: all that are known.
#[derive(Drop)]
pub(crate) struct Queue {
    pub known: VecDeque<Known>,
    /// How many lexemes have all their tokens taken.
    pub taken: usize,
}

impl Queue {
    /// One more at the end. The error is out of memory.
    fn push(&mut self, token: yaml_token_t, taken: usize) -> Result<(), yaml_fault_t>
        ensures taken { self.new.taken ≡ self.old.taken }
        ensures more { OnOk result (self.new.known.items
            ≡ self.old.known.items ++ record { token = token; taken = taken } ∷ []) }
        ensures memory { IfErr result (λ f. fault_of f ≡ memory_fault OfScanner) }
    {
        match self.known.push_back(Known { token, taken }) {
            Ok(()) => Ok(()),
            Err(_) => Err(yaml_memory_fault(yaml_origin_t::Scanner)),
        }
    }

    /// Whether no token is known.
    pub(crate) fn is_empty(&self) -> bool
        ensures { result ≡ is_none self.now.known.items }
    {
        self.known.is_empty()
    }

    /// Takes the first, if there is one: or the empty token.
    pub(crate) fn pop(&mut self) -> yaml_token_t
        ensures first { token_of result ≡ first_known self.old.known.items }
        ensures rest { PopsFirst self.old.known.items self.old.taken self.new.known.items
            self.new.taken }
    {
        match self.known.pop_front() {
            Some(known) => {
                self.taken = known.taken;
                known.token
            }
            None => yaml_token_t::empty(),
        }
    }
}

/// Takes the next token of a scanner into the queue. The error is the fault that ends the tokens, or out of memory.
fn take_one(
    alloc: Global,
    scanner: &mut Scanner,
    locator: &mut Locator,
    queue: &mut Queue,
) -> Result<(), yaml_fault_t>
    requires ready { IsReady scanner.old }
    requires more { HasMore (to_come scanner.old).tokens (to_come scanner.old).fault }
    requires locates { Locates scanner.old.text.now locator.old }
    ensures locates { Locates scanner.new.text.now locator.new }
    ensures taken { queue.new.taken ≡ queue.old.taken }
    ensures takes { TakesOne scanner.old scanner.new queue.old.known.items queue.new.known.items
        result }
{
    let token = next_token(alloc, scanner, locator)?;
    queue.push(token, scanner.taken())
}

/// Reads on until the next token is known, and takes all that are known then.
fn take_known(
    alloc: Global,
    scanner: &mut Scanner,
    locator: &mut Locator,
    queue: &mut Queue,
) -> Result<(), yaml_fault_t>
    requires ready { IsReady scanner.old }
    requires idle { scanner.old.ended ≡ true → knows scanner.old ≡ false }
    requires locates { Locates scanner.old.text.now locator.old }
    requires none { queue.old.known.items ≡ [] }
    ensures locates { Locates scanner.new.text.now locator.new }
    ensures taken { queue.new.taken ≡ queue.old.taken }
    ensures fills { Fills scanner.old scanner.new queue.new.known.items result }
{
    if !scanner.may_read_on() {
        return Ok(());
    }
    take_one(alloc, scanner, locator, queue)?;
    'known: while scanner.has_token() {
        take_one(alloc, scanner, locator, queue)?;
    }
    Ok(())
}

/// A decoded text, and a scanner of it that rests, in which it holds no text.
#[derive(Drop)]
pub(crate) struct ScannedText<'a> {
    pub text: yaml_text_t<'a>,
    pub scanner: Scanner<'static>,
    pub locator: Locator,
}

impl<'a> ScannedText<'a> {
    /// Decodes an input: nothing of its text is taken. The error is the fault of its decoding, or out of memory.
    pub(crate) fn new(
        alloc: Global,
        input: &'a [u8],
        setting: yaml_encoding_t,
    ) -> Result<ScannedText<'a>, yaml_fault_t>
        ensures { Begins setting input.now result }
    {
        let text = yaml_decode(alloc, input, setting)?;
        let encoding = stream_encoding(input, setting);
        match Scanner::new(alloc, text.as_slice(), encoding, 1) {
            Ok(scanner) => {
                let scanner = scanner.at_rest();
                let locator = Locator::new();
                Ok(ScannedText {
                    text,
                    scanner,
                    locator,
                })
            }
            Err(_) => Err(yaml_memory_fault(yaml_origin_t::Scanner)),
        }
    }

    /// Reads on until the next token is known, and takes all that are known then into the queue, where none is. The error is the
    /// fault that ends the tokens, or out of memory.
    pub(crate) fn fill(
        self,
        alloc: Global,
        queue: &mut Queue,
    ) -> (ScannedText<'a>, Result<(), yaml_fault_t>)
        requires ready { IsReady (scanner_of self) }
        requires idle { self.scanner.ended ≡ true → knows (scanner_of self) ≡ false }
        requires locates { Locates (text_bytes self.text) self.locator }
        requires none { queue.old.known.items ≡ [] }
        ensures { FillsText self.entry result.0 queue.old queue.new result.1 }
    {
        let ScannedText {
            text,
            scanner,
            mut locator,
        } = self;
        let mut scanner = scanner.on(text.as_slice());
        let answer = take_known(alloc, &mut scanner, &mut locator, queue);
        let scanner = scanner.at_rest();
        let standing = ScannedText {
            text,
            scanner,
            locator,
        };
        (standing, answer)
    }
}
