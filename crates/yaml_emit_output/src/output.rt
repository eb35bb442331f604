//! An output of a limit and an encoding over a draft that knows none: both are settled once an event.

ghost use Rattle.std.specs.Prelude.{◌≡◌, ◌≤◌, ◌≢◌, [], false, take};

use crate::draft::Draft;
use crate::utf16::put_utf16;
use std::alloc::Global;
use std::marker::Model;
use yaml_emit_layout::{Encoding, Status};

/// What an output has of a draft's text.
#[derive(Drop)]
pub struct Output {
    encoding: Encoding,
    limit: u64,
    /// In UTF-16 the first `done` bytes of the text, encoded.
    encoded: Vec<u8>,
    done: usize,
    /// More than the limit was laid out.
    full: bool,
}

impl Model for Output {
    ghost use Rattle.yaml_emit_output.specs.Sheet.{Sheet, sheet_of};

    ghost Value = { Sheet };

    ghost view = { sheet_of };
}

impl Output {
    ghost use Rattle.yaml_emit_output.specs.Sheet.{Holds, Settles, Keeps, IsText, output_of};

    /// One that has nothing yet.
    pub fn new(alloc: Global, encoding: Encoding, limit: u64) -> Output
        ensures { result ≡ record
            { encoding = encoding; limit = limit; encoded = []; done = 0; full = false } }
    {
        Output {
            encoding,
            limit,
            encoded: Vec::new(alloc),
            done: 0,
            full: false,
        }
    }

    /// The bytes of a draft's text, up to the limit.
    pub fn bytes<'a>(&'a self, draft: &'a Draft) -> &'a [u8]
        ensures { result.now ≡ (output_of self.now draft.now.output).bytes }
    {
        match self.encoding {
            Encoding::Utf8 => front_of(draft.text().as_bytes(), self.limit),
            _ => &self.encoded,
        }
    }

    /// The same, owned.
    pub fn into_bytes(self, draft: Draft) -> Vec<u8>
        ensures { result.items ≡ (output_of self draft.output).bytes }
    {
        match self.encoding {
            Encoding::Utf8 => cut_to(draft.into_bytes(), self.limit),
            _ => self.encoded,
        }
    }

    /// What the encoding is.
    pub fn encoding(&self) -> Encoding
        ensures { result ≡ self.now.encoding }
    {
        self.encoding
    }

    /// Whether the output of a draft goes on.
    pub fn status(&self, draft: &Draft) -> Status
        ensures { result ≡ (output_of self.now draft.now.output).status }
    {
        if self.full {
            Status::Full
        } else {
            draft.status()
        }
    }

    /// An event was laid out: in UTF-16 what is new of the text is encoded. Where the limit is passed the draft stops, and where memory
    /// is refused.
    pub fn settle(&mut self, draft: &mut Draft)
        requires { self.old.full ≡ false → Holds self.old draft.old.output.bytes }
        ensures settles { Settles self.old self.new draft.old.output draft.new.output }
        ensures keeps { Keeps draft.old draft.new }
        ensures utf8 { self.old.full ≡ false → IsText draft.old.output }
    {
        if self.full {
            return;
        }
        match self.encoding {
            Encoding::Utf8 => self.settle_bytes(draft),
            _ => self.settle_units(draft),
        }
    }

    fn settle_bytes(&mut self, draft: &mut Draft)
        requires full { self.old.full ≡ false }
        requires encoding { self.old.encoding ≡ Encoding.Utf8 }
        requires holds { Holds self.old draft.old.output.bytes }
        ensures settles { Settles self.old self.new draft.old.output draft.new.output }
        ensures keeps { Keeps draft.old draft.new }
        ensures utf8 { IsText draft.old.output }
    {
        if self.limit < draft.text().len() as u64 {
            self.full = true;
            draft.stop();
        }
    }

    #[cold]
    fn settle_units(&mut self, draft: &mut Draft)
        requires full { self.old.full ≡ false }
        requires encoding { self.old.encoding ≢ Encoding.Utf8 }
        requires holds { Holds self.old draft.old.output.bytes }
        ensures settles { Settles self.old self.new draft.old.output draft.new.output }
        ensures keeps { Keeps draft.old draft.new }
        ensures utf8 { IsText draft.old.output }
    {
        let count = self.encoded.len();
        match put_utf16(
            &mut self.encoded,
            self.encoding,
            self.limit,
            &draft.text()[self.done..],
        ) {
            Ok(()) => {
                if self.limit < self.encoded.len() as u64 {
                    self.encoded.truncate(self.limit as usize);
                    self.full = true;
                    draft.stop();
                } else {
                    self.done = draft.text().len();
                }
            }
            Err(_) => {
                self.encoded.truncate(count);
                draft.stop();
            }
        }
    }
}

// The first bytes of a text, that many at most.
fn front_of(text: &[u8], limit: u64) -> &[u8]
    ensures { result.now ≡ take limit text.now }
{
    &text[..text.len().min(limit as usize)]
}

// The first bytes, that many at most.
fn cut_to(bytes: Vec<u8>, limit: u64) -> Vec<u8>
    ensures { result.items ≡ take limit bytes.items }
{
    let mut bytes = bytes;
    bytes.truncate(limit as usize);
    bytes
}
