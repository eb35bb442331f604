//! An input's tokens, by the lexemes of its text.

ghost use Rattle.std.specs.Prelude.{◌≡◌, ◌<◌, ◌^◌, length, Some, None, IfOk, IsUtf8};
ghost use Rattle.yaml_scan_core.specs.Scanning.{IsDecoded};
ghost use Rattle.yaml_scan_core.specs.Shown.{place_mark};
ghost use Rattle.yaml_round_content.specs.Adapted.{adapted};
ghost use Rattle.yaml_round_reading.specs.Input.{scanned_of};
ghost use Rattle.yaml_round_reading.specs.Coming.{Gives, behind, held_in, is_failed, is_none, is_over, unasked_in};

use crate::refusal::yaml_tag_fault;
use crate::text::ReadText;
use std::alloc::{AllocError, Global};
use std::marker::Model;
use yaml_parse_model::{yaml_encoding_t, yaml_fault_t, yaml_mark_t, yaml_scalar_style_t};
use yaml_scan_core::{Locator, Scanner, mark_in};
use yaml_scan_decode::stream_encoding;
use yaml_scan_model::{Kind, Tokens};

/// That many settled lexemes are read at once.
const BATCH: usize = 32;

/// What was asked last: nothing of the next token, its kind, or nothing, where the last one was a lexeme's own.
#[derive(Clone, Copy)]
enum Standing {
    Unasked,
    Told(Kind),
    Taken,
}

/// The tokens of an input's text, up to the first tag that isn't UTF-8. Where the input has no
/// text, the first token asked for fails with the reason.
#[derive(Drop)]
pub struct ScannedTokens<'a> {
    source: &'a ReadText<'a>,
    text: &'a [u8],
    scanner: Scanner<'a>,
    locator: Locator,
    standing: Standing,
    refusal: Option<yaml_fault_t>,
}

impl<'a> Model for ScannedTokens<'a> {
    ghost use Rattle.yaml_round_reading.specs.ScannedValue.{ScannedValue};

    ghost Value = { ScannedValue };

    ghost use Rattle.yaml_round_reading.specs.ScannedView.{scanned_view, IsScanned};

    ghost view = { scanned_view };

    ghost invariant = { IsScanned };
}

impl<'a> ScannedTokens<'a> {
    /// The tokens of an input, of which nothing is asked yet. The error is out of memory.
    #[tactic(auto, using(yaml_scan::proofs::Spelling::decoded_is, yaml_scan_laws::proofs::Decoded::spelled_utf8, crate::proofs::Spelling::no_text_decoded))]
    pub fn new(alloc: Global, source: &'a ReadText<'a>) -> Result<ScannedTokens<'a>, AllocError>
        ensures comes { IfOk result (λ t. t.coming ≡ adapted (scanned_of source.now)) }
        ensures unasked { IfOk result (λ t. t.told ≡ None) }
    {
        let encoding = stream_encoding(source.input, source.from);
        match &source.text {
            Ok(text) => ScannedTokens::over(alloc, source, text.as_slice(), encoding, None),
            Err(fault) => ScannedTokens::over(alloc, source, &[], encoding, Some(*fault)),
        }
    }

    /// The same, of the input's text, or of no text, where it has none for that reason.
    fn over(
        alloc: Global,
        source: &'a ReadText<'a>,
        text: &'a [u8],
        encoding: yaml_encoding_t,
        refusal: Option<yaml_fault_t>,
    ) -> Result<ScannedTokens<'a>, AllocError>
        requires long { length text.now < 2 ^ 63 }
        requires decoded { IsDecoded text.now }
        requires utf8 { IsUtf8 text.now }
        requires gives { Gives refusal (record { encoding = encoding; text = text.now })
            (scanned_of source.now) }
        ensures comes { IfOk result (λ t. t.coming ≡ adapted (scanned_of source.now)) }
        ensures unasked { IfOk result (λ t. t.told ≡ None) }
    {
        let scanner = Scanner::new(alloc, text, encoding, BATCH)?;
        Ok(ScannedTokens {
            source,
            text,
            scanner,
            locator: Locator::new(),
            standing: Standing::Unasked,
            refusal,
        })
    }
}

/// Whether there is no token of that kind.
fn is_none(kind: Kind) -> bool
    ensures { result ≡ is_none kind }
{
    kind == Kind::Nothing || kind.is_fault()
}

/// Whether `Nothing` was answered, after the last token.
fn is_over(standing: Standing) -> bool
    ensures { result ≡ is_over standing }
{
    matches!(standing, Standing::Told(Kind::Nothing))
}

/// Whether the scanner's fault was answered.
fn is_failed(standing: Standing) -> bool
    ensures { result ≡ is_failed standing }
{
    matches!(standing, Standing::Told(Kind::Failed))
}

/// How it is after a token of that kind.
fn behind(kind: Kind) -> Standing
    ensures { result ≡ behind kind }
{
    match kind {
        Kind::BlockEnd | Kind::BlockSequenceStart | Kind::BlockMappingStart | Kind::Key => {
            Standing::Unasked
        }
        _ => Standing::Taken,
    }
}

impl<'a> Tokens for ScannedTokens<'a> {
    type Place = usize;

    ghost to_come = { λ s. s.coming.tokens };

    ghost fault_to_come = { λ s. s.coming.fault };

    ghost mark_of = { λ s p. place_mark s.text p };

    ghost texts = { λ s. s.texts };

    ghost tells = { λ s b. s.told ≡ Some b };

    ghost unasked = { λ s. unasked_in s.told s.coming };

    ghost held = { λ s. held_in s.told };

    fn kind(&mut self) -> Kind {
        if self.refusal.is_some() {
            self.standing = Standing::Told(Kind::Failed);
            return Kind::Failed;
        }
        let kind = self.scanner.kind();
        self.standing = Standing::Told(kind);
        kind
    }

    fn skip(&mut self, kind: Kind) {
        if is_none(kind) {
            self.standing = Standing::Unasked;
            return;
        }
        self.scanner.skip(kind);
        self.standing = behind(kind);
    }

    fn start(&self) -> usize {
        if is_over(self.standing) {
            return 0;
        }
        self.scanner.start()
    }

    fn end(&self, kind: Kind) -> usize {
        let scanner = &self.scanner;
        if is_none(kind) {
            return 0;
        }
        scanner.end(kind)
    }

    fn style(&self) -> yaml_scalar_style_t {
        self.scanner.style()
    }

    fn value(&self) -> &[u8] {
        match self.standing {
            Standing::Taken => self.scanner.value(),
            _ => &[],
        }
    }

    fn handle(&self) -> &[u8] {
        match self.standing {
            Standing::Taken => self.scanner.handle(),
            _ => &[],
        }
    }

    fn suffix(&self) -> &[u8] {
        match self.standing {
            Standing::Taken => self.scanner.suffix(),
            _ => &[],
        }
    }

    fn version(&self) -> (i32, i32) {
        match self.standing {
            Standing::Taken => self.scanner.version(),
            _ => (0, 0),
        }
    }

    fn encoding(&self) -> yaml_encoding_t {
        match self.standing {
            Standing::Taken => self.scanner.encoding(),
            _ => yaml_encoding_t::YAML_ANY_ENCODING,
        }
    }

    fn mark(&mut self, place: usize) -> yaml_mark_t {
        self.locator.locate(self.text, place)
    }

    fn origin(&self) -> usize {
        0
    }

    fn fault(&self) -> yaml_fault_t {
        if let Some(fault) = self.refusal {
            return fault;
        }
        if is_failed(self.standing) {
            return self.scanner.fault();
        }
        yaml_tag_fault(mark_in(self.text, self.scanner.start()))
    }
}
