//! What is known of the next token, and the texts of the one that was taken last.

ghost use Rattle.std.specs.Prelude.{true, pos, ◌≡◌, ◌≢◌, ◌<◌, ◌^◌, length};
ghost use Rattle.yaml_scan_model.specs.scan_types.Faults.{fault_of};
ghost use Rattle.yaml_scan_model.specs.scan_types.Tokens.{TokenBody};
ghost use Rattle.yaml_scan_core.specs.Asked.{HasTaken, IsFront, Waits, front_lexeme, store_in};
ghost use Rattle.yaml_scan_core.specs.Shown.{end_at, number_of, quotes};
ghost use Rattle.yaml_scan_core.specs.Told.{KnowsNext, fault_told, has_parts, has_value, texts_of};

use crate::lexeme::NOTED;
use crate::scanner::Scanner;
use yaml_scan_model::{
    Kind, yaml_encoding_t, yaml_fault_t, yaml_memory_fault, yaml_origin_t, yaml_scalar_style_t,
};

impl Scanner<'_> {
    /// Whether the next token is known, whatever follows.
    pub fn has_token(&self) -> bool
        requires { Waits self.now }
        ensures yes { result ≡ true → KnowsNext self.now }
        ensures no { KnowsNext self.now → result ≡ true }
    {
        self.row.waiting() > 0 && self.row.lexemes[self.row.next].front != Kind::Failed
    }

    /// Where the next token starts.
    pub fn start(&self) -> usize
        requires { self.now.row.next < length self.now.row.lexemes.items }
        ensures { result ≡ (front_lexeme self.now).start }
    {
        self.row.lexemes[self.row.next].start
    }

    /// Where the next token, of that kind, ends. One that is before a lexeme's own ends where it starts.
    pub fn end(&self, kind: Kind) -> usize
        requires { IsFront kind self.now }
        ensures own { (front_lexeme self.now).front ≡ (front_lexeme self.now).kind
            → result ≡ end_at (store_in self.now) (front_lexeme self.now) }
        ensures lead { (front_lexeme self.now).front ≢ (front_lexeme self.now).kind
            → result ≡ (front_lexeme self.now).start }
    {
        let lexeme = &self.row.lexemes[self.row.next];
        if kind != lexeme.kind {
            return lexeme.start;
        }
        if lexeme.flags & NOTED == 0 {
            return lexeme.end;
        }
        self.row.notes[lexeme.end].end
    }

    /// The style of the scalar that is next.
    pub fn style(&self) -> yaml_scalar_style_t
        requires { self.now.row.next < length self.now.row.lexemes.items }
        ensures { result ≡ (front_lexeme self.now).style }
    {
        self.row.lexemes[self.row.next].style
    }

    /// The value of the scalar that was taken last, or the name of the anchor or alias; nothing of other tokens.
    pub fn value(&self) -> &[u8]
        requires { (b : TokenBody) × HasTaken self.now b }
        ensures { result.now ≡ (texts_of self.now).value }
    {
        let lexeme = &self.row.lexemes[self.row.next - 1];
        if !has_value(lexeme.kind) {
            return &[];
        }
        if lexeme.flags & NOTED != 0 {
            return self.row.span(self.text, self.row.notes[lexeme.end].second);
        }
        let (before, behind) = quotes(lexeme.style);
        &self.text[lexeme.start + before..lexeme.end - behind]
    }

    /// The handle of the tag or directive that was taken last; nothing of other tokens.
    pub fn handle(&self) -> &[u8]
        requires { (b : TokenBody) × HasTaken self.now b }
        ensures { result.now ≡ (texts_of self.now).handle }
    {
        let lexeme = &self.row.lexemes[self.row.next - 1];
        if !has_parts(lexeme.kind) {
            return &[];
        }
        self.row.span(self.text, self.row.notes[lexeme.end].first)
    }

    /// The suffix of the tag, or the prefix of the directive, that was taken last; nothing of other tokens.
    pub fn suffix(&self) -> &[u8]
        requires { (b : TokenBody) × HasTaken self.now b }
        ensures { result.now ≡ (texts_of self.now).suffix }
    {
        let lexeme = &self.row.lexemes[self.row.next - 1];
        if !has_parts(lexeme.kind) {
            return &[];
        }
        self.row.span(self.text, self.row.notes[lexeme.end].second)
    }

    /// The numbers of the version that was taken last; zeros of other tokens.
    pub fn version(&self) -> (i32, i32)
        requires { (b : TokenBody) × HasTaken self.now b }
        ensures major { result.0 ≡ (texts_of self.now).major }
        ensures minor { result.1 ≡ (texts_of self.now).minor }
    {
        let lexeme = &self.row.lexemes[self.row.next - 1];
        if lexeme.kind != Kind::VersionDirective {
            return (0, 0);
        }
        let note = self.row.notes[lexeme.end];
        let major = number(self.row.span(self.text, note.first));
        let minor = number(self.row.span(self.text, note.second));
        (major, minor)
    }

    /// The text's encoding.
    pub fn encoding(&self) -> yaml_encoding_t
        ensures { result ≡ (texts_of self.now).encoding }
    {
        self.encoding
    }

    /// The fault that is kept; where none is, that memory ran out.
    pub fn fault(&self) -> yaml_fault_t
        ensures { fault_of result ≡ fault_told self.now.text.now self.now.fault }
    {
        match self.fault {
            Some(fault) => fault.located(self.text),
            None => yaml_memory_fault(yaml_origin_t::Scanner),
        }
    }
}

/// Whether a token of that kind has a value.
fn has_value(kind: Kind) -> bool
    ensures { result ≡ has_value kind }
{
    matches!(kind, Kind::Alias | Kind::Anchor | Kind::Scalar)
}

/// Whether it has a handle, and a suffix or prefix.
fn has_parts(kind: Kind) -> bool
    ensures { result ≡ has_parts kind }
{
    matches!(
        kind,
        Kind::Tag | Kind::BadTag | Kind::TagDirective | Kind::BadPrefix
    )
}

/// How many bytes are before and after the value of a scalar of that style.
fn quotes(style: yaml_scalar_style_t) -> (usize, usize)
    ensures { result ≡ quotes style }
{
    match style {
        yaml_scalar_style_t::YAML_PLAIN_SCALAR_STYLE => (0, 0),
        yaml_scalar_style_t::YAML_ANY_SCALAR_STYLE => (1, 0),
        _ => (1, 1),
    }
}

/// The number that digits spell.
fn number(digits: &[u8]) -> i32
    requires { number_of 0 digits.now < 2 ^ 31 }
    ensures { result ≡ pos (number_of 0 digits.now) }
{
    let mut value: u32 = 0;
    'digits: for at in 0..digits.len() {
        value = value * 10 + digits[at].saturating_sub(b'0') as u32;
    }
    value as i32
}
