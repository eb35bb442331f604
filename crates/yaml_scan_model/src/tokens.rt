//! Tokens as a parser takes them: the next one is looked at, and then taken.

ghost use Rattle.std.specs.Prelude.{◌≡◌, ℕ, Bool, true, false, List, Option, Some, length};
ghost use Rattle.yaml_scan_types.specs.Tokens.{Token, zero_mark};
ghost use Rattle.yaml_scan_types.specs.Faults.{Fault, fault_of};
ghost use Rattle.yaml_scan_types.specs.declared.record.yaml_mark_t.{yaml_mark_t};
ghost use Rattle.yaml_scan_model.specs.Coming.{front_of, rest_of, HasUtf8};
ghost use Rattle.yaml_scan_model.specs.Kinds.{is_fault};
ghost use Rattle.yaml_scan_model.specs.Texts.{Texts, AreTextsOf, style_in};
ghost use Rattle.yaml_scan_model.specs.Shows.{IsNext, Shows, left_behind};

use crate::fault::yaml_fault_t;
use crate::kind::Kind;
use crate::name::{yaml_encoding_t, yaml_scalar_style_t};
use crate::record::yaml_mark_t;

/// Tokens to come. Questions about the next one are asked after `kind` has found it; its texts stay
/// after `skip` up to the next `kind`.
pub trait Tokens: Drop {
    /// Where a token starts or ends.
    type Place: Copy;

    // The tokens to come, after the last the empty one if it was given, and the fault that ends
    // them, if any.
    ghost to_come: { Self → List Token };

    ghost fault_to_come: { Self → Option Fault };

    // The mark of a place.
    ghost mark_of: { Self → Self.Place → yaml_mark_t };

    // The texts of the token that was taken last, each if it has one.
    ghost texts: { Self → Texts };

    // The first of what is to come was given: a fault or a token.
    ghost tells: { Self → Bool → Type 0 };

    // How many tokens weren't asked for, and how many were and weren't taken.
    ghost unasked: { Self → ℕ };

    ghost held: { Self → ℕ };

    /// The kind of the next token, which is asked for where it hasn't come.
    fn kind(&mut self) -> Kind
        ensures shows { Shows result (to_come self.old) (fault_to_come self.old) (to_come self.new)
            (fault_to_come self.new) }
        ensures tells { tells self.new (is_fault result) }
        ensures unasked { unasked self.new ≡ left_behind (to_come self.new) }
        // The texts of a token are UTF-8 that was given just now.
        ensures utf8 { (tells self.old false → HasUtf8 (front_of (to_come self.old)).body)
            → HasUtf8 (front_of (to_come self.new)).body }
        ensures places { mark_of self.new ≡ mark_of self.old };

    /// The next token, of that kind, is taken.
    fn skip(&mut self, kind: Kind)
        requires tells { tells self.old false }
        requires kind { IsNext kind (to_come self.old) }
        ensures rest { to_come self.new ≡ rest_of (to_come self.old) }
        ensures fault { fault_to_come self.new ≡ fault_to_come self.old }
        ensures texts { AreTextsOf (front_of (to_come self.old)).body (texts self.new) }
        ensures unasked { unasked self.new ≡ length (to_come self.new) }
        ensures utf8 { tells self.new false → HasUtf8 (front_of (to_come self.new)).body }
        ensures places { mark_of self.new ≡ mark_of self.old };

    /// The next token, of that kind, is taken: the kind of the one after it.
    fn pass(&mut self, kind: Kind) -> Kind
        requires tells { tells self.old false }
        requires kind { IsNext kind (to_come self.old) }
        ensures shows { Shows result (rest_of (to_come self.old)) (fault_to_come self.old)
            (to_come self.new) (fault_to_come self.new) }
        ensures tells { tells self.new (is_fault result) }
        ensures unasked { unasked self.new ≡ left_behind (to_come self.new) }
        ensures utf8 { HasUtf8 (front_of (to_come self.new)).body }
        ensures places { mark_of self.new ≡ mark_of self.old }
    {
        self.skip(kind);
        self.kind()
    }

    /// Where the next token, of that kind, starts and ends.
    fn start(&self) -> Self::Place
        requires { tells self.now false }
        ensures { mark_of self.now result ≡ (front_of (to_come self.now)).start_mark };

    fn end(&self, kind: Kind) -> Self::Place
        requires tells { tells self.now false }
        requires kind { IsNext kind (to_come self.now) }
        ensures { mark_of self.now result ≡ (front_of (to_come self.now)).end_mark };

    /// The style of the scalar that is next.
    fn style(&self) -> yaml_scalar_style_t
        requires tells { tells self.now false }
        requires kind { IsNext Kind.Scalar (to_come self.now) }
        ensures { result ≡ style_in (front_of (to_come self.now)).body };

    /// The value of the scalar that was taken last, or the name of the anchor or alias.
    fn value(&self) -> &[u8]
        ensures { result.now ≡ (texts self.now).value };

    /// The handle and the suffix or prefix of the tag or directive that was taken last.
    fn handle(&self) -> &[u8]
        ensures { result.now ≡ (texts self.now).handle };

    fn suffix(&self) -> &[u8]
        ensures { result.now ≡ (texts self.now).suffix };

    /// The numbers of the version that was taken last.
    fn version(&self) -> (i32, i32)
        ensures major { result.0 ≡ (texts self.now).major }
        ensures minor { result.1 ≡ (texts self.now).minor };

    /// The encoding of the stream's start that was taken last.
    fn encoding(&self) -> yaml_encoding_t
        ensures { result ≡ (texts self.now).encoding };

    /// The mark of a place.
    fn mark(&mut self, place: Self::Place) -> yaml_mark_t
        ensures mark { result ≡ mark_of self.old place }
        ensures rest { to_come self.new ≡ to_come self.old }
        ensures fault { fault_to_come self.new ≡ fault_to_come self.old }
        ensures texts { texts self.new ≡ texts self.old }
        ensures tells { (b : Bool) → tells self.old b → tells self.new b }
        ensures told { tells self.new false → tells self.old false }
        ensures unasked { unasked self.new ≡ unasked self.old }
        ensures held { held self.new ≡ held self.old }
        ensures places { mark_of self.new ≡ mark_of self.old };

    /// The place of a text's start.
    fn origin(&self) -> Self::Place
        ensures { mark_of self.now result ≡ zero_mark };

    /// The fault that is where the next token would.
    fn fault(&self) -> yaml_fault_t
        requires { tells self.now true }
        ensures { fault_to_come self.now ≡ Some (fault_of result) };
}
