//! Tokens with texts of their own.

ghost use Rattle.std.specs.Prelude.{IfOk, ◌≡◌, false};
ghost use Rattle.yaml_scan_model.specs.scan_types.Tokens.{TokenBody, body_of};
ghost use Rattle.yaml_scan_core.specs.Asked.{HasTaken, IsFront, Waits, behind_first};
ghost use Rattle.yaml_scan_core.specs.Handed.{to_come};
ghost use Rattle.yaml_scan_core.specs.Owned.{GivesOwned, OwnedNeeded, TellsOwned, bare_with, body_with};
ghost use Rattle.yaml_scan_core.specs.Rows.{may_lead};
ghost use Rattle.yaml_scan_core.specs.Scanning.{stream_of};
ghost use Rattle.yaml_scan_core.specs.Told.{Locates, texts_of};
ghost use Rattle.yaml_scan_core.specs.Waiting.{IsRead, IsShort, TakesNeeded};

use crate::place::Locator;
use crate::scanner::Scanner;
use std::alloc::{AllocError, Global};
use yaml_scan_model::{
    Kind, yaml_fault_t, yaml_memory_fault, yaml_origin_t, yaml_scalar_style_t, yaml_token_body_t,
    yaml_token_t,
};

/// The next token with texts of its own, which is taken; after the last the empty one. The error is the fault that ends the tokens,
/// or out of memory.
pub fn next_token(
    alloc: Global,
    scanner: &mut Scanner,
    locator: &mut Locator,
) -> Result<yaml_token_t, yaml_fault_t>
    requires waits { Waits scanner.old }
    requires locates { Locates scanner.old.text.now locator.old }
    ensures waits { Waits scanner.new }
    ensures stream { stream_of scanner.new ≡ stream_of scanner.old }
    ensures locates { Locates scanner.new.text.now locator.new }
    ensures tells { TellsOwned (to_come scanner.old) scanner.new result }
    ensures needs { scanner.old.batch ≡ 1 → IsRead scanner.old
        → IfOk result (λ t. OwnedNeeded scanner.old scanner.new) }
    ensures short { scanner.old.batch ≡ 1 → IsRead scanner.old
        → IsShort scanner.old → IsShort scanner.new }
{
    match scanner.kind() {
        Kind::Failed => Err(scanner.fault()),
        Kind::Nothing => Ok(yaml_token_t::empty()),
        kind => take_front(alloc, scanner, locator, kind),
    }
}

/// The next token, of that kind, with texts of its own, which is taken. The error is out of memory.
fn take_front(
    alloc: Global,
    scanner: &mut Scanner,
    locator: &mut Locator,
    kind: Kind,
) -> Result<yaml_token_t, yaml_fault_t>
    requires waits { Waits scanner.old }
    requires front { IsFront kind scanner.old }
    requires locates { Locates scanner.old.text.now locator.old }
    ensures waits { Waits scanner.new }
    ensures stream { stream_of scanner.new ≡ stream_of scanner.old }
    ensures locates { Locates scanner.new.text.now locator.new }
    ensures rest { to_come scanner.new ≡ behind_first (to_come scanner.old) }
    ensures gives { GivesOwned (to_come scanner.old) result }
    ensures kept { TakesNeeded scanner.old scanner.new }
{
    let style = scanner.style();
    let start_mark = locator.locate(scanner.text, scanner.start());
    let end_mark = locator.locate(scanner.text, scanner.end(kind));
    scanner.skip(kind);
    match owned_body(alloc, scanner, kind, style) {
        Ok(body) => Ok(yaml_token_t {
            body,
            start_mark,
            end_mark,
        }),
        Err(_) => Err(yaml_memory_fault(yaml_origin_t::Scanner)),
    }
}

/// What the token of that kind and style carries that was taken last. The error is out of memory.
fn owned_body(
    alloc: Global,
    scanner: &Scanner,
    kind: Kind,
    style: yaml_scalar_style_t,
) -> Result<yaml_token_body_t, AllocError>
    requires { may_lead kind ≡ false → (b : TokenBody) × HasTaken scanner.now b }
    ensures { IfOk result (λ x. body_of x ≡ body_with kind style (texts_of scanner.now)) }
{
    match kind {
        Kind::Scalar => {
            let value = Vec::from_slice(alloc, scanner.value())?;
            Ok(yaml_token_body_t::Scalar { value, style })
        }
        Kind::Alias => {
            let value = Vec::from_slice(alloc, scanner.value())?;
            Ok(yaml_token_body_t::Alias { value })
        }
        Kind::Anchor => {
            let value = Vec::from_slice(alloc, scanner.value())?;
            Ok(yaml_token_body_t::Anchor { value })
        }
        Kind::Tag | Kind::BadTag => {
            let handle = Vec::from_slice(alloc, scanner.handle())?;
            let suffix = Vec::from_slice(alloc, scanner.suffix())?;
            Ok(yaml_token_body_t::Tag { handle, suffix })
        }
        Kind::TagDirective | Kind::BadPrefix => {
            let handle = Vec::from_slice(alloc, scanner.handle())?;
            let prefix = Vec::from_slice(alloc, scanner.suffix())?;
            Ok(yaml_token_body_t::TagDirective { handle, prefix })
        }
        Kind::VersionDirective => {
            let (major, minor) = scanner.version();
            Ok(yaml_token_body_t::VersionDirective { major, minor })
        }
        Kind::StreamStart => Ok(yaml_token_body_t::StreamStart {
            encoding: scanner.encoding(),
        }),
        _ => Ok(bare_body(kind)),
    }
}

/// What a token carries that has no text.
fn bare_body(kind: Kind) -> yaml_token_body_t
    ensures { body_of result ≡ bare_with kind }
{
    match kind {
        Kind::StreamEnd => yaml_token_body_t::StreamEnd,
        Kind::DocumentStart => yaml_token_body_t::DocumentStart,
        Kind::DocumentEnd => yaml_token_body_t::DocumentEnd,
        Kind::BlockSequenceStart => yaml_token_body_t::BlockSequenceStart,
        Kind::BlockMappingStart => yaml_token_body_t::BlockMappingStart,
        Kind::BlockEnd => yaml_token_body_t::BlockEnd,
        Kind::FlowSequenceStart => yaml_token_body_t::FlowSequenceStart,
        Kind::FlowSequenceEnd => yaml_token_body_t::FlowSequenceEnd,
        Kind::FlowMappingStart => yaml_token_body_t::FlowMappingStart,
        Kind::FlowMappingEnd => yaml_token_body_t::FlowMappingEnd,
        Kind::BlockEntry => yaml_token_body_t::BlockEntry,
        Kind::FlowEntry => yaml_token_body_t::FlowEntry,
        Kind::Key => yaml_token_body_t::Key,
        Kind::Value => yaml_token_body_t::Value,
        _ => yaml_token_body_t::No,
    }
}
