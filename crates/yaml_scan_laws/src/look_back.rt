//! Each function's contract is a law.

ghost use Rattle.yaml_scan_laws.specs.LookBack.{OfflineLooksBack};

/// The tokens of a text are those that looking back gives: BLOCK-END by the levels that a lexeme leaves, a block start
/// where its level opens, KEY where a later `:` finds the lexeme.
pub fn offline_looks_back()
    ensures { OfflineLooksBack }
{}
