//! Each function's contract is a law of what is in brackets.

ghost use Rattle.yaml_emit_laws.specs.Flows.{BracketsFollow};

/// With simple keys and properties all collections in brackets are walked, at every position of a block.
pub fn brackets_follow()
    ensures { BracketsFollow }
{}
