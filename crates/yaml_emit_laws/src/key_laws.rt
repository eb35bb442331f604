//! Laws of simple keys.

ghost use Rattle.yaml_emit_laws.specs.Flows.{KeysAreWalkedIn};
ghost use Rattle.yaml_emit_laws.specs.Nodes.{SimpleKeysAreWalked};

/// Simple keys are walked.
pub fn laws_of_simple_keys()
    // A simple key and its `:` are walked in a block, whatever it is.
    ensures simple_keys_are_walked { SimpleKeysAreWalked }
    // A simple key and its `:` are walked in brackets, whatever it is.
    ensures keys_are_walked_in { KeysAreWalkedIn }
{}
