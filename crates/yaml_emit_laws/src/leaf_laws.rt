//! Laws of leaves and of properties.

ghost use Rattle.yaml_emit_laws.specs.Nodes.{BlockScalarsAreWalked, LeavesAreWalked, PropertiesAreWalked};

/// Leaves and properties are walked.
pub fn laws_of_leaves()
    // An anchor, a tag, or both are walked.
    ensures properties_are_walked { PropertiesAreWalked }
    // Aliases and scalars in a line or in quotes are walked.
    ensures leaves_are_walked { LeavesAreWalked }
    // Literal and folded scalars are walked.
    ensures block_scalars_are_walked { BlockScalarsAreWalked }
{}
