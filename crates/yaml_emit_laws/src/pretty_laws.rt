//! The laws that the others follow from.

ghost use Rattle.yaml_emit_laws.specs.DocLaws.{PrettyTextIsRead};
ghost use Rattle.yaml_emit_laws.specs.Nodes.{NodesAreWalked};

/// What pretty text is read as.
pub fn laws_of_pretty_text()
    // All nodes that may be written are walked, at every position of a block.
    ensures nodes_are_walked { NodesAreWalked }
    // The pretty text of documents that may be written is read as their tokens, without fault,
    // whatever encoding is named.
    ensures pretty_text_is_read { PrettyTextIsRead }
{}
