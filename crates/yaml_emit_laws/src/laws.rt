//! Each clause is a law.

ghost use Rattle.yaml_emit_laws.specs.NodeWalk.{LineEndsNode, LineIsWalked, MarkIsWalked, PlainIsWalked, SingleIsWalked};
ghost use Rattle.yaml_emit_laws.specs.Nodes.{NodesFollow, ShownEnds};

/// What a node's layout is walked as, and what ends it.
pub fn laws_of_nodes()
    // A line leads to its column, by a break and spaces or by spaces alone.
    ensures line_is_walked { LineIsWalked }
    // After text a line leads to its column, on a later line.
    ensures line_ends_node { LineEndsNode }
    // A `-`, a `?` or a `:` after one opens a level or closes those right of it.
    ensures mark_is_walked { MarkIsWalked }
    // What is neither white nor a comment ends what is in a level right of it.
    ensures shown_ends { ShownEnds }
    // A plain scalar is walked as content.
    ensures plain_is_walked { PlainIsWalked }
    // A single quoted scalar is walked as content.
    ensures single_is_walked { SingleIsWalked }
    // Block collections are walked, with their properties, where leaves, brackets, properties and simple keys are.
    ensures nodes_follow { NodesFollow }
{}
