//! Each clause is a law.

ghost use Rattle.yaml_round_content.specs.Adapting.{CanonicalTokensPass};
ghost use Rattle.yaml_round_content.specs.TreeLaws.{CanonicalTokensAreParsed, NodesAreParsed};

/// Tokens of canonical text are parsed as the documents.
pub fn laws_of_document_trees()
    // Under directives that may be written, tokens with the bodies of a canonical node begin with a node's tree, of which the
    // node's events are read.
    ensures nodes_are_parsed { NodesAreParsed }
    // Tokens with the bodies of a canonical stream are parsed without fault, and their events say its documents.
    ensures canonical_tokens_are_parsed { CanonicalTokensAreParsed }
    // Tokens with the bodies of a canonical stream, in which tags can be read and prefixes are UTF-8, pass the adapter as they are.
    ensures canonical_tokens_pass { CanonicalTokensPass }
{}
