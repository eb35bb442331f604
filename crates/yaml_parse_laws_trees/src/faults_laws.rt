//! Laws of the fault of a list of tokens: said of trees, and of the tokens before a token, it is what
//! the parser's machine ends in. No code.

ghost use Rattle.yaml_parse_laws_trees.specs.FaultsLaws.{EndsInFault, FaultEnds, FaultIsOne, FaultIsToldAtPlace};
ghost use Rattle.yaml_parse_laws_trees.specs.FaultsRows.{RowsHold};

/// The fault of a list of tokens, said of trees.
pub fn laws_of_faults()
    // A list of tokens has one fault at most: the one of the least place in it, or its own.
    ensures a_list_has_one_fault { FaultIsOne }
    // Each list either begins with a sentence or has a fault, and that is what the machine ends in:
    // kind, problem, mark, context and the context's mark.
    ensures the_machine_ends_in_the_fault { EndsInFault }
    // And whichever fault a list has, the machine ends in it.
    ensures the_fault_is_what_the_machine_ends_in { FaultEnds }
    // The machine says it at its place: it asks for no token after that.
    ensures the_fault_is_told_at_its_place { FaultIsToldAtPlace }
    // Lists with their faults, one for each text of the parser's.
    ensures rows_of_faults_hold { RowsHold }
{}
