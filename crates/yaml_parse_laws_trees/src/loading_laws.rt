//! Laws of the fault that loading ends in: said of the tokens, aliases without an anchor among what is wrong, it is what the loads
//! of the parser's events end in. Each function's contract is a law.

ghost use Rattle.yaml_parse_laws_trees.specs.Laws.{FaultEndsLoads, LoadFaultIsOne, LoadsComeToFault, LoadsEndInFault};
ghost use Rattle.yaml_parse_laws_trees.specs.Rows.{RowsHold};

/// The fault that loading ends in, said of tokens.
pub fn laws_of_loading()
    // A list of tokens has one fault of loading at most: the one of the least place in it, or its own.
    ensures a_list_has_one_fault_of_loading { LoadFaultIsOne }
    // Loads, one document after another, end in that fault: the first alias without an anchor before it
    // in its document, or what the parser finds wrong at a lesser place; or in none, where each alias
    // of a sentence has its anchor.
    ensures loads_end_in_the_fault { LoadsEndInFault }
    // And whichever fault of loading a list has, loads end in it.
    ensures the_fault_is_what_loads_end_in { FaultEndsLoads }
    // So do loads of the list's events that are said by content.
    ensures loads_by_content_come_to_the_fault { LoadsComeToFault }
    // Lists with their faults of loading: aliases before anchors, of another document, before and at what
    // the parser finds wrong.
    ensures rows_of_faults_of_loading_hold { RowsHold }
{}
