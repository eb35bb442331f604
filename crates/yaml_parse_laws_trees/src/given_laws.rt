//! Laws of the events of a list of tokens: said of trees, before a fault too, they are what the parser's
//! machine gives. No code.

ghost use Rattle.yaml_parse_laws_trees.specs.GivenLaws.{EventsAreOne, EventsAreRun, ListHasFront, RunGivesEvents, RunGivesLeast};
ghost use Rattle.yaml_parse_laws_trees.specs.GivenRows.{RowsHold};
ghost use Rattle.yaml_parse_laws_trees.specs.Sentences.{RunBeginsSentence};

/// The events of a list of tokens, said of trees, before a fault too.
pub fn laws_of_events()
    // A list that begins with no tree's tokens has a longest front with which a tree goes on.
    ensures a_list_has_a_longest_front { ListHasFront }
    // By what is said of trees a list of tokens has its events, and no others.
    ensures a_list_has_one_list_of_events { EventsAreOne }
    // The machine gives them: each with the number of tokens that aren't asked for by then.
    ensures the_machine_gives_the_events { RunGivesEvents }
    // And whatever events a list has, the machine gives them.
    ensures the_events_are_what_the_machine_gives { EventsAreRun }
    // Of each tree that goes on with the longest front the machine gives all that needs no token after it.
    ensures the_machine_gives_all_of_the_front { RunGivesLeast }
    // Before a fault, of whatever kind, they begin those of a sentence: a tree whose directives and tag handles are in order, and
    // which goes on with the longest front of the list with which one does.
    ensures events_before_a_fault_begin_a_sentence { RunBeginsSentence }
    // Lists with their events before a fault: a node that has properties alone, the end of a single pair
    // and that of a document are given; a node that may be left out isn't, and nothing comes of a fault
    // of the source's own.
    ensures rows_of_events_hold { RowsHold }
{}
