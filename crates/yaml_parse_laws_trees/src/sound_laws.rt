//! Laws of the parser's machine: which lists of tokens it accepts, and where it refuses the others. No code.

ghost use Rattle.yaml_parse_laws_trees.specs.SoundLaws.{AcceptedAreSentences, AcceptedAreTrees, EventsBeginAsItems, FaultsStandAtFirst, FrontsAreNotRefused, SentencesAreAccepted};

/// Which lists of tokens the machine accepts, and where it refuses the others.
pub fn laws_of_acceptance()
    // A list of tokens of which none is refused, and which comes to the stream's end, begins with the tokens of a tree.
    ensures accepted_lists_begin_with_trees { AcceptedAreTrees }
    // Where no directive and no tag handle is refused either, that tree's are in order.
    ensures accepted_lists_begin_with_sentences { AcceptedAreSentences }
    // And each list that begins with such a tree's tokens is accepted.
    ensures sentences_are_accepted { SentencesAreAccepted }
    // A list ends in a fault of the parser at the first token that no tree goes on with. Where a tree goes on with the whole list,
    // it ends in the source's own fault, or where the source has none, at the empty token after the list. What is given before the
    // fault begins the items of a tree that goes on with the tokens before it.
    ensures faults_stand_at_the_first_wrong_token { FaultsStandAtFirst }
    // No token is refused of a list with which a tree goes on.
    ensures fronts_of_trees_are_not_refused { FrontsAreNotRefused }
    // Where items begin with others, so do the events that they mean.
    ensures events_begin_as_items_do { EventsBeginAsItems }
{}
