//! Laws of the grammar of tokens.

ghost use Rattle.std.specs.Prelude.{◌≤◌, ◌*◌, List, Option, length};
ghost use Rattle.yaml_parse_grammar.specs.scan_types.Tokens.{Token};
ghost use Rattle.yaml_parse_grammar.specs.scan_types.Faults.{Fault};
ghost use Rattle.yaml_parse_grammar.specs.Machine.{run, initial};
ghost use Rattle.yaml_parse_grammar.specs.Resolve.{Directives};
ghost use Rattle.yaml_parse_grammar.specs.Remaining.{reading_of};
ghost use Rattle.yaml_parse_laws_trees.specs.CountsLaws.{EventsAreFewSoFar, ItemsAreGiven, TokensHaveOneTree, TurnsFitTree};

/// How many events tokens give, and how many trees they are of.
pub fn laws_of_counts()
    // A law: of no list of tokens come more than four events for each token.
    ensures at_most_four_events_a_token { (ts : List Token) (f : Option Fault) (ds : Directives)
        → length (reading_of (run ts initial f) ds).events ≤ 4 * length ts }
    // And as each event is given, no more have come than four for each token that was asked for by then.
    ensures at_most_four_events_a_token_so_far { EventsAreFewSoFar }
    // Tokens have one tree, and no tree's tokens begin another's.
    ensures tokens_have_one_tree { TokensHaveOneTree }
    // A tree's events, each with the number of tokens that aren't asked for as it is given, are what the form that
    // computes both at once gives.
    ensures a_trees_events_are_computed { ItemsAreGiven }
    // The turns of a tree ask for as many tokens as it has, and give as many events.
    ensures turns_fit_the_tree { TurnsFitTree }
{}
