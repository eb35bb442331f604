//! Each function's contract is a law. Bodies cite laws of lower crates.

ghost use Rattle.yaml_emit_laws.specs.DumpsLaws.{AgainsAreTurns, DumpsLoadBack, DumpsNumberBack, DocumentsAreLoaded, MetAgainAreNumbered, NamesAreApart, NumbersAreApart, NumbersAreFound, VisitsNumberBack, WalksAreWhole};

use yaml_parse_loader::numbers_follow_visits;

/// What dumped documents are numbered as, and what their events say.
pub fn laws_of_dumps()
    // No two nodes of a dump have one number.
    ensures numbers_are_apart { NumbersAreApart }
    // A node that is met again has a number.
    ensures met_again_are_numbered { MetAgainAreNumbered }
    // What a derivation of visits meets again is met again by the walk of a dump.
    ensures agains_are_turns { AgainsAreTurns }
    // No two numbers have one name.
    ensures names_are_apart { NamesAreApart }
    // The name of each node that has a number is found after it.
    ensures numbers_are_found { NumbersAreFound }
    // The bound of a walk's depth is never used up.
    ensures walks_are_whole { WalksAreWhole }
    // What is visited in preorder is numbered by its dump as it was.
    ensures visits_number_back { VisitsNumberBack }
    // What a dump of a loaded document says is that document, styles and marks aside.
    ensures dumps_number_back { DumpsNumberBack }
    // So the events that say it load that document.
    ensures dumps_load_back { DumpsLoadBack }
{}

/// Content that can be loaded is a document as loading makes it: its numbers follow the first visits, each node has a kind, and
/// no tag is `!`.
pub fn documents_are_loaded()
    ensures { DocumentsAreLoaded }
{
    numbers_follow_visits();
}
