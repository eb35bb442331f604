//! Each function's contract is a law. Bodies cite laws of lower crates.

ghost use Rattle.yaml_round_content.specs.DumpsLaws.{ContentIsLoaded, ContentIsSaid, ContentLoadsDocuments, DumpsAreNumberedBack, DumpsLoadBack, InputsLoadDocuments};

use crate::loads::loads_of_content;
use crate::writable_laws::inputs_are_writable;
use yaml_emit_laws::documents_are_loaded;

/// The events of a content that may be written say it.
pub fn content_is_said()
    ensures { ContentIsSaid }
{}

/// Each document of a content is loaded as it is numbered.
pub fn content_is_loaded()
    ensures { ContentIsLoaded }
{}

/// What a content's events load are documents as loading makes them.
pub fn content_loads_documents()
    ensures { ContentLoadsDocuments }
{
    documents_are_loaded();
}

/// What contents load, and how it is numbered.
pub fn laws_of_loads()
    // What loaded documents say is numbered as they are, styles and marks aside.
    ensures dumps_are_numbered_back { DumpsAreNumberedBack }
    // Events that say what loaded documents do load documents that agree with them, without a fault.
    ensures dumps_load_back { DumpsLoadBack }
{}

/// The documents of an input that is accepted are documents as loading makes them: their numbers follow the first visits from
/// the root.
pub fn inputs_load_documents()
    ensures { InputsLoadDocuments }
{
    content_is_said();
    content_is_loaded();
    content_loads_documents();
    inputs_are_writable();
    loads_of_content();
}
