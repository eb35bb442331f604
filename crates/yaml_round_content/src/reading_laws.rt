//! Laws of the plain reading of an input: said of trees and of the fault of their tokens, it is what
//! the engine reads; and what is loaded of tokens that begin with a sentence is the numbering of their
//! tree's documents. Each function's contract is a law.

ghost use Rattle.yaml_round_content.specs.Loading.{EventsArePlaced, InputsAreNumbered, LoadsAreNumbered, LoadsAreOneByOne};
ghost use Rattle.yaml_round_content.specs.NextLoads.{SourcesLoadByContent};
ghost use Rattle.yaml_round_content.specs.PlainLoading.{FaultlessLoad, FaultyLoad, InputsLoad, LoadingIsLoads, LoadingIsOne, SourceLoadingIsOne, SourcesLoad};
ghost use Rattle.yaml_round_content.specs.Reading.{EventsAreOfTree, EventsAreTold, InputsRead, ReadIsRefused, ReadIsSaid, ReadingIsOne, RefusedIsRead, SaidIsRead};
ghost use Rattle.yaml_round_content.specs.Rows.{RowsHold};

/// The plain reading of an input, said of trees and of the fault of their tokens.
pub fn laws_of_readings()
    // Each input has a plain reading: a content, or a fault.
    ensures each_input_has_a_reading { InputsRead }
    // And it has one alone.
    ensures an_input_has_one_reading { ReadingIsOne }
    // An input that is refused is refused with the fault of its reading.
    ensures refused_is_read { RefusedIsRead }
    // And one whose reading is a fault is refused with it.
    ensures read_is_refused { ReadIsRefused }
    // What an accepted input says is the content of its reading.
    ensures said_is_read { SaidIsRead }
    // And an input whose reading is a content says it.
    ensures read_is_said { ReadIsSaid }
    // The events of an accepted input are those of its tree, their tags resolved.
    ensures events_are_of_the_tree { EventsAreOfTree }
    // They are those that the tree gives: each tag in full by the directives of its own document.
    ensures events_are_told { EventsAreTold }
    // Lists of tokens with their contents.
    ensures rows_of_contents_hold { RowsHold }
    // Of every source: the events of tokens that begin with a sentence are the stream's start, those of the tree's documents,
    // and its end.
    ensures events_are_placed { EventsArePlaced }
    // Of every source: what such tokens load is the numbering of the tree's documents, up to the first alias that no node
    // before it anchors.
    ensures loads_are_numbered { LoadsAreNumbered }
    // So is what an input loads that the parser accepts.
    ensures inputs_are_numbered { InputsAreNumbered }
    // The documents of events are those that `yaml_parser_load` gives, one after another, as content says each.
    ensures loads_are_one_by_one { LoadsAreOneByOne }
    // Of every source: each load of its tokens, one after another, is one that content says, as the contract of `yaml_parser_load`
    // does.
    ensures sources_load_by_content { SourcesLoadByContent }
    // Of every source: what its tokens load is the documents of their tree, numbered, where they begin with a
    // sentence in which each alias has its anchor; else the fault of loading them, the one of the least place.
    ensures a_source_loads_its_loading { SourcesLoad }
    // Tokens have one loading alone.
    ensures a_source_has_one_loading { SourceLoadingIsOne }
    // What an input loads is its plain loading: the documents of its tree, numbered, where it is a sentence
    // in which each alias has its anchor; else the fault of loading its tokens, the one of the least place.
    ensures an_input_loads_its_loading { InputsLoad }
    // It has one loading alone.
    ensures an_input_has_one_loading { LoadingIsOne }
    // And its plain loading is what it loads.
    ensures the_loading_is_what_it_loads { LoadingIsLoads }
    // By parts: where no fault ends an input's loads, their documents are its plain loading.
    ensures what_loads_without_fault_is_its_loading { FaultlessLoad }
    // And a fault that ends them is its plain loading.
    ensures the_fault_of_loads_is_its_loading { FaultyLoad }
{}
