//! Documents of a parser's events.

ghost use Rattle.std.specs.Prelude.{◌≡◌, ◌≤◌, ◌⊎◌, true, Some, IfOk, IfErr};
ghost use Rattle.yaml_scan_model.specs.scan_types.Faults.{fault_of, IsMemoryFault, load_layers};
ghost use Rattle.yaml_parse_model.specs.Sizes.{IsSized};
ghost use Rattle.yaml_parse_laws_trees.specs.NextLoad.{AreLoadsByContent, FrontsLoadByContent, LoadIsNext, RefusalIsNext, loads_fault};

use crate::found::yaml_found_t;
use crate::parser::{yaml_parser_parse_into, yaml_parser_t};
use yaml_parse_loader::Loader;
use yaml_parse_model::{
    no_document, yaml_document_t, yaml_event_body_t, yaml_event_t, yaml_token_source_t,
};
use yaml_scan_model::{yaml_fault_t, yaml_memory_fault, yaml_origin_t};

// Both are dropped. A call for each way out of a load: there each field that is freed by itself
// would be a step of its own.
fn let_go(loader: Loader, event: yaml_event_t) {
    loader.let_go();
    drop(event);
}

/// The next document, its nodes numbered from 1 in preorder; after the last one a document without root. An alias stands
/// for the last node before it in preorder that has its anchor, a node that encloses it counting from its own start; an
/// anchor may occur again. Also refused, with kind 5, for an alias without such a node in its document (`found undefined
/// alias`). What is after a document is left; after a refusal nothing is to come. No document may be half taken
/// (see `yaml_parser_between`); none is afterwards.
pub fn yaml_parser_load<S: yaml_token_source_t>(
    parser: &mut yaml_parser_t<S>,
) -> Result<yaml_document_t, yaml_fault_t>
    requires { parser.old.between ≡ true }
    // Load after load, there is a next one that content says, up to a fault or the last document.
    ensures by_content { AreLoadsByContent parser.old }
    // What is loaded is the numbering of the content whose events come next; an alias in it without an anchor is refused, before
    // the fault after the events.
    ensures next { IfOk result (λ d. LoadIsNext parser.old d parser.new) }
    ensures refused { IfErr result (λ f. RefusalIsNext parser.old (fault_of f) parser.new) }
    // The fault that loads come to, which of a new parser's is the one of loading its tokens
    // (`FaultOfLoading`), is what is reported, and stays as a document is loaded.
    ensures told { (h : AreLoadsByContent parser.old) → IfErr result (λ f. IsMemoryFault
        load_layers (fault_of f) ⊎ (loads_fault h ≡ Some (fault_of f))) }
    ensures stays { (h : AreLoadsByContent parser.old) → IfOk result (λ d.
        (k : AreLoadsByContent parser.new) → loads_fault k ≡ loads_fault h) }
    ensures between { parser.new.between ≡ true }
    // No list of a document (its nodes, the items of a sequence, the pairs of a mapping) has more than 2,147,483,647 entries.
    ensures sized { IfOk result (λ d. IsSized d) }
    // One token at most is asked for and not consumed.
    ensures held { parser.new.held ≤ 1 }
{
    let alloc = parser.allocator();
    let mut loader = Loader::new(alloc);
    let mut event = yaml_event_t::unplaced(yaml_event_body_t::No);
    let mut fault = yaml_memory_fault(yaml_origin_t::Parser);
    'events: loop {
        match yaml_parser_parse_into(parser, &mut event, &mut fault) {
            yaml_found_t::Event => {
                let marks = (event.start_mark, event.end_mark);
                match loader.feed(event.body.borrowed(), marks) {
                    Ok(None) => {}
                    Ok(Some(document)) => {
                        let_go(loader, event);
                        return Ok(document);
                    }
                    Err(refused) => {
                        let_go(loader, event);
                        parser.refuse(&refused);
                        return Err(refused);
                    }
                }
            }
            yaml_found_t::End => {
                let_go(loader, event);
                return Ok(no_document(alloc));
            }
            yaml_found_t::Refused => {
                let_go(loader, event);
                return Err(fault);
            }
        }
    }
}

/// A law: of every front of a stream of documents each load is one that content says, load after load, up to a fault or the
/// last document.
pub fn loads_are_by_content()
    ensures { FrontsLoadByContent }
{}
