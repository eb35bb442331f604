//! The loader: a machine that is fed a parser's events, one at a time, and gives a document at its last.

ghost use Rattle.std.specs.Prelude.{◌≡◌, List, IfOk, IfSome};
ghost use Rattle.yaml_parse_model.specs.Events.{Event, borrowed_body};
ghost use Rattle.yaml_parse_model.specs.scan_types.Faults.{fault_of};
ghost use Rattle.yaml_parse_loader.specs.Numbering.{DocumentContent, document_events, document_of, undefined_alias};
ghost use Rattle.yaml_parse_model.specs.Constructors.{HasUtf8};
ghost use Rattle.yaml_parse_model.specs.Sizes.{IsSized};
ghost use Rattle.yaml_parse_loader.specs.Loading.{Loading, load, document, behind, nothing_loaded, step_body, Feeds};
ghost use Rattle.yaml_parse_loader.specs.Order.{IsInPreorder};

use crate::making::{Fed, Making};
use std::alloc::Global;
use std::marker::Model;
use yaml_parse_model::{
    EventRef, ZERO_MARK, yaml_document_t, yaml_error_type_t, yaml_fault_t, yaml_mark_t,
    yaml_memory_fault, yaml_origin_t,
};

/// The fault of an alias that no node before it anchors: kind 5, at the alias, without context.
pub fn undefined_alias_fault(at: yaml_mark_t) -> yaml_fault_t
    ensures { fault_of result ≡ undefined_alias at }
{
    yaml_fault_t {
        kind: yaml_error_type_t::YAML_COMPOSER_ERROR,
        problem: "found undefined alias",
        offset: 0,
        value: 0,
        problem_mark: at,
        context: None,
        context_mark: ZERO_MARK,
        origin: yaml_origin_t::Loader,
    }
}

/// A document in the making. Nothing recurses: open collections are on a stack of the loader's own, and each gets what it holds
/// once, at its end.
#[derive(Drop)]
pub struct Loader {
    making: Making,
}

impl Model for Loader {
    ghost use Rattle.yaml_parse_loader.specs.Loading.{Loading};
    ghost use Rattle.std.specs.Coded.{codes};
    ghost use Rattle.yaml_parse_loader.specs.AnchorCode.{anchors_code};

    ghost Value = { Loading };

    ghost coded = { Prim.hlevel (codes, anchors_code) };

    ghost use Rattle.yaml_parse_loader.specs.LoaderView.{loader_view, IsLoader};

    ghost view = { loader_view };

    ghost invariant = { IsLoader };
}

impl Loader {
    /// Nothing is loaded yet.
    #[tactic(auto, using(crate::proofs::Keeps::nothing_sound, crate::proofs::Sizing::nothing_sized))]
    pub fn new(alloc: Global) -> Loader
        ensures { result ≡ nothing_loaded }
    {
        Loader {
            making: Making::new(alloc),
        }
    }

    /// Drops what was loaded. A call of this crate, so that callers need not prove how each part is freed.
    pub fn let_go(self) {
        drop(self);
    }

    /// Takes an event, whose texts are copied, and its marks: at a DOCUMENT-END it gives the document, at every other one
    /// nothing. Nodes count from 1 in preorder. An alias stands for the last node before it that has its anchor, and is refused
    /// where there is none (`found undefined alias`). Where a list would get more than 2,147,483,647 entries, out of memory is answered.
    /// After a document and after a refusal it starts anew.
    #[tactic(auto, using(crate::proofs::Keeps::nothing_sound, crate::proofs::Sizing::nothing_sized, crate::proofs::Keeps::step_sound, crate::proofs::Sizing::step_sized))]
    pub fn feed(
        &mut self,
        event: EventRef<'_>,
        marks: (yaml_mark_t, yaml_mark_t),
    ) -> Result<Option<yaml_document_t>, yaml_fault_t>
        requires { HasUtf8 (borrowed_body event) }
        ensures feeds { Feeds (step_body (borrowed_body event.entry) marks.0 marks.1 self.old)
            result self.new }
        // No list of a document has more than 2,147,483,647 entries.
        ensures sized { IfOk result (λ o. IfSome o (λ d. IsSized d)) }
    {
        match self.making.apply(event, marks) {
            Fed::Taken => Ok(None),
            Fed::Whole => Ok(Some(self.making.take_document())),
            Fed::Undefined => {
                self.making.begin_anew();
                Err(undefined_alias_fault(marks.0))
            }
            Fed::Starved => {
                self.making.begin_anew();
                Err(yaml_memory_fault(yaml_origin_t::Loader))
            }
        }
    }
}

/// A law: whatever was loaded before, the loader makes of a document's events the document whose nodes are numbered in
/// preorder, each alias standing for the last node before it with its anchor, at the last of these events; or it refuses
/// the first alias without such a node.
#[tactic(auto, using(crate::proofs::Loads::loads_document))]
pub fn loads_documents()
    ensures { (d : DocumentContent) (rest : List Event) (l : Loading)
        → load (document_events d rest) l ≡ behind (document_of d) (λ e. document e rest) }
{}

/// A law: in a loaded document the numbers follow the first visits in preorder from the root, a pair's key before its
/// value.
#[tactic(auto, using(crate::proofs::Visited::numbered_in_order))]
pub fn numbers_follow_visits()
    ensures { (d : DocumentContent) → IfOk (document_of d) (λ e. IsInPreorder e.nodes) }
{}
