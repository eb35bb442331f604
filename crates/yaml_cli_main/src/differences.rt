//! All places where two inputs differ, in the program's words.

ghost use Rattle.std.specs.Prelude.{◌≡◌, [], IfOk, Some, map};
ghost use Rattle.yaml_cli_main.specs.Asked.{AreShown, cause_of, node_cause, shown_cause};

use crate::engine::difference_of;
use crate::way::{body_of, push_held, push_way};
use std::alloc::{AllocError, Global};
use yaml_cli_program::{Cause, Difference, Met, Step, push_step};
use yaml_round::{
    yaml_difference_t, yaml_differences_t, yaml_document_difference_t, yaml_document_get_node,
    yaml_document_t, yaml_event_type_t, yaml_mark_t, yaml_node_body_t, yaml_node_cause_t,
    yaml_node_difference_t, yaml_node_t,
};

// What a text doesn't have is after all that it has.
const NOWHERE: yaml_mark_t = yaml_mark_t {
    index: u64::MAX,
    line: 0,
    column: 0,
};

fn node_cause_of(cause: yaml_node_cause_t) -> Cause
    ensures { result ≡ node_cause cause }
{
    match cause {
        yaml_node_cause_t::Kind => Cause::Kind,
        yaml_node_cause_t::Value => Cause::Value,
        yaml_node_cause_t::Tag => Cause::Tag,
        yaml_node_cause_t::KeyOrder => Cause::KeyOrder,
        yaml_node_cause_t::OnlyFirst => Cause::OnlyFirst,
        yaml_node_cause_t::OnlySecond => Cause::OnlySecond,
    }
}

// A node, as its first event begins.
fn met_node(node: &yaml_node_t) -> Met {
    let kind = match &node.body {
        yaml_node_body_t::Sequence { .. } => yaml_event_type_t::YAML_SEQUENCE_START_EVENT,
        yaml_node_body_t::Mapping { .. } => yaml_event_type_t::YAML_MAPPING_START_EVENT,
        _ => yaml_event_type_t::YAML_SCALAR_EVENT,
    };
    Met {
        start: node.start_mark,
        end: node.end_mark,
        kind,
    }
}

// A node of a document by its number; of 0 the document.
fn met_by(document: &yaml_document_t, id: i32) -> Met {
    match yaml_document_get_node(document, id) {
        Some(node) => met_node(node),
        None => Met {
            start: document.start_mark(),
            end: document.start_mark(),
            kind: yaml_event_type_t::YAML_DOCUMENT_START_EVENT,
        },
    }
}

// A pair, which is shown as it is spelled: from its key on, to the end of its value, unless that is an alias.
fn met_pair(document: &yaml_document_t, key: i32, value: i32) -> Met {
    let (key, value) = (met_by(document, key), met_by(document, value));
    let end = if value.start.index < key.end.index {
        key.end
    } else {
        value.end
    };
    Met {
        start: key.start,
        end,
        kind: yaml_event_type_t::YAML_SCALAR_EVENT,
    }
}

// What a node holds at a place.
fn met_held(document: &yaml_document_t, holder: i32, place: usize) -> Met {
    match body_of(document, holder) {
        Some(yaml_node_body_t::Mapping { pairs, .. }) => match pairs.get(place) {
            Some(pair) => met_pair(document, pair.key, pair.value),
            None => met_by(document, holder),
        },
        Some(yaml_node_body_t::Sequence { items, .. }) => {
            met_by(document, items.get(place).copied().unwrap_or(holder))
        }
        _ => met_by(document, holder),
    }
}

// What a node doesn't hold: nothing, before its end.
fn met_end(document: &yaml_document_t, holder: i32) -> Met {
    let Met { mut end, kind, .. } = met_by(document, holder);
    end.index = end.index.saturating_sub(1);
    Met {
        start: end,
        end,
        kind,
    }
}

// What one of two documents has at a difference; that cause says that it alone has something.
fn met_in(
    document: Option<&yaml_document_t>,
    id: i32,
    told: yaml_node_difference_t,
    alone: yaml_node_cause_t,
) -> Met {
    match (document, told.cause) {
        (None, _) => Met {
            start: NOWHERE,
            end: NOWHERE,
            kind: yaml_event_type_t::YAML_NO_EVENT,
        },
        (Some(document), cause) if cause == alone => met_held(document, id, told.place),
        (Some(document), yaml_node_cause_t::OnlyFirst | yaml_node_cause_t::OnlySecond) => {
            met_end(document, id)
        }
        (Some(document), _) => met_by(document, id),
    }
}

// The path to a difference.
fn path_to(
    alloc: Global,
    told: yaml_document_difference_t,
    documents: &yaml_differences_t,
) -> Result<String, AllocError> {
    let yaml_document_difference_t {
        document: at,
        difference: node,
    } = told;
    let mut path = String::new(alloc);
    push_step(&mut path, Step::Item(at as u64))?;
    if let (Some(pairs), Some(first), Some(second)) = (
        documents.pairs.get(at),
        documents.first.get(at),
        documents.second.get(at),
    ) {
        push_way(alloc, &mut path, first, pairs, node.pair)?;
        match node.cause {
            yaml_node_cause_t::OnlyFirst => push_held(&mut path, first, node.first, node.place)?,
            yaml_node_cause_t::OnlySecond => push_held(&mut path, second, node.second, node.place)?,
            _ => {}
        }
    }
    Ok(path)
}

// A difference, as it is shown.
fn shown(
    alloc: Global,
    told: yaml_document_difference_t,
    documents: &yaml_differences_t,
) -> Result<Difference, AllocError>
    ensures { IfOk result (λ d. d.cause ≡ cause_of told) }
{
    let node = told.difference;
    let first = documents.first.get(told.document);
    let second = documents.second.get(told.document);
    let path = path_to(alloc, told, documents)?;
    Ok(Difference {
        path: Some(path),
        cause: node_cause_of(node.cause),
        first: met_in(first, node.first, node, yaml_node_cause_t::OnlyFirst),
        second: met_in(second, node.second, node, yaml_node_cause_t::OnlySecond),
    })
}

// In what the documents differ, as it is shown.
#[tactic(auto, using(crate::proofs::Listed::listed_next, crate::proofs::Listed::all_listed))]
fn shown_told(
    alloc: Global,
    told: &[yaml_document_difference_t],
    documents: &yaml_differences_t,
) -> Result<Vec<Difference>, AllocError>
    ensures { IfOk result (λ shown. map shown_cause shown.items ≡ map cause_of told.now) }
{
    let mut list = Vec::new(alloc);
    for place in 0..told.len() {
        let difference = shown(alloc, told[place], documents)?;
        list.push(difference)?;
    }
    Ok(list)
}

// The place where contents part, as it is shown.
#[tactic(auto, using(crate::proofs::Listed::one_shown))]
fn shown_place(alloc: Global, place: &yaml_difference_t) -> Result<Vec<Difference>, AllocError>
    ensures { IfOk result (λ shown. AreShown [] (Some place.now) shown.items) }
{
    let mut list = Vec::new(alloc);
    list.push(difference_of(alloc, place))?;
    Ok(list)
}

// The same of one that there may be.
fn shown_content(
    alloc: Global,
    content: &Option<yaml_difference_t>,
) -> Result<Vec<Difference>, AllocError>
    ensures { IfOk result (λ shown. AreShown [] content.now shown.items) }
{
    match content {
        None => Ok(Vec::new(alloc)),
        Some(place) => shown_place(alloc, place),
    }
}

/// All places where two inputs differ, as they are shown: those of the documents; where these are equal, that of the contents.
#[tactic(auto, using(crate::proofs::Listed::some_shown, crate::proofs::Listed::none_shown))]
pub(crate) fn shown_differences(
    alloc: Global,
    differences: &yaml_differences_t,
) -> Result<Vec<Difference>, AllocError>
    ensures { IfOk result (λ shown. AreShown differences.now.told.items differences.now.content
        shown.items) }
{
    if differences.told.is_empty() {
        shown_content(alloc, &differences.content)
    } else {
        shown_told(alloc, &differences.told, differences)
    }
}
