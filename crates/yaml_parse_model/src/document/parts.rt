//! The parts of a document that the loader is filling.

ghost use Rattle.std.specs.Prelude.{◌≡◌};
ghost use Rattle.yaml_parse_model.specs.Documents.{IsDocument, no_document};
ghost use Rattle.yaml_parse_model.specs.Sizes.{IsSized};

use super::yaml_document_t;
use crate::{ZERO_MARK, yaml_mark_t, yaml_node_t, yaml_tag_directive_t, yaml_version_directive_t};
use std::alloc::Global;

/// The parts of a document, which need not fit together yet.
#[derive(Drop)]
pub struct DocumentParts {
    pub version_directive: Option<yaml_version_directive_t>,
    pub tag_directives: Vec<yaml_tag_directive_t>,
    pub start_implicit: bool,
    pub end_implicit: bool,
    pub start_mark: yaml_mark_t,
    pub end_mark: yaml_mark_t,
    pub nodes: Vec<yaml_node_t>,
    pub alloc: Global,
}

impl DocumentParts {
    ghost use Rattle.yaml_parse_model.specs.Parts.{parts_view};

    /// No directives, no nodes, false flags, zero marks.
    pub fn none(alloc: Global) -> DocumentParts
        ensures { parts_view result ≡ no_document }
    {
        DocumentParts {
            version_directive: None,
            tag_directives: Vec::new(alloc),
            start_implicit: false,
            end_implicit: false,
            start_mark: ZERO_MARK,
            end_mark: ZERO_MARK,
            nodes: Vec::new(alloc),
            alloc,
        }
    }

    /// The document of these parts.
    pub fn into_document(self) -> yaml_document_t
        requires sound { IsDocument (parts_view self) }
        requires sized { IsSized (parts_view self) }
        ensures { result ≡ parts_view self }
    {
        yaml_document_t { parts: self }
    }
}

/// A law: the texts of each document are UTF-8, its numbers name its nodes, and none of its lists (its nodes, the items of
/// a sequence, the pairs of a mapping) has more than 2,147,483,647 entries.
pub fn document_is_sound(document: &yaml_document_t)
    ensures sound { IsDocument document.now }
    ensures sized { IsSized document.now }
{
    // Read for the clause: it sees the invariant of a value that is read.
    let _ = &document.parts;
}
