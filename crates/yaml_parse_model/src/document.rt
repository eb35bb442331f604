//! Documents: making one, and its readers.

ghost use Rattle.std.specs.Prelude.{◌≡◌, ◌≤ℤ◌, length, map, option_map, pos, suc};
ghost use Rattle.yaml_parse_model.specs.Constructors.{AreUtf8};
ghost use Rattle.yaml_parse_model.specs.Events.{directive_of};
ghost use Rattle.yaml_parse_model.specs.Nodes.{node_of};
ghost use Rattle.yaml_parse_model.specs.Documents.{no_document, node_at, IsSoundAt, IsNewDocument, new_document};

mod adding;
mod parts;

use crate::{
    ZERO_MARK, are_utf8, copy_directives, yaml_mark_t, yaml_node_t, yaml_tag_directive_t,
    yaml_text_fault_t, yaml_version_directive_t,
};
pub use adding::{
    MAX_ENTRIES, push_entry, yaml_document_add_mapping, yaml_document_add_scalar,
    yaml_document_add_sequence, yaml_document_append_mapping_pair,
    yaml_document_append_sequence_item,
};
pub use parts::{DocumentParts, document_is_sound};
use std::alloc::Global;
use std::marker::Model;

/// A document: its directives, and its nodes, which name each other by their numbers. The numbers count from 1, and
/// the first node is the root. Its texts are UTF-8, its numbers name its nodes, and none of its lists (its nodes, the
/// items of a sequence, the pairs of a mapping) has more than 2,147,483,647 entries.
///
/// A document keeps its allocator, so calls on it take none.
#[derive(Drop)]
pub struct yaml_document_t {
    parts: DocumentParts,
}

impl Model for yaml_document_t {
    ghost use Rattle.yaml_parse_model.specs.Documents.{Document};

    ghost Value = { Document };

    ghost use Rattle.yaml_parse_model.specs.Views.{document_view, IsDocumentInside};

    ghost view = { document_view };

    ghost invariant = { IsDocumentInside };
}

impl yaml_document_t {
    /// The version that a `%YAML` directive names, if there is one.
    pub fn version_directive(&self) -> Option<yaml_version_directive_t>
        ensures { result ≡ self.now.version }
    {
        self.parts.version_directive
    }

    /// The `%TAG` directives, in order. Their texts are UTF-8.
    pub fn tag_directives(&self) -> &[yaml_tag_directive_t]
        ensures is { map directive_of result.now ≡ self.now.directives }
        ensures utf8 { AreUtf8 self.now.directives }
    {
        &self.parts.tag_directives
    }

    /// It begins without `---`.
    pub fn start_implicit(&self) -> bool
        ensures { result ≡ self.now.start_implicit }
    {
        self.parts.start_implicit
    }

    /// It ends without `...`.
    pub fn end_implicit(&self) -> bool
        ensures { result ≡ self.now.end_implicit }
    {
        self.parts.end_implicit
    }

    /// Where the document begins.
    pub fn start_mark(&self) -> yaml_mark_t
        ensures { result ≡ self.now.start_mark }
    {
        self.parts.start_mark
    }

    /// Where the document ends.
    pub fn end_mark(&self) -> yaml_mark_t
        ensures { result ≡ self.now.end_mark }
    {
        self.parts.end_mark
    }

    /// How many nodes the document has: their numbers are those from 1 to that.
    pub fn node_count(&self) -> usize
        ensures { result ≡ length self.now.nodes }
    {
        self.parts.nodes.len()
    }
}

/// A document without nodes, with copies of the directives and zero marks. Where a text isn't UTF-8 the answer is
/// `NotUtf8`, which is looked at before any growth.
pub fn yaml_document_initialize(
    alloc: Global,
    version_directive: Option<yaml_version_directive_t>,
    tag_directives: &[yaml_tag_directive_t],
    start_implicit: bool,
    end_implicit: bool,
) -> Result<yaml_document_t, yaml_text_fault_t>
    ensures { IsNewDocument (new_document version_directive (map directive_of tag_directives.now)
        start_implicit end_implicit) result }
{
    if !are_utf8(tag_directives) {
        return Err(yaml_text_fault_t::NotUtf8);
    }
    let tag_directives = copy_directives(alloc, tag_directives)?;
    Ok(yaml_document_t {
        parts: DocumentParts {
            version_directive,
            tag_directives,
            start_implicit,
            end_implicit,
            start_mark: ZERO_MARK,
            end_mark: ZERO_MARK,
            nodes: Vec::new(alloc),
            alloc,
        },
    })
}

/// The document that marks the end of a stream: no root, no version, no directives, false flags, zero marks.
pub fn no_document(alloc: Global) -> yaml_document_t
    ensures { result ≡ no_document }
{
    yaml_document_t {
        parts: DocumentParts::none(alloc),
    }
}

/// Drops the document.
pub fn yaml_document_delete(document: yaml_document_t) {
    drop(document);
}

/// Sets what `end_implicit` reads, and nothing else.
pub fn yaml_document_set_end_implicit(document: &mut yaml_document_t, end_implicit: bool)
    ensures { document.new ≡ record document.old { end_implicit = end_implicit } }
{
    document.parts.end_implicit = end_implicit;
}

// The place in the list of nodes of the node under a number.
fn node_place(number: i32) -> usize
    requires { pos 1 ≤ℤ number }
    ensures { number ≡ pos (suc result) }
{
    (number - 1) as usize
}

/// The node under a number; numbers count from 1. Its texts are UTF-8, and what it holds are numbers of nodes.
pub fn yaml_document_get_node(document: &yaml_document_t, index: i32) -> Option<&yaml_node_t>
    ensures is { option_map (λ n. node_of n.now) result ≡ node_at document.now.nodes index }
    ensures sound { IsSoundAt (length document.now.nodes) (node_at document.now.nodes index) }
{
    if index < 1 {
        return None;
    }
    document.parts.nodes.get(node_place(index))
}

/// The root, if the document has one: its first node.
pub fn yaml_document_get_root_node(document: &yaml_document_t) -> Option<&yaml_node_t>
    ensures { option_map (λ n. node_of n.now) result ≡ node_at document.now.nodes (pos 1) }
{
    yaml_document_get_node(document, 1)
}
