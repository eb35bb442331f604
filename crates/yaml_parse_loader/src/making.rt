//! A document in the making, and what an event makes of it.

ghost use Rattle.std.specs.Prelude.{◌≡◌, [], length, map, option_map, None, IfOk, OnOk};
ghost use Rattle.std.specs.FinMap as finite;
ghost use Rattle.yaml_parse_model.specs.declared.yaml_mark_t.{yaml_mark_t};
ghost use Rattle.yaml_parse_model.specs.Events.{borrowed_body, directive_of};
ghost use Rattle.yaml_parse_model.specs.Nodes.{node_of, tag_of};
ghost use Rattle.yaml_parse_model.specs.Nodes as node;
ghost use Rattle.yaml_parse_model.specs.Documents.{IsDocument, map_tag, seq_tag, str_tag};
ghost use Rattle.yaml_parse_model.specs.Sizes.{IsSized};
ghost use Rattle.yaml_parse_loader.specs.Loading.{open_sequence, open_mapping, attach, attached, nothing_loaded, named, enter_leaf, enter_open, aliased, closed, place_of, filled, goes_on, started, step_body};
ghost use Rattle.yaml_parse_loader.specs.Numbering.{loaded_tag};
ghost use Rattle.yaml_parse_loader.specs.Sizes.{HasRoom, HaveRoom, HasRoomForNode, HasRoomFor};
ghost use Rattle.yaml_parse_loader.specs.declared.making.Fed.TheVariants as fed;
ghost use Rattle.yaml_parse_loader.specs.Views.{level_of, levels_of, loading_of, node_with, taken_by, Applies};

use crate::anchors::AnchorTable;
use std::alloc::Global;
use std::mem;
use yaml_parse_model::{
    DocumentParts, EventRef, copy_directives, push_entry, yaml_document_t, yaml_mapping_style_t,
    yaml_mark_t, yaml_node_body_t, yaml_node_pair_t, yaml_node_t, yaml_node_tag_t,
    yaml_node_text_t, yaml_scalar_style_t, yaml_sequence_style_t, yaml_tag_directive_t,
    yaml_text_fault_t, yaml_version_directive_t,
};

/// An open collection: the place of its node, and what it holds so far. A mapping may have a key without its value.
#[derive(Drop)]
pub enum Level {
    Sequence {
        place: usize,
        items: Vec<i32>,
    },
    Mapping {
        place: usize,
        pairs: Vec<yaml_node_pair_t>,
        key: Option<i32>,
    },
}

/// The document so far, in which open collections are empty yet; the open collections, the innermost last; the
/// anchors.
#[derive(Drop)]
pub struct Making {
    pub parts: DocumentParts,
    pub levels: Vec<Level>,
    pub anchors: AnchorTable,
}

// No tag and the tag `!` become the default tag.
fn tag_or_default(
    alloc: Global,
    tag: Option<&[u8]>,
    default: yaml_node_tag_t,
) -> Result<yaml_node_tag_t, yaml_text_fault_t>
    ensures { IfOk result (λ t. tag_of t ≡ loaded_tag (option_map (λ t. t.now) tag.entry)
        (tag_of default)) }
{
    match tag {
        Some(text) if text != b"!".as_slice() => match Vec::from_slice(alloc, text) {
            Ok(text) => Ok(yaml_node_tag_t::Spelled { text }),
            Err(_) => Err(yaml_text_fault_t::Memory),
        },
        _ => Ok(default),
    }
}

// From now on a node is what a name names.
fn register(
    alloc: Global,
    anchors: &mut AnchorTable,
    name: &[u8],
    number: i32,
) -> Result<(), yaml_text_fault_t>
    ensures { OnOk result (anchors.new ≡ finite.insert anchors.old name.now number) }
{
    let Ok(name) = Vec::from_slice(alloc, name) else {
        return Err(yaml_text_fault_t::Memory);
    };
    match anchors.insert(name, number) {
        Ok(()) => Ok(()),
        Err(_) => Err(yaml_text_fault_t::Memory),
    }
}

// A node's number becomes the next item, key or value of a collection.
fn attach_to(level: &mut Level, number: i32) -> Result<(), yaml_text_fault_t>
    ensures { OnOk result ((level_of level.new ≡ attached number (level_of level.old))
        × HasRoom (level_of level.old)) }
{
    match level {
        Level::Sequence { items, .. } => push_entry(items, number),
        Level::Mapping { pairs, key, .. } => match *key {
            None => {
                *key = Some(number);
                Ok(())
            }
            Some(first) => {
                *key = None;
                let pair = yaml_node_pair_t {
                    key: first,
                    value: number,
                };
                push_entry(pairs, pair)
            }
        },
    }
}

// A node's number becomes the next item, key or value of the innermost open collection.
fn attach(levels: &mut Vec<Level>, number: i32) -> Result<(), yaml_text_fault_t>
    ensures { OnOk result ((levels_of levels.new.items ≡ attach number (levels_of levels.old.items))
        × HaveRoom (levels_of levels.old.items)) }
{
    match levels.last_mut() {
        None => Ok(()),
        Some(level) => attach_to(level, number),
    }
}

// What a collection holds, and its end.
fn fill_collection(node: &mut yaml_node_t, level: Level, end_mark: yaml_mark_t)
    ensures { node_of node.new ≡ filled (level_of level) end_mark (node_of node.old) }
{
    node.end_mark = end_mark;
    match level {
        Level::Sequence { items, .. } => {
            if let yaml_node_body_t::Sequence { items: held, .. } = &mut node.body {
                *held = items;
            }
        }
        Level::Mapping { pairs, .. } => {
            if let yaml_node_body_t::Mapping { pairs: held, .. } = &mut node.body {
                *held = pairs;
            }
        }
    }
}

impl Level {
    // The place of its node.
    fn place(&self) -> usize
        ensures { result ≡ place_of (level_of self.now) }
    {
        match self {
            Level::Sequence { place, .. } | Level::Mapping { place, .. } => *place,
        }
    }
}

/// What an event came to.
#[derive(Clone, Copy)]
pub enum Fed {
    /// It was taken.
    Taken,
    /// It was taken, and the document is whole.
    Whole,
    /// It is an alias that no node before it anchors.
    Undefined,
    /// A growth was refused.
    Starved,
}

// What a step came to that only out of memory refuses.
fn fed_of(step: Result<(), yaml_text_fault_t>) -> Fed
    ensures { result ≡ taken_by step }
{
    match step {
        Ok(()) => Fed::Taken,
        Err(_) => Fed::Starved,
    }
}

impl Making {
    /// Nothing is loaded yet.
    pub fn new(alloc: Global) -> Making
        ensures { loading_of result ≡ nothing_loaded }
    {
        Making {
            parts: DocumentParts::none(alloc),
            levels: Vec::new(alloc),
            anchors: AnchorTable::new(alloc),
        }
    }

    /// What was loaded is dropped.
    pub fn begin_anew(&mut self)
        ensures { loading_of self.new ≡ nothing_loaded }
    {
        *self = Making::new(self.parts.alloc);
    }

    /// The document. It starts anew.
    pub fn take_document(&mut self) -> yaml_document_t
        requires sound { IsDocument (loading_of self.old).document }
        requires sized { IsSized (loading_of self.old).document }
        ensures document { result ≡ (loading_of self.old).document }
        ensures anew { loading_of self.new ≡ nothing_loaded }
    {
        let alloc = self.parts.alloc;
        let whole = mem::replace(self, Making::new(alloc));
        whole.parts.into_document()
    }

    // An alias stands for the last node that has its anchor.
    #[tactic(auto, using(crate::proofs::Steps::takes_alias))]
    fn alias(&mut self, name: &[u8]) -> Fed
        ensures { (at : yaml_mark_t) → Applies (aliased (finite.get (loading_of self.old).anchors
            name.now) at (loading_of self.old)) at (HaveRoom (loading_of self.old).levels) result
            (loading_of self.new) }
    {
        match self.anchors.get(name) {
            None => Fed::Undefined,
            Some(number) => fed_of(attach(&mut self.levels, number)),
        }
    }

    // One node more: its anchor is noted, and the collection around it gets its number.
    // Inlined: the node is built in its place.
    #[inline(always)]
    fn add(&mut self, anchor: Option<&[u8]>, node: yaml_node_t) -> Result<(), yaml_text_fault_t>
        ensures { OnOk result ((loading_of self.new ≡ enter_leaf (loading_of self.old)
            (option_map (λ t. t.now) anchor.entry) (node_of node))
            × HasRoomForNode (loading_of self.old)) }
    {
        push_entry(&mut self.parts.nodes, node)?;
        let number = self.parts.nodes.len() as i32;
        attach(&mut self.levels, number)?;
        match anchor {
            None => Ok(()),
            Some(name) => register(self.parts.alloc, &mut self.anchors, name, number),
        }
    }

    // One node more, which is open.
    // Inlined: as the node.
    #[inline(always)]
    fn open(
        &mut self,
        anchor: Option<&[u8]>,
        node: yaml_node_t,
        level: Level,
    ) -> Result<(), yaml_text_fault_t>
        ensures { OnOk result ((loading_of self.new ≡ enter_open (loading_of self.old)
            (option_map (λ t. t.now) anchor.entry) (node_of node) (level_of level))
            × HasRoomForNode (loading_of self.old)) }
    {
        self.add(anchor, node)?;
        match self.levels.push(level) {
            Ok(()) => Ok(()),
            Err(_) => Err(yaml_text_fault_t::Memory),
        }
    }

    // The innermost open collection gets what it holds, and its end.
    fn close(&mut self, end_mark: yaml_mark_t)
        ensures { loading_of self.new ≡ closed end_mark (loading_of self.old)
            (loading_of self.old).levels }
    {
        let Some(level) = self.levels.pop() else {
            return;
        };
        let place = level.place();
        if place < self.parts.nodes.len() {
            fill_collection(&mut self.parts.nodes[place], level, end_mark);
        }
    }

    // A document begins. What was loaded before is dropped.
    fn begin_document(
        &mut self,
        version_directive: Option<yaml_version_directive_t>,
        tag_directives: &[yaml_tag_directive_t],
        implicit: bool,
        start_mark: yaml_mark_t,
    ) -> Result<(), yaml_text_fault_t>
        ensures { OnOk result (loading_of self.new ≡ started version_directive
            (map directive_of tag_directives.now) implicit start_mark) }
    {
        self.begin_anew();
        let Ok(directives) = copy_directives(self.parts.alloc, tag_directives) else {
            return Err(yaml_text_fault_t::Memory);
        };
        self.parts.version_directive = version_directive;
        self.parts.tag_directives = directives;
        self.parts.start_implicit = implicit;
        self.parts.start_mark = start_mark;
        Ok(())
    }

    // A scalar.
    fn scalar(
        &mut self,
        anchor: Option<&[u8]>,
        tag: Option<&[u8]>,
        value: &[u8],
        style: yaml_scalar_style_t,
        marks: (yaml_mark_t, yaml_mark_t),
    ) -> Result<(), yaml_text_fault_t>
        ensures { OnOk result ((loading_of self.new ≡ enter_leaf (loading_of self.old)
            (option_map (λ t. t.now) anchor.entry)
            (node_with (loaded_tag (option_map (λ t. t.now) tag.entry) str_tag)
            (node.scalar value.now style) marks.0 marks.1))
            × HasRoomForNode (loading_of self.old)) }
    {
        let alloc = self.parts.alloc;
        let tag = tag_or_default(alloc, tag, yaml_node_tag_t::Str)?;
        let value = yaml_node_text_t::copied(alloc, value)?;
        let node = yaml_node_t {
            body: yaml_node_body_t::Scalar { value, style },
            tag,
            start_mark: marks.0,
            end_mark: marks.1,
        };
        self.add(anchor, node)
    }

    // A sequence begins, with its node, which is empty yet.
    fn sequence(
        &mut self,
        anchor: Option<&[u8]>,
        tag: Option<&[u8]>,
        style: yaml_sequence_style_t,
        marks: (yaml_mark_t, yaml_mark_t),
    ) -> Result<(), yaml_text_fault_t>
        ensures { OnOk result ((loading_of self.new ≡ enter_open (loading_of self.old)
            (option_map (λ t. t.now) anchor.entry)
            (node_with (loaded_tag (option_map (λ t. t.now) tag.entry) seq_tag)
            (node.sequence [] style) marks.0 marks.1)
            (open_sequence (length (loading_of self.old).document.nodes) []))
            × HasRoomForNode (loading_of self.old)) }
    {
        let alloc = self.parts.alloc;
        let place = self.parts.nodes.len();
        let tag = tag_or_default(alloc, tag, yaml_node_tag_t::Seq)?;
        let items = Vec::new(alloc);
        let node = yaml_node_t {
            body: yaml_node_body_t::Sequence { items, style },
            tag,
            start_mark: marks.0,
            end_mark: marks.1,
        };
        let items = Vec::new(alloc);
        self.open(anchor, node, Level::Sequence { place, items })
    }

    // A mapping begins, with its node, which is empty yet.
    fn mapping(
        &mut self,
        anchor: Option<&[u8]>,
        tag: Option<&[u8]>,
        style: yaml_mapping_style_t,
        marks: (yaml_mark_t, yaml_mark_t),
    ) -> Result<(), yaml_text_fault_t>
        ensures { OnOk result ((loading_of self.new ≡ enter_open (loading_of self.old)
            (option_map (λ t. t.now) anchor.entry)
            (node_with (loaded_tag (option_map (λ t. t.now) tag.entry) map_tag)
            (node.mapping [] style) marks.0 marks.1)
            (open_mapping (length (loading_of self.old).document.nodes) [] None))
            × HasRoomForNode (loading_of self.old)) }
    {
        let alloc = self.parts.alloc;
        let place = self.parts.nodes.len();
        let tag = tag_or_default(alloc, tag, yaml_node_tag_t::Map)?;
        let pairs = Vec::new(alloc);
        let node = yaml_node_t {
            body: yaml_node_body_t::Mapping { pairs, style },
            tag,
            start_mark: marks.0,
            end_mark: marks.1,
        };
        let pairs = Vec::new(alloc);
        let key = None;
        self.open(anchor, node, Level::Mapping { place, pairs, key })
    }

    /// What the event between these marks makes of the document. Its texts are copied.
    pub fn apply(&mut self, event: EventRef<'_>, marks: (yaml_mark_t, yaml_mark_t)) -> Fed
        ensures { Applies (step_body (borrowed_body event.entry) marks.0 marks.1
            (loading_of self.old)) marks.0
            (HasRoomFor (borrowed_body event.entry) (loading_of self.old)) result
            (loading_of self.new) }
    {
        match event {
            EventRef::DocumentStart {
                version_directive,
                tag_directives,
                implicit,
            } => fed_of(self.begin_document(version_directive, tag_directives, implicit, marks.0)),
            EventRef::DocumentEnd { implicit } => {
                self.parts.end_implicit = implicit;
                self.parts.end_mark = marks.1;
                Fed::Whole
            }
            EventRef::Alias { anchor } => self.alias(anchor),
            EventRef::Scalar {
                anchor,
                tag,
                value,
                style,
                ..
            } => fed_of(self.scalar(anchor, tag, value, style, marks)),
            EventRef::SequenceStart {
                anchor,
                tag,
                style,
                ..
            } => fed_of(self.sequence(anchor, tag, style, marks)),
            EventRef::MappingStart {
                anchor,
                tag,
                style,
                ..
            } => fed_of(self.mapping(anchor, tag, style, marks)),
            EventRef::SequenceEnd | EventRef::MappingEnd => {
                self.close(marks.1);
                Fed::Taken
            }
            EventRef::No | EventRef::StreamStart { .. } | EventRef::StreamEnd => Fed::Taken,
        }
    }
}
