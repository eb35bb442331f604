//! The tag directives of a document.
ghost use Rattle.std.specs.Prelude.{◌≡◌, ◌<◌, ◌∷◌, [], Some, None, true, map, length, option_map, IfOk, IfSome};
ghost use Rattle.yaml_scan_types.specs.Ascii as ascii;
ghost use Rattle.yaml_parse_model.specs.Events.{directive_of};
ghost use Rattle.yaml_emit_core.specs.Prefixes.{IsNumber};
ghost use Rattle.yaml_emit_core.specs.TableView.{IsIndexed};
ghost use Rattle.yaml_emit_layout.specs.Tags.{defines, directive_for};

use crate::prefixes::{first_among, has_shorter_prefix, index_of};
use std::alloc::{AllocError, Global};
use std::marker::Model;
use yaml_scan_model::yaml_tag_directive_t;

// That many directives, or fewer, have no index: a walk over them is as fast, and takes no memory.
const FEW: usize = 32;

/// The tag directives of a document, in their order. Each is found by its prefix.
#[derive(Drop)]
pub struct DirectiveTable {
    list: Vec<yaml_tag_directive_t>,
    // The prefixes by their bytes, where there are more than a few.
    sorted: Option<Vec<(Vec<u8>, usize)>>,
    // Whether a directive defines `!`.
    primary: bool,
    // Whether a directive defines `!!`.
    secondary: bool,
}

impl Model for DirectiveTable {
    ghost use Rattle.std.specs.Prelude.{List};
    ghost use Rattle.yaml_parse_model.specs.Events.{TagDirective};

    ghost Value = { List TagDirective };

    ghost use Rattle.yaml_emit_core.specs.TableView.{table_view, IsTable};

    ghost view = { table_view };

    ghost invariant = { IsTable };
}

#[tactic(auto, using(crate::proofs::TableLemmas::defines_none))]
fn defines(directives: &[yaml_tag_directive_t], handle: &[u8]) -> bool
    ensures { result ≡ defines (map directive_of directives.now) handle.now }
{
    for directive in directives {
        if directive.handle.as_slice() == handle {
            return true;
        }
    }
    false
}

// The number of the first directive by which the tag can be written, found one by one.
#[tactic(auto, using(crate::proofs::Directing::walk_more, crate::proofs::Directing::walk_none))]
fn walked(directives: &[yaml_tag_directive_t], tag: &[u8]) -> Option<usize>
    ensures { IsNumber (map directive_of directives.now) tag.now result }
{
    for i in 0..directives.len() {
        if has_shorter_prefix(&directives[i].prefix, tag) {
            return Some(i);
        }
    }
    None
}

fn indexed(
    alloc: Global,
    directives: &[yaml_tag_directive_t],
) -> Result<Option<Vec<(Vec<u8>, usize)>>, AllocError>
    ensures { IfOk result (IsIndexed (map directive_of directives.now)) }
{
    if directives.len() <= FEW {
        Ok(None)
    } else {
        Ok(Some(index_of(alloc, directives)?))
    }
}

// The number of the first directive by which the tag can be written.
#[tactic(auto, using(crate::proofs::Directing::number_indexed))]
fn first_usable(
    directives: &[yaml_tag_directive_t],
    sorted: &Option<Vec<(Vec<u8>, usize)>>,
    tag: &[u8],
) -> Option<usize>
    requires { IsIndexed (map directive_of directives.now) sorted.now }
    ensures { IsNumber (map directive_of directives.now) tag.now result }
{
    match sorted {
        None => walked(directives, tag),
        Some(sorted) => first_among(sorted, tag),
    }
}

impl DirectiveTable {
    /// No directives.
    #[tactic(auto, using(crate::proofs::Directing::none_defined))]
    pub fn new(alloc: Global) -> DirectiveTable
        ensures { result ≡ [] }
    {
        DirectiveTable {
            list: Vec::new(alloc),
            sorted: None,
            primary: false,
            secondary: false,
        }
    }

    /// The directives in this order; refused only when out of memory.
    pub fn of(list: Vec<yaml_tag_directive_t>) -> Result<DirectiveTable, AllocError>
        ensures { IfOk result (λ t. t ≡ map directive_of list.items) }
    {
        let sorted = indexed(*list.allocator(), &list)?;
        let primary = defines(&list, b"!");
        let secondary = defines(&list, b"!!");
        Ok(DirectiveTable {
            list,
            sorted,
            primary,
            secondary,
        })
    }

    /// The allocator.
    pub fn allocator(&self) -> Global {
        *self.list.allocator()
    }

    /// The directives, in their order.
    pub fn list(&self) -> &[yaml_tag_directive_t]
        ensures { map directive_of result.now ≡ self.now }
    {
        &self.list
    }

    /// None is left.
    #[tactic(auto, using(crate::proofs::Directing::none_defined))]
    pub fn clear(&mut self)
        ensures { self.new ≡ [] }
    {
        self.list.clear();
        self.sorted = None;
        self.primary = false;
        self.secondary = false;
    }

    /// Whether one defines `!`.
    pub(crate) fn defines_primary(&self) -> bool
        ensures { result ≡ defines self.now (ascii.exclamation ∷ []) }
    {
        self.primary
    }

    /// Whether one defines `!!`.
    pub(crate) fn defines_secondary(&self) -> bool
        ensures { result ≡ defines self.now (ascii.exclamation ∷ ascii.exclamation ∷ []) }
    {
        self.secondary
    }

    /// The first whose prefix is a strictly shorter prefix of the tag.
    pub(crate) fn first_for(&self, tag: &[u8]) -> Option<&yaml_tag_directive_t>
        ensures value { option_map (λ d. directive_of d.now) result ≡ directive_for self.now
            tag.now }
        ensures inside { IfSome result (λ d. length d.now.prefix.items < length tag.now) }
    {
        match first_usable(&self.list, &self.sorted, tag) {
            None => None,
            Some(number) => Some(&self.list[number]),
        }
    }
}
