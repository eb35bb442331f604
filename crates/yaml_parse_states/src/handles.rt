//! The tag directives of a document.

ghost use Rattle.std.specs.Prelude.{◌≡◌, ◌∷◌, ◌++◌, [], true, None, map, option_map, OnOk};
ghost use Rattle.yaml_parse_model.specs.Events.{directive_of};
ghost use Rattle.yaml_parse_grammar.specs.Resolve.{directive_for};

use std::alloc::{AllocError, Global};
use std::collections::BTreeMap;
use std::marker::Model;
use yaml_parse_model::yaml_tag_directive_t;

/// The tag directives of a document, in their order. Each is found by its handle.
#[derive(Drop)]
pub(crate) struct TagDirectives {
    list: Vec<yaml_tag_directive_t>,
    // The prefix of each handle.
    prefixes: BTreeMap<Vec<u8>, Vec<u8>>,
}

impl Model for TagDirectives {
    ghost use Rattle.std.specs.Prelude.{List};
    ghost use Rattle.yaml_parse_model.specs.Events.{TagDirective};

    ghost Value = { List TagDirective };

    ghost use Rattle.yaml_parse_states.specs.TagView.{tags_view, IsIndexed};

    ghost view = { tags_view };

    ghost invariant = { IsIndexed };
}

impl TagDirectives {
    /// No directives.
    pub(crate) fn new(alloc: Global) -> TagDirectives
        ensures { result ≡ [] }
    {
        TagDirectives {
            list: Vec::new(alloc),
            prefixes: BTreeMap::new(alloc),
        }
    }

    /// The prefix that a directive gives the handle.
    pub(crate) fn prefix_of(&self, handle: &[u8]) -> Option<&[u8]>
        ensures { option_map (λ t. t.now) result ≡ directive_for handle.now self.now }
    {
        match self.prefixes.get(handle) {
            Some(prefix) => Some(prefix.as_slice()),
            None => None,
        }
    }

    /// All of them.
    pub(crate) fn as_slice(&self) -> &[yaml_tag_directive_t]
        ensures { map directive_of result.now ≡ self.now }
    {
        self.list.as_slice()
    }

    /// Another directive, whose handle is a new one.
    pub(crate) fn push(
        &mut self,
        alloc: Global,
        handle: Vec<u8>,
        prefix: Vec<u8>,
    ) -> Result<(), AllocError>
        requires { directive_for handle.items self.old ≡ None }
        ensures { OnOk result (self.new ≡ self.old
            ++ record { handle = handle.items; prefix = prefix.items } ∷ []) }
    {
        // The index keeps texts of its own.
        let name = Vec::from_slice(alloc, handle.as_slice())?;
        let text = Vec::from_slice(alloc, prefix.as_slice())?;
        self.list.push(yaml_tag_directive_t { handle, prefix })?;
        match self.prefixes.insert(name, text) {
            Ok(_) => Ok(()),
            Err(_) => {
                self.list.pop();
                Err(AllocError)
            }
        }
    }

    /// None is left.
    pub(crate) fn clear(&mut self)
        ensures { self.new ≡ [] }
    {
        self.list.clear();
        self.prefixes.clear();
    }
}
