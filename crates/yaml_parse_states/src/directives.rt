//! The directives of a document, and the tags that they resolve.

ghost use Rattle.std.specs.Prelude.{◌≡◌, false, None, option_map, OnOk};
ghost use Rattle.yaml_parse_model.specs.Source.{front_of};
ghost use Rattle.yaml_parse_grammar.specs.Resolve.{default_prefix, directive_for, no_directives, with_tag, with_version};
ghost use Rattle.yaml_scan_model.specs.Shows.{IsNext};
ghost use Rattle.yaml_scan_model.specs.declared.kind.Kind.TheVariants as token;
ghost use Rattle.yaml_parse_states.specs.Documents.{Notes, Settles, with_directive};
ghost use Rattle.yaml_parse_states.specs.Nodes.{prefix_for};
ghost use Rattle.yaml_parse_states.specs.Utf8.{IsUtf8Kept, IsUtf8Noted};
ghost use Rattle.yaml_parse_states.specs.Views.{directives_of};

use crate::handles::TagDirectives;
use crate::parser::{Parser, Turn};
use std::alloc::{AllocError, Global};
use yaml_parse_grammar::ParseProblem;
use yaml_parse_model::{SECONDARY_PREFIX, yaml_version_directive_t};
use yaml_scan_model::{Kind, Tokens};

/// The version and the tag directives of a document.
#[derive(Drop)]
pub(crate) struct Directives {
    pub version: Option<yaml_version_directive_t>,
    pub tags: TagDirectives,
}

impl Directives {
    pub(crate) fn new(alloc: Global) -> Directives
        ensures { directives_of result ≡ no_directives }
    {
        Directives {
            version: None,
            tags: TagDirectives::new(alloc),
        }
    }

    /// A document ends: nothing carries over to the next one.
    pub(crate) fn clear(&mut self)
        ensures { directives_of self.new ≡ no_directives }
    {
        self.version = None;
        self.tags.clear();
    }

    /// What the handle stands for: by a directive, or by default. A verbatim tag has none.
    pub(crate) fn prefix_of(&self, handle: &[u8]) -> Option<&[u8]>
        ensures { option_map (λ t. t.now) result
            ≡ prefix_for (directives_of self.now).tags handle.now }
    {
        if handle.is_empty() {
            return Some(b"".as_slice());
        }
        match self.tags.prefix_of(handle) {
            Some(prefix) => Some(prefix),
            None => default_prefix(handle),
        }
    }
}

/// What a handle stands for where no directive says it.
fn default_prefix(handle: &[u8]) -> Option<&'static [u8]>
    ensures { option_map (λ t. t.now) result ≡ default_prefix handle.now }
{
    if handle == b"!".as_slice() {
        Some(b"!".as_slice())
    } else if handle == b"!!".as_slice() {
        Some(SECONDARY_PREFIX)
    } else {
        None
    }
}

impl<T: Tokens> Parser<T> {
    /// Takes the `%YAML` directive that is next, or reports what is wrong: a second one, or neither
    /// 1.1 nor 1.2.
    pub(crate) fn version_directive(&mut self) -> Turn
        requires tells { T.tells self.old.tokens false }
        requires kind { IsNext token.VersionDirective (T.to_come self.old.tokens) }
        ensures notes { Notes T.Tokens self.old result self.new }
        ensures utf8 { IsUtf8Kept T.Tokens self.old → IsUtf8Noted T.Tokens result self.new }
    {
        let start = self.tokens.start();
        self.tokens.skip(Kind::VersionDirective);
        let (major, minor) = self.tokens.version();
        self.note_version(major, minor, start)
    }

    /// A version that is there.
    fn note_version(&mut self, major: i32, minor: i32, at: T::Place) -> Turn
        ensures { Settles T.Tokens (with_version (directives_of self.old.directives).version
            (directives_of self.old.directives).tags major minor (T.mark_of self.old.tokens at))
            self.old result self.new }
    {
        match self.directives.version {
            Some(_) => self.refuse_at(ParseProblem::DuplicateVersion, at, at),
            None => {
                if major == 1 && (minor == 1 || minor == 2) {
                    self.directives.version = Some(yaml_version_directive_t { major, minor });
                    Turn::Given
                } else {
                    self.refuse_at(ParseProblem::IncompatibleVersion, at, at)
                }
            }
        }
    }

    /// Takes the `%TAG` directive that is next, or reports what is wrong: a handle that has one
    /// already.
    pub(crate) fn tag_directive(&mut self) -> Turn
        requires tells { T.tells self.old.tokens false }
        requires kind { IsNext token.TagDirective (T.to_come self.old.tokens) }
        ensures notes { Notes T.Tokens self.old result self.new }
        ensures utf8 { IsUtf8Kept T.Tokens self.old → IsUtf8Noted T.Tokens result self.new }
    {
        let start = self.tokens.start();
        self.tokens.skip(Kind::TagDirective);
        self.note_tag(start)
    }

    /// The handle and the prefix that were taken last, which are there.
    fn note_tag(&mut self, at: T::Place) -> Turn
        ensures { Settles T.Tokens (with_tag (directive_for (T.texts self.old.tokens).handle
            (directives_of self.old.directives).tags) (directives_of self.old.directives)
            (T.texts self.old.tokens).handle (T.texts self.old.tokens).suffix
            (T.mark_of self.old.tokens at)) self.old result self.new }
    {
        match self.directives.tags.prefix_of(self.tokens.handle()) {
            Some(_) => self.refuse_at(ParseProblem::DuplicateHandle, at, at),
            None => match self.push_tag() {
                Ok(()) => Turn::Given,
                Err(_) => self.lack_memory(),
            },
        }
    }

    /// They are one directive more.
    fn push_tag(&mut self) -> Result<(), AllocError>
        requires { directive_for (T.texts self.old.tokens).handle
            (directives_of self.old.directives).tags ≡ None }
        ensures same { self.new ≡ record self.old { directives = self.new.directives } }
        ensures pushes { OnOk result (directives_of self.new.directives
            ≡ with_directive (T.texts self.old.tokens).handle (T.texts self.old.tokens).suffix
            (directives_of self.old.directives)) }
    {
        let alloc = *self.levels.allocator();
        let handle = Vec::from_slice(alloc, self.tokens.handle())?;
        let prefix = Vec::from_slice(alloc, self.tokens.suffix())?;
        self.directives.tags.push(alloc, handle, prefix)
    }
}
