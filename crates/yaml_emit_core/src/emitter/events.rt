//! Events of nodes: validated, laid out, settled.

ghost use Rattle.std.specs.Prelude.{◌≡◌, ◌&&◌, Bool, true, false, not, IsUtf8};
ghost use Rattle.yaml_parse_model.specs.Events.{borrowed_body};
ghost use Rattle.yaml_parse_model.specs.Constructors.{HasUtf8};
ghost use Rattle.yaml_emit_layout.specs.Content as said;
ghost use Rattle.yaml_emit_layout.specs.Content.{emitter_event};
ghost use Rattle.yaml_emit_core.specs.Given.{scalar_in, start_in};
ghost use Rattle.yaml_emit_core.specs.Levels.{opening, ending};
ghost use Rattle.yaml_emit_core.specs.Steps.{IsSame, LaysOut, goes_on, opens, settings_of, state_of};

use super::Core;
use crate::content::{Scalar, lay_scalar};
use crate::given::{
    Named, Value, cut_tag_if, is_flow_mapping, is_flow_sequence, kept_tag, text_in,
};
use crate::judge::{alias_problem, end_problem, scalar_problem, start_problem};
use crate::names::Properties;
use crate::nodes::{lay_alias, lay_end};
use crate::starts::{Opener, asks_empty, lay_start};
use yaml_emit_scalars::classes_of;
use yaml_parse_model::EventRef;

impl Core {
    /// Whether what is written for an event depends on whether it opens a collection that the next event closes.
    pub fn asks_empty(&self, event: &EventRef) -> bool
        ensures some { result ≡ true → (not self.now.settings.canonical && opens (emitter_event
            (borrowed_body event.now))) ≡ true }
        ensures same { result ≡ false → (v w : Bool) → IsSame (settings_of self.now)
            (state_of self.now) (emitter_event (borrowed_body event.now)) v w }
    {
        asks_empty(&self.settings, self.levels.top(), event)
    }

    /// Lays out an event, by whether it opens a collection that the next event closes; or refuses it. For out of memory the output
    /// stops.
    pub fn lay_out(&mut self, event: &EventRef, empty: bool)
        requires utf8 { HasUtf8 (borrowed_body event.now) }
        requires going { goes_on self.old.sink.status self.old.place ≡ true }
        ensures { LaysOut self.old self.new (emitter_event (borrowed_body event.now)) empty }
    {
        match *event {
            EventRef::Scalar {
                anchor,
                tag,
                value,
                plain_implicit: plain,
                quoted_implicit: quoted,
                style,
            } => {
                let value = Value {
                    value,
                    plain,
                    quoted,
                    style,
                };
                self.lay_scalar(&Named { anchor, tag }, &value);
            }
            EventRef::SequenceStart { .. } | EventRef::MappingStart { .. } => {
                self.lay_opening(event, empty)
            }
            EventRef::SequenceEnd => self.lay_end(true),
            EventRef::MappingEnd => self.lay_end(false),
            EventRef::Alias { anchor } => self.lay_alias(anchor),
            _ => self.lay_outer(event),
        }
    }

    // What opens a collection.
    fn lay_opening(&mut self, event: &EventRef, empty: bool)
        requires opens { opens (emitter_event (borrowed_body event.now)) ≡ true }
        requires going { goes_on self.old.sink.status self.old.place ≡ true }
        ensures { LaysOut self.old self.new (emitter_event (borrowed_body event.now)) empty }
    {
        match *event {
            EventRef::SequenceStart {
                anchor,
                tag,
                implicit,
                style,
            } => self.lay_start(
                &Named { anchor, tag },
                implicit,
                true,
                is_flow_sequence(style),
                empty,
            ),
            EventRef::MappingStart {
                anchor,
                tag,
                implicit,
                style,
            } => self.lay_start(
                &Named { anchor, tag },
                implicit,
                false,
                is_flow_mapping(style),
                empty,
            ),
            _ => (),
        }
    }

    fn lay_alias(&mut self, name: &[u8])
        requires { goes_on self.old.sink.status self.old.place ≡ true }
        ensures { (empty : Bool) → LaysOut self.old self.new (said.alias name.now) empty }
    {
        match alias_problem(&self.levels, name) {
            Some(problem) => self.refused = Some(problem),
            None => {
                lay_alias(&mut self.draft, &self.settings, &mut self.levels, name);
                self.output.settle(&mut self.draft);
            }
        }
    }

    fn lay_end(&mut self, sequence: bool)
        requires { goes_on self.old.sink.status self.old.place ≡ true }
        ensures { (empty : Bool) → LaysOut self.old self.new (ending sequence) empty }
    {
        match end_problem(&self.levels, sequence) {
            Some(problem) => self.refused = Some(problem),
            None => {
                lay_end(&mut self.draft, &self.settings, &mut self.levels, sequence);
                self.output.settle(&mut self.draft);
            }
        }
    }

    fn lay_scalar<'x>(&mut self, named: &Named<'x>, value: &Value<'x>)
        requires utf8 { IsUtf8 value.now.value.now }
        requires going { goes_on self.old.sink.status self.old.place ≡ true }
        ensures { (empty : Bool) → LaysOut self.old self.new (said.scalar
            (scalar_in named.now value.now)) empty }
    {
        let flags = value.plain | value.quoted;
        let tag = kept_tag(self.settings.canonical, flags, named.tag);
        match scalar_problem(&self.levels, named.anchor, tag, named.tag.is_some() | flags) {
            Some(problem) => self.refused = Some(problem),
            None => {
                let scalar = Scalar {
                    properties: Properties {
                        anchor: named.anchor,
                        tag: cut_tag_if(&self.directives, tag),
                    },
                    value: text_in(value.value),
                    plain: value.plain,
                    quoted: value.quoted,
                    style: value.style,
                    classes: classes_of(value.value),
                };
                lay_scalar(&mut self.draft, &self.settings, &mut self.levels, &scalar);
                self.output.settle(&mut self.draft);
            }
        }
    }

    // Of a sequence or a mapping. Where memory is refused for the open collections, its text is in the output.
    // Inlined: it is judged where it comes, and laid out by one call.
    #[inline(always)]
    fn lay_start(&mut self, named: &Named, implicit: bool, sequence: bool, flow: bool, empty: bool)
        requires { goes_on self.old.sink.status self.old.place ≡ true }
        ensures { LaysOut self.old self.new (opening sequence
            (start_in named.now implicit flow)) empty }
    {
        let tag = kept_tag(self.settings.canonical, implicit, named.tag);
        match start_problem(&self.levels, named.anchor, tag) {
            Some(problem) => self.refused = Some(problem),
            None => {
                let opener = Opener {
                    properties: Properties {
                        anchor: named.anchor,
                        tag: cut_tag_if(&self.directives, tag),
                    },
                    sequence,
                    flow,
                    empty,
                };
                let opened = lay_start(&mut self.draft, &self.settings, &mut self.levels, &opener);
                self.output.settle(&mut self.draft);
                match opened {
                    Ok(()) => (),
                    Err(_) => self.starve(),
                }
            }
        }
    }
}
