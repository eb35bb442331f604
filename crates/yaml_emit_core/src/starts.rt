//! What opens collections.

ghost use Rattle.std.specs.Prelude.{◌≡◌, ◌<◌, ◌+◌, ◌^◌, ◌&&◌, ◌||◌, Bool, List, true, false, not, nat_le, OnOk};
ghost use Rattle.yaml_emit_layout.specs.Layout.{stay};
ghost use Rattle.yaml_emit_layout.specs.Content.{Start, emitter_event};
ghost use Rattle.yaml_emit_layout.specs.Nodes.{simple_key_bytes};
ghost use Rattle.yaml_parse_model.specs.Events.{TagDirective, borrowed_body};
ghost use Rattle.yaml_emit_layout.specs.State.{next, piece, position_of};
ghost use Rattle.yaml_emit_output.specs.Draft.{Lays};
ghost use Rattle.yaml_emit_core.specs.Levels.{level_of, IsPlain, is_key, awaits_node, opening, opener_of, first_of, state_at};
ghost use Rattle.yaml_emit_core.specs.Names.{names_size, name_in, IsName};
ghost use Rattle.yaml_emit_core.specs.Pages.{IsOf};
ghost use Rattle.yaml_emit_core.specs.Opens.{Opens, asks_at, asks_empty};

use crate::before::put_before;
use crate::depth::{open, put_opener};
use crate::given::{is_flow_mapping, is_flow_sequence};
use crate::indent::{indent_of, is_in_flow};
use crate::level::{Level, Levels, State};
use crate::names::{Properties, are_short, put_properties};
use std::alloc::AllocError;
use yaml_emit_layout::{Settings, Status};
use yaml_emit_output::Draft;
use yaml_parse_model::EventRef;

/// What opens a collection: a sequence or a mapping, in flow style or not, and whether the next event closes it.
#[derive(Clone, Copy)]
pub struct Opener<'a> {
    pub properties: Properties<'a>,
    pub sequence: bool,
    pub flow: bool,
    pub empty: bool,
}

fn bracket_of(sequence: bool) -> u8
    ensures bracket { result ≡ opener_of sequence }
    ensures ascii { result < 0x80 }
{
    if sequence { b'[' } else { b'{' }
}

fn first_of(sequence: bool) -> State
    ensures { result ≡ first_of sequence }
{
    if sequence {
        State::FirstItem
    } else {
        State::FirstKey
    }
}

// Whether it is a simple key.
fn is_simple(settings: &Settings, state: State, start: &Opener) -> bool
    ensures { result ≡ (is_key state && (not settings.now.canonical && (start.now.empty
        && nat_le (names_size start.now.properties + 0) simple_key_bytes))) }
{
    state.awaits_key() && !settings.canonical && start.empty && are_short(&start.properties, 0)
}

/// The start of a sequence or a mapping where a node may come: what comes before it, an anchor and a tag, and the bracket of a flow
/// collection. Refused only when out of memory.
pub fn lay_start(
    draft: &mut Draft,
    settings: &Settings,
    levels: &mut Levels,
    start: &Opener,
) -> Result<(), AllocError>
    requires on { IsOf settings.now draft.old }
    requires step { settings.now.indent < 2 ^ 31 }
    requires due { awaits_node levels.old.state ≡ true }
    requires name { IsName (name_in start.now.properties) }
    ensures text { (unended : Bool) (directives : List TagDirective) (q : Start)
        → Opens settings.now directives start.now q
        → Lays draft.old draft.new (piece settings.now (state_at levels.old unended directives)
        (opening start.now.sequence q) start.now.empty) stay }
    ensures state { OnOk result ((unended : Bool) (directives : List TagDirective) (q : Start)
        → Opens settings.now directives start.now q → draft.new.output.status ≡ Status.Going
        → state_at levels.new unended directives ≡ next settings.now
        (state_at levels.old unended directives)
        (opening start.now.sequence q) start.now.empty draft.new.output.cursor) }
{
    let level = levels.top();
    let simple = is_simple(settings, level.state, start);
    put_before(draft, settings, level, simple);
    put_properties(draft, &start.properties);
    let flow = settings.canonical | (is_in_flow(level) | (start.flow | start.empty));
    put_opener(draft, flow, bracket_of(start.sequence));
    let indent = indent_of(draft, settings, level, start.sequence, flow);
    let opened = Level {
        state: first_of(start.sequence),
        flow,
        indent,
    };
    open(draft, levels, opened, simple)
}

// Whether what is written for a collection of that style depends on whether it is empty.
fn asks_at(settings: &Settings, level: &Level, flow: bool) -> bool
    requires plain { IsPlain level.now }
    ensures { result ≡ asks_at settings.now.canonical level.now.state ((position_of
        (level_of level.now) false).flow || flow) }
{
    !settings.canonical & (level.state.awaits_key() | !(is_in_flow(level) | flow))
}

/// Whether what is written for an event depends on whether it opens an empty collection.
pub fn asks_empty(settings: &Settings, level: &Level, event: &EventRef) -> bool
    requires plain { IsPlain level.now }
    ensures { result ≡ asks_empty settings.now.canonical level.now.state (position_of
        (level_of level.now) false).flow (emitter_event (borrowed_body event.now)) }
{
    match *event {
        EventRef::SequenceStart { style, .. } => asks_at(settings, level, is_flow_sequence(style)),
        EventRef::MappingStart { style, .. } => asks_at(settings, level, is_flow_mapping(style)),
        _ => false,
    }
}
