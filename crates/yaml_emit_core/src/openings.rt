//! What opens documents, and what ends them and the stream.

ghost use Rattle.std.specs.Prelude.{◌≡◌, [], Bool, List, map, true, false, Some};
ghost use Rattle.yaml_parse_model.specs.Events.{borrowed_body, directive_of, TagDirective};
ghost use Rattle.yaml_emit_layout.specs.declared.Cursor.{Cursor};
ghost use Rattle.yaml_emit_layout.specs.Layout.{stay, when, word, choose, order_mark};
ghost use Rattle.yaml_emit_layout.specs.Content as said;
ghost use Rattle.yaml_emit_layout.specs.Content.{emitter_event};
ghost use Rattle.yaml_emit_layout.specs.Nodes.{dots, dashes, line_at, is_kept, is_directed, version_word, version_text, directive_text, directives_text};
ghost use Rattle.yaml_emit_layout.specs.State.{next, piece};
ghost use Rattle.yaml_emit_output.specs.Draft.{Lays};
ghost use Rattle.yaml_emit_core.specs.Directives.{opening_of};
ghost use Rattle.yaml_emit_core.specs.Judged.{fits_at};
ghost use Rattle.yaml_emit_core.specs.Levels.{is_between, state_at};
ghost use Rattle.yaml_emit_core.specs.Pages.{IsOf};

use crate::documents::{put_dots, put_dots_if, put_line};
use crate::level::{Levels, State};
use crate::names::{put_front, put_handle, put_uri};
use yaml_emit_layout::Settings;
use yaml_emit_output::Draft;
use yaml_parse_model::EventRef;
use yaml_scan_model::{yaml_tag_directive_t, yaml_version_directive_t};

/// What opens a document.
#[derive(Clone, Copy)]
pub struct Opening<'a> {
    pub version: Option<yaml_version_directive_t>,
    pub directives: &'a [yaml_tag_directive_t],
    pub implicit: bool,
}

fn put_version_word(draft: &mut Draft, version: yaml_version_directive_t)
    ensures { Lays draft.old draft.new (word (version_word version)) stay }
{
    if version.minor == 1 {
        put_front(draft, b"1.1");
    } else {
        put_front(draft, b"1.2");
    }
}

fn put_version(draft: &mut Draft, settings: &Settings, version: Option<yaml_version_directive_t>)
    requires { IsOf settings.now draft.old }
    ensures { Lays draft.old draft.new (version_text settings.now version) stay }
{
    if let Some(version) = version {
        put_front(draft, b"%YAML");
        put_version_word(draft, version);
        put_line(draft, settings);
    }
}

fn put_directive(draft: &mut Draft, settings: &Settings, directive: &yaml_tag_directive_t)
    requires { IsOf settings.now draft.old }
    ensures { Lays draft.old draft.new (directive_text settings.now
        (directive_of directive.now)) stay }
{
    put_front(draft, b"%TAG");
    put_handle(draft, &directive.handle);
    draft.put_gap();
    put_uri(draft, true, &directive.prefix);
    put_line(draft, settings);
}

fn put_directives(draft: &mut Draft, settings: &Settings, directives: &[yaml_tag_directive_t])
    requires { IsOf settings.now draft.old }
    ensures { Lays draft.old draft.new (directives_text settings.now
        (map directive_of directives.now)) stay }
{
    for directive in directives {
        put_directive(draft, settings, directive);
    }
}

fn put_dashes(draft: &mut Draft, settings: &Settings, due: bool)
    requires { IsOf settings.now draft.old }
    ensures { Lays draft.old draft.new (when due (dashes settings.now)) stay }
{
    if due {
        put_line(draft, settings);
        put_front(draft, b"---");
        if settings.canonical {
            put_line(draft, settings);
        }
    }
}

fn is_directed(opening: &Opening) -> bool
    ensures { result ≡ is_directed (opening_of opening.now) }
{
    opening.version.is_some() | !opening.directives.is_empty()
}

/// The start of a document, where one may come, by whether the last one ended implicitly: `...`
/// separates its directives from that one, and a first implicit document without directives has no
/// `---` in pretty form.
pub fn lay_document_start(
    draft: &mut Draft,
    settings: &Settings,
    levels: &mut Levels,
    unended: bool,
    opening: &Opening,
)
    requires on { IsOf settings.now draft.old }
    requires outside { levels.old.levels ≡ [] }
    requires due { is_between levels.old.state ≡ true }
    ensures text { (empty : Bool) (directives : List TagDirective) → Lays draft.old draft.new
        (piece settings.now (state_at levels.old unended directives) (said.document_start
        (opening_of opening.now)) empty) stay }
    ensures state { (after empty : Bool) (directives : List TagDirective) (behind : Cursor)
        → state_at levels.new after (map directive_of opening.now.directives.now)
        ≡ next settings.now (state_at levels.old unended directives) (said.document_start
        (opening_of opening.now)) empty behind }
{
    let first = levels.top().state.is_first();
    let directed = is_directed(opening);
    put_dots_if(draft, settings, unended & directed);
    draft.set_kept(false);
    put_version(draft, settings, opening.version);
    put_directives(draft, settings, opening.directives);
    let due = settings.canonical | !(first & (opening.implicit & !directed));
    put_dashes(draft, settings, due);
    levels.turn(State::DocumentContent);
}

fn put_kept_dots(draft: &mut Draft, settings: &Settings, due: bool)
    requires { IsOf settings.now draft.old }
    ensures { Lays draft.old draft.new (when due (choose is_kept (dots settings.now) stay)) stay }
{
    if due {
        if draft.is_kept() {
            put_dots(draft, settings);
        }
    }
}

/// An event of the stream or a document's end, where it has its place; answers whether the last document ended implicitly. The stream
/// begins with the byte order mark in UTF-16, and `...` ends it where its last block scalar keeps its breaks; `...` ends a document
/// unless it ends implicitly.
pub fn lay_placed(
    draft: &mut Draft,
    settings: &Settings,
    levels: &mut Levels,
    unended: bool,
    event: &EventRef,
) -> bool
    requires on { IsOf settings.now draft.old }
    requires outside { levels.old.levels ≡ [] }
    requires due { fits_at (emitter_event (borrowed_body event.now)) levels.old.state ≡ true }
    ensures text { (empty : Bool) (directives : List TagDirective) → Lays draft.old draft.new
        (piece settings.now (state_at levels.old unended directives)
        (emitter_event (borrowed_body event.now)) empty) stay }
    ensures state { (empty : Bool) (directives : List TagDirective) (behind : Cursor)
        → state_at levels.new result []
        ≡ next settings.now (state_at levels.old unended directives)
        (emitter_event (borrowed_body event.now)) empty behind }
{
    match event {
        EventRef::StreamStart { .. } => {
            draft.put_order_mark(settings.encoding);
            levels.turn(State::FirstDocumentStart);
            false
        }
        EventRef::StreamEnd => {
            put_kept_dots(draft, settings, unended);
            levels.turn(State::End);
            unended
        }
        EventRef::DocumentEnd { implicit } => {
            put_line(draft, settings);
            put_dots_if(draft, settings, !*implicit);
            levels.turn(State::DocumentStart);
            *implicit
        }
        _ => unended,
    }
}
