//! An emitter's checkpoint, and an emitter that continues from it.

ghost use Rattle.std.specs.Prelude.{◌≡◌, ◌<◌, ◌^◌, map, IfOk};
ghost use Rattle.yaml_parse_model.specs.Events.{directive_of};
ghost use Rattle.yaml_emit_layout.specs.State.{top_of};
ghost use Rattle.yaml_emit_core.specs.Levels.{stack};
ghost use Rattle.yaml_emit_core.specs.Standing.{IsStand, IsStandOfCore, Resumes, stage_in, unended_in, refused_in};

use super::Core;
use crate::level::{Levels, State};
use crate::table::DirectiveTable;
use std::alloc::{AllocError, Global};
use yaml_emit_layout::{Cursor, Encoding, Expected, Level, Problem, Settings};
use yaml_emit_output::{Draft, Output};
use yaml_scan_model::yaml_tag_directive_t;

/// An emitter's checkpoint, except for the collections round the innermost one and the document's directives.
#[derive(Clone, Copy)]
pub struct yaml_emitter_stand_t {
    /// The encoding of the text.
    pub encoding: Encoding,
    /// What is expected next.
    pub place: Expected,
    /// The innermost open collection.
    pub innermost: Option<Level>,
    /// The place of the next character.
    pub cursor: Cursor,
    /// How many events wait for later ones.
    pub waiting: u64,
}

// What comes next outside of collections.
fn stage_in(place: Expected) -> State
    ensures { result ≡ stage_in place }
{
    match place {
        Expected::StreamStart => State::StreamStart,
        Expected::Documents(first, _) => if first {
            State::FirstDocumentStart
        } else {
            State::DocumentStart
        },
        Expected::DocumentEnd => State::DocumentEnd,
        Expected::End => State::End,
        _ => State::DocumentContent,
    }
}

fn unended_in(place: Expected) -> bool
    ensures { result ≡ unended_in place }
{
    match place {
        Expected::Documents(_, unended) => unended,
        _ => false,
    }
}

fn refused_in(place: Expected) -> Option<Problem>
    ensures { result ≡ refused_in place }
{
    match place {
        Expected::Refused(problem) => Some(problem),
        _ => None,
    }
}

impl Core {
    /// Continues from an emitter's checkpoint, with an output of its own: there the collections
    /// round the innermost one were open, the outermost first, and the document had these
    /// directives. Refused only when out of memory.
    pub fn resumed(
        alloc: Global,
        settings: Settings,
        limit: u64,
        stand: yaml_emitter_stand_t,
        outer: Vec<Level>,
        directives: Vec<yaml_tag_directive_t>,
    ) -> Result<Core, AllocError>
        requires step { settings.indent < 2 ^ 31 }
        requires column { stand.cursor.column < 2 ^ 62 }
        requires stand { IsStand stand outer.items }
        ensures { IfOk result (λ core. Resumes settings limit stand outer.items
            (map directive_of directives.items) core) }
    {
        let directives = DirectiveTable::of(directives)?;
        let width = settings.width as usize;
        Ok(Core {
            settings: Settings {
                encoding: stand.encoding,
                ..settings
            },
            draft: Draft::resumed(alloc, settings.line_break, width, stand.cursor),
            output: Output::new(alloc, stand.encoding, limit),
            levels: Levels::resumed(stage_in(stand.place), stand.innermost, outer),
            unended: unended_in(stand.place),
            directives,
            refused: refused_in(stand.place),
            starved: false,
        })
    }

    /// Its checkpoint; the caller passes how many events wait.
    pub fn stand(&self, waiting: u64) -> yaml_emitter_stand_t
        ensures { IsStandOfCore self.now waiting result }
    {
        yaml_emitter_stand_t {
            encoding: self.output.encoding(),
            place: self.place(),
            innermost: self.levels.innermost(),
            cursor: self.draft.cursor(),
            waiting,
        }
    }

    /// The collections round the innermost one, the outermost first.
    pub fn outer(&self) -> &[Level]
        ensures { stack (top_of self.now.levels) result.now ≡ self.now.levels }
    {
        self.levels.outer()
    }

    /// The directives of the document.
    pub fn directives(&self) -> &[yaml_tag_directive_t]
        ensures { map directive_of result.now ≡ self.now.directives }
    {
        self.directives.list()
    }
}
