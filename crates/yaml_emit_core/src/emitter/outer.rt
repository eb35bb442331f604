//! Events of the stream and of its documents: validated, laid out, settled.

ghost use Rattle.std.specs.Prelude.{◌≡◌, Bool, true, false, map, IfOk};
ghost use Rattle.yaml_parse_model.specs.Events.{borrowed_body, directive_of};
ghost use Rattle.yaml_emit_layout.specs.Content as said;
ghost use Rattle.yaml_emit_layout.specs.Content.{emitter_event};
ghost use Rattle.yaml_emit_core.specs.Directives.{opening_of};
ghost use Rattle.yaml_emit_core.specs.Steps.{LaysOut, goes_on, is_outer, is_document_start};

use super::Core;
use crate::directives::document_start_problem;
use crate::judge::outer_problem;
use crate::openings::{Opening, lay_document_start, lay_placed};
use crate::table::DirectiveTable;
use std::alloc::{AllocError, Global};
use yaml_parse_model::{EventRef, copy_directives};
use yaml_scan_model::yaml_tag_directive_t;

// A table of copies of the directives; refused only when out of memory.
fn copied(alloc: Global, directives: &[yaml_tag_directive_t]) -> Result<DirectiveTable, AllocError>
    ensures { IfOk result (λ t. t ≡ map directive_of directives.now) }
{
    match copy_directives(alloc, directives) {
        Ok(copies) => DirectiveTable::of(copies),
        Err(_) => Err(AllocError),
    }
}

fn put_table(slot: &mut DirectiveTable, table: DirectiveTable)
    ensures { slot.new ≡ table }
{
    *slot = table;
}

impl Core {
    #[cold]
    pub(super) fn lay_outer(&mut self, event: &EventRef)
        requires outer { is_outer (emitter_event (borrowed_body event.now)) ≡ true }
        requires going { goes_on self.old.sink.status self.old.place ≡ true }
        ensures { (empty : Bool) → LaysOut self.old self.new (emitter_event
            (borrowed_body event.now)) empty }
    {
        match *event {
            EventRef::DocumentStart {
                version_directive: version,
                tag_directives: directives,
                implicit,
            } => self.lay_document_start(&Opening {
                version,
                directives,
                implicit,
            }),
            _ => self.lay_bare(event),
        }
    }

    // Of the stream, the end of a document, or none.
    fn lay_bare(&mut self, event: &EventRef)
        requires outer { is_outer (emitter_event (borrowed_body event.now)) ≡ true }
        requires other { is_document_start (emitter_event (borrowed_body event.now)) ≡ false }
        requires going { goes_on self.old.sink.status self.old.place ≡ true }
        ensures { (empty : Bool) → LaysOut self.old self.new (emitter_event
            (borrowed_body event.now)) empty }
    {
        match outer_problem(&self.levels, event) {
            Some(problem) => self.refused = Some(problem),
            None => {
                self.unended = lay_placed(
                    &mut self.draft,
                    &self.settings,
                    &mut self.levels,
                    self.unended,
                    event,
                );
                self.output.settle(&mut self.draft);
                self.directives.clear();
            }
        }
    }

    // Where memory is refused for its directives, nothing of it is laid out.
    fn lay_document_start(&mut self, opening: &Opening)
        requires { goes_on self.old.sink.status self.old.place ≡ true }
        ensures { (empty : Bool) → LaysOut self.old self.new (said.document_start
            (opening_of opening.now)) empty }
    {
        match document_start_problem(self.directives.allocator(), &self.levels, opening) {
            Err(_) => self.starve(),
            Ok(Some(problem)) => self.refused = Some(problem),
            Ok(None) => match copied(self.directives.allocator(), opening.directives) {
                Err(_) => self.starve(),
                Ok(directives) => {
                    lay_document_start(
                        &mut self.draft,
                        &self.settings,
                        &mut self.levels,
                        self.unended,
                        opening,
                    );
                    self.output.settle(&mut self.draft);
                    put_table(&mut self.directives, directives);
                }
            },
        }
    }
}
