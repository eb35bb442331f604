//! What is wrong with what opens a document.

ghost use Rattle.std.specs.Prelude.{◌≡◌, [], Bool, List, None, Some, map, if◌then◌else◌, IfOk, OnOk};
ghost use Rattle.yaml_parse_model.specs.Events.{directive_of, TagDirective};
ghost use Rattle.yaml_emit_layout.specs.declared.Settings.{Settings};
ghost use Rattle.yaml_emit_layout.specs.Content as said;
ghost use Rattle.yaml_emit_layout.specs.Grammar.{version_problem, handle_problem, directives_problem, opening_problem};
ghost use Rattle.yaml_emit_layout.specs.State.{problem_at};
ghost use Rattle.yaml_emit_core.specs.Directives.{opening_of};
ghost use Rattle.yaml_emit_core.specs.Levels.{state_at, Stands};
ghost use Rattle.yaml_emit_core.specs.Seen.{is_among, Adds, Judges};

use crate::alphas::are_alphas;
use crate::judge::place_if;
use crate::level::Levels;
use crate::openings::Opening;
use std::alloc::{AllocError, Global};
use std::collections::BTreeSet;
use yaml_emit_layout::Problem;
use yaml_scan_model::{yaml_tag_directive_t, yaml_version_directive_t};

fn version_problem(version: Option<yaml_version_directive_t>) -> Option<Problem>
    ensures { result ≡ version_problem version }
{
    match version {
        None => None,
        Some(version) if version.major == 1 && (version.minor == 1 || version.minor == 2) => None,
        Some(_) => Some(Problem::Version),
    }
}

// The first and the last byte of a handle are `!`.
#[tactic(auto, unfolding(yaml_emit_layout::specs::Grammar::handle_problem))]
fn handle_problem(handle: &[u8]) -> Option<Problem>
    ensures { result ≡ handle_problem handle.now }
{
    if handle.is_empty() {
        Some(Problem::HandleEmpty)
    } else if handle[0] != b'!' {
        Some(Problem::HandleStart)
    } else if handle[handle.len() - 1] != b'!' {
        Some(Problem::HandleEnd)
    } else if handle.len() < 2 || are_alphas(&handle[1..handle.len() - 1]) {
        None
    } else {
        Some(Problem::HandleCharacters)
    }
}

fn twice_problem<'a>(
    seen: &mut BTreeSet<&'a [u8]>,
    handle: &'a [u8],
) -> Result<Option<Problem>, AllocError>
    ensures problem { IfOk result (λ p. p ≡ (if is_among handle.entry seen.old
        then Some Problem.HandleTwice else None)) }
    ensures adds { OnOk result (Adds handle.entry seen.old seen.new) }
{
    if seen.insert(handle)? {
        Ok(None)
    } else {
        Ok(Some(Problem::HandleTwice))
    }
}

// By the handles of the directives before.
fn directive_problem<'a>(
    seen: &mut BTreeSet<&'a [u8]>,
    directive: &'a yaml_tag_directive_t,
) -> Result<Option<Problem>, AllocError>
    ensures { Judges (directive_of directive.now) seen.old result seen.new }
{
    if let Some(problem) = handle_problem(&directive.handle) {
        return Ok(Some(problem));
    }
    if directive.prefix.is_empty() {
        return Ok(Some(Problem::PrefixEmpty));
    }
    twice_problem(seen, &directive.handle)
}

fn directives_problem(
    alloc: Global,
    directives: &[yaml_tag_directive_t],
) -> Result<Option<Problem>, AllocError>
    ensures { IfOk result (λ p. p ≡ directives_problem [] (map directive_of directives.now)) }
{
    let mut seen = BTreeSet::new(alloc);
    for i in 0..directives.len() {
        match directive_problem(&mut seen, &directives[i])? {
            Some(problem) => return Ok(Some(problem)),
            None => (),
        }
    }
    Ok(None)
}

fn opening_problem(alloc: Global, opening: &Opening) -> Result<Option<Problem>, AllocError>
    ensures { IfOk result (λ p. p ≡ opening_problem (opening_of opening.now)) }
{
    match version_problem(opening.version) {
        Some(problem) => Ok(Some(problem)),
        None => directives_problem(alloc, opening.directives),
    }
}

/// What is wrong with the start of a document: a version is 1.1 or 1.2, handles are `!` or `!name!`, and none comes twice; prefixes aren't
/// empty. Refused only when out of memory.
pub fn document_start_problem(
    alloc: Global,
    levels: &Levels,
    opening: &Opening,
) -> Result<Option<Problem>, AllocError>
    ensures stands { Stands levels.now }
    ensures problem { IfOk result (λ p. (s : Settings) (unended : Bool)
        (directives : List TagDirective)
        → p ≡ problem_at s (state_at levels.now unended directives) (said.document_start
        (opening_of opening.now))) }
{
    let state = levels.top().state;
    match place_if(state.is_between(), state) {
        Some(problem) => Ok(Some(problem)),
        None => opening_problem(alloc, opening),
    }
}
