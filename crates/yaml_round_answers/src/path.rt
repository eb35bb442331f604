//! The path to a place, spelled for programs.

ghost use Rattle.std.specs.Prelude.{◌≡◌, ◌++◌, IfOk, OnOk, string_bytes};
ghost use Rattle.yaml_round_answers.specs.Path.{keyed_head, step_head, step_spelled, path_spelled};

use std::alloc::{AllocError, Global};
use yaml_round::yaml_step_t;

// Adds what is before the text of a value's key.
fn push_keyed(head: &mut String, pair: u64, size: usize) -> Result<(), AllocError>
    ensures { OnOk result (string_bytes head.new ≡ string_bytes head.old ++ keyed_head pair size) }
{
    write!(head, ".{pair}:{size}:")
}

// Adds what is before a step's text.
fn push_head(head: &mut String, step: &yaml_step_t) -> Result<(), AllocError>
    ensures { OnOk result (string_bytes head.new ≡ string_bytes head.old ++ step_head step.now) }
{
    match step {
        yaml_step_t::Item(number) => write!(head, "[{number}]"),
        yaml_step_t::Key(number) => write!(head, "<{number}>"),
        yaml_step_t::Value { pair, key: None } => write!(head, ".{pair}"),
        yaml_step_t::Value {
            pair,
            key: Some(key),
        } => push_keyed(head, *pair, key.len()),
    }
}

fn put_step(alloc: Global, path: &mut Vec<u8>, step: &yaml_step_t) -> Result<(), AllocError>
    ensures { OnOk result (path.new.items ≡ path.old.items ++ step_spelled step.now) }
{
    let mut head = String::new(alloc);
    push_head(&mut head, step)?;
    path.extend_from_slice(head.as_bytes())?;
    match step {
        yaml_step_t::Value { key: Some(key), .. } => path.extend_from_slice(key.as_slice()),
        _ => Ok(()),
    }
}

/// The steps, spelled one after another.
pub(crate) fn path_text(alloc: Global, steps: &[yaml_step_t]) -> Result<Vec<u8>, AllocError>
    ensures { IfOk result (λ path. path.items ≡ path_spelled steps.now) }
{
    let mut path = Vec::new(alloc);
    for step in steps {
        put_step(alloc, &mut path, step)?;
    }
    Ok(path)
}
