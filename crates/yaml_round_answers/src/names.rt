//! The names of a document so far.

ghost use Rattle.std.specs.Prelude.{◌≡◌, OnOk};
ghost use Rattle.std.specs.FinMap as finite;
ghost use Rattle.yaml_round_answers.specs.Names.{names_of};

use std::alloc::{AllocError, Global};
use std::collections::BTreeMap;

/// Each name with the number of the last node that has it.
#[derive(Drop)]
pub struct Names {
    pub entries: BTreeMap<Vec<u8>, i32>,
}

/// The number of the last node that has the name.
pub(crate) fn meant(names: &Names, name: &[u8]) -> Option<i32>
    ensures { result ≡ finite.get (names_of names.now) name.now }
{
    names.entries.get(name).copied()
}

/// From now on the name is that of the node under this number.
pub(crate) fn note(names: &mut Names, name: Vec<u8>, number: i32) -> Result<(), AllocError>
    ensures { OnOk result (names_of names.new ≡ finite.insert (names_of names.old) name.items
        number) }
{
    names.entries.insert(name, number)?;
    Ok(())
}
