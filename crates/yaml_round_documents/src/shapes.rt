//! Numbers by names: ranks by shapes, and what is known of pairs of numbers.

ghost use Rattle.std.specs.Prelude.{◌≡◌, OnOk};
ghost use Rattle.std.specs.FinMap as map;
ghost use Rattle.yaml_round_documents.specs.Shapes.{list_of};

use std::alloc::{AllocError, Global};
use std::collections::BTreeMap;
use std::marker::Model;

/// A name: two numbers, by which most differ, and further ones.
pub type Name = (u64, u32, Vec<u32>);

/// Numbers by names.
#[derive(Drop)]
pub struct ShapeTable {
    entries: BTreeMap<Name, u32>,
}

impl Model for ShapeTable {
    ghost use Rattle.yaml_round_documents.specs.Shapes.{Shapes};

    ghost Value = { Shapes };

    ghost use Rattle.std.specs.FinMap as map;
    ghost use Rattle.std.specs.Coded.{coded_ℕ, coded_list};

    ghost coded = { map.code (coded_list coded_ℕ) coded_ℕ };

    ghost use Rattle.yaml_round_documents.specs.ShapeView.{shapes_view};

    ghost view = { shapes_view };
}

impl ShapeTable {
    /// No names.
    pub fn new(alloc: Global) -> ShapeTable
        ensures { result ≡ map.empty }
    {
        ShapeTable {
            entries: BTreeMap::new(alloc),
        }
    }

    /// The number of a name.
    pub fn get(&self, name: &Name) -> Option<u32>
        ensures { result ≡ map.get self.now (list_of name.now) }
    {
        self.entries.get(name).copied()
    }

    /// From now on the name has that number.
    pub fn insert(&mut self, name: Name, number: u32) -> Result<(), AllocError>
        ensures { OnOk result (self.new ≡ map.insert self.old (list_of name) number) }
    {
        self.entries.insert(name, number)?;
        Ok(())
    }
}
