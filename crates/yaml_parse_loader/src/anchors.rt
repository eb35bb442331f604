//! The anchors of a document that is being loaded.

ghost use Rattle.std.specs.Prelude.{◌≡◌, OnOk, OnErr};
ghost use Rattle.std.specs.FinMap as map;

use std::alloc::{AllocError, Global};
use std::collections::BTreeMap;
use std::marker::Model;

/// Anchors by their names, each with the number of the last node that has it.
#[derive(Drop)]
pub struct AnchorTable {
    entries: BTreeMap<Vec<u8>, i32>,
}

impl Model for AnchorTable {
    ghost use Rattle.yaml_parse_loader.specs.Anchors.{Anchors};

    ghost Value = { Anchors };

    ghost use Rattle.std.specs.FinMap as map;
    ghost use Rattle.std.specs.Coded.{coded_ℕ, coded_ℤ, coded_list};

    ghost coded = { map.code (coded_list coded_ℕ) coded_ℤ };

    ghost use Rattle.yaml_parse_loader.specs.AnchorView.{anchors_view};

    ghost view = { anchors_view };
}

impl AnchorTable {
    /// No anchors.
    pub fn new(alloc: Global) -> AnchorTable
        ensures { result ≡ map.empty }
    {
        AnchorTable {
            entries: BTreeMap::new(alloc),
        }
    }

    /// The number of the last node that has the anchor.
    pub fn get(&self, name: &[u8]) -> Option<i32>
        ensures { result ≡ map.get self.now name.now }
    {
        self.entries.get(name).copied()
    }

    /// From now on the anchor names the node of this number, whichever it named before.
    pub fn insert(&mut self, name: Vec<u8>, number: i32) -> Result<(), AllocError>
        ensures ok { OnOk result (self.new ≡ map.insert self.old name.items number) }
        ensures err { OnErr result (self.new ≡ self.old) }
    {
        self.entries.insert(name, number)?;
        Ok(())
    }
}
