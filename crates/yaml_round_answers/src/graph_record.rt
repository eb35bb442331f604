//! Nodes as records over one list of numbers, and the turns of a dump.

/// A node. `kind` has libyaml's number: 0 none, 1 a scalar, 2 a sequence, 3 a mapping. A collection holds `count` numbers of
/// the list from `first` on: a mapping each pair's key and its value after it.
#[repr(C)]
#[derive(Clone, Copy, Drop)]
pub struct yaml_c_node {
    pub kind: i32,
    pub first: u64,
    pub count: u64,
}

/// The nodes of a document, whose numbers count from 1, and the list of what they hold.
#[repr(C)]
#[derive(Drop)]
pub struct yaml_c_graph {
    pub nodes: &'static [yaml_c_node],
    pub held: &'static [i32],
}

/// An event of a dump: its kind by libyaml's number (5 to 10), the node that it is of, and the number of the node's anchor, or 0.
#[repr(C)]
#[derive(Clone, Copy, Drop)]
pub struct yaml_c_turn {
    pub kind: i32,
    pub node: i32,
    pub number: u64,
}

/// An event within a document, as a loader looks at it: its kind by libyaml's number (5 to 10), and where `has_name` isn't 0 its
/// anchor, or the name of an alias: `count` bytes of a block from `first` on.
#[repr(C)]
#[derive(Clone, Copy, Drop)]
pub struct yaml_c_step {
    pub kind: i32,
    pub has_name: i32,
    pub first: u64,
    pub count: u64,
}

/// What an event comes to in its document: the node that it begins, stands for or ends, and the collection that takes it, or 0.
#[repr(C)]
#[derive(Clone, Copy, Drop)]
pub struct yaml_c_spot {
    pub node: i32,
    pub into: i32,
}

const _: () = prove!(size_of::<yaml_c_step>() == 24);

const _: () = prove!(size_of::<yaml_c_spot>() == 8);

const _: () = prove!(size_of::<yaml_c_node>() == 24);

const _: () = prove!(size_of::<yaml_c_graph>() == 32);

const _: () = prove!(size_of::<yaml_c_turn>() == 16);
