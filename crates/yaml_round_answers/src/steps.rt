//! Which node of a document each event is of, and which collection takes it.

ghost use Rattle.std.specs.Prelude.{◌≡◌, IfOk, OnOk, option_map, is_some};
ghost use Rattle.yaml_round_answers.specs.Names.{names_of};
ghost use Rattle.yaml_round_answers.specs.Composing.{is_named, name_at, is_step, are_steps, sketch_of, fresh_sketch, innermost, begun, opened, ended, meant_by, stood, drawn, Draws, all_drawn};
ghost use Rattle.yaml_parse_loader.specs.Loading.{named};

use crate::graph::part_of;
use crate::graph_record::{yaml_c_spot, yaml_c_step};
use crate::names::{Names, meant, note};
use std::alloc::{AllocError, Global};
use std::collections::BTreeMap;
use yaml_parse_model::MAX_ENTRIES;

/// A document in the making: how many nodes it has, the numbers of the open collections, the innermost last, and the names.
#[derive(Drop)]
pub struct Sketching {
    alloc: Global,
    count: usize,
    around: Vec<i32>,
    names: Names,
}

#[tactic(auto, unfolding(crate::specs::Composing::is_named))]
fn is_named(step: yaml_c_step) -> bool
    ensures { result ≡ is_named step.has_name }
{
    step.has_name != 0
}

// The name that a record has.
#[tactic(auto, unfolding(crate::specs::Composing::name_at))]
fn spot_name(bytes: &[u8], step: yaml_c_step) -> Option<&[u8]>
    ensures { option_map (λ t. t.now) result ≡ name_at bytes.now step }
{
    if is_named(step) {
        part_of(bytes, step.first, step.count)
    } else {
        None
    }
}

// Whether a record means an event: an alias has a name, and a name lies within the block.
#[tactic(auto, unfolding(crate::specs::Composing::is_step))]
fn is_step(bytes: &[u8], step: yaml_c_step) -> bool
    ensures { result ≡ is_step bytes.now step }
{
    match step.kind {
        5 => spot_name(bytes, step).is_some(),
        6 | 7 | 9 => !is_named(step) || part_of(bytes, step.first, step.count).is_some(),
        8 | 10 => true,
        _ => false,
    }
}

/// Whether each record means an event.
pub fn are_steps(bytes: &[u8], steps: &[yaml_c_step]) -> bool
    ensures { result ≡ are_steps bytes.now steps.now }
{
    steps.iter().all(|step| is_step(bytes, *step))
}

impl Sketching {
    fn new(alloc: Global) -> Sketching
        ensures { sketch_of result ≡ fresh_sketch }
    {
        Sketching {
            alloc,
            count: 0,
            around: Vec::new(alloc),
            names: Names {
                entries: BTreeMap::new(alloc),
            },
        }
    }

    // The number of the innermost open collection, or 0.
    fn innermost(&self) -> i32
        ensures { result ≡ innermost (sketch_of self.now).around }
    {
        self.around.last().copied().unwrap_or(0)
    }

    // A node more.
    fn begin(&mut self, bytes: &[u8], step: yaml_c_step) -> Result<yaml_c_spot, AllocError>
        ensures { IfOk result (λ x. (x, sketch_of self.new) ≡ begun (name_at bytes.now step)
            (sketch_of self.old)) }
    {
        if self.count >= MAX_ENTRIES {
            return Err(AllocError);
        }
        let node = (self.count + 1) as i32;
        let into = self.innermost();
        note_name(self.alloc, &mut self.names, bytes, step, node)?;
        self.count += 1;
        Ok(yaml_c_spot { node, into })
    }

    // A node more, which is open.
    fn open_node(&mut self, bytes: &[u8], step: yaml_c_step) -> Result<yaml_c_spot, AllocError>
        ensures { IfOk result (λ x. (x, sketch_of self.new) ≡ opened (begun (name_at bytes.now step)
            (sketch_of self.old))) }
    {
        let spot = self.begin(bytes, step)?;
        self.around.push(spot.node)?;
        Ok(spot)
    }

    // The innermost open collection ends.
    fn end(&mut self) -> yaml_c_spot
        ensures { (result, sketch_of self.new) ≡ ended (sketch_of self.old) }
    {
        match self.around.pop() {
            None => yaml_c_spot { node: 0, into: 0 },
            Some(node) => yaml_c_spot { node, into: 0 },
        }
    }

    // The node that a name means.
    fn meant(&self, bytes: &[u8], step: yaml_c_step) -> Option<i32>
        ensures { result ≡ meant_by (name_at bytes.now step) (sketch_of self.now).names }
    {
        meant(&self.names, spot_name(bytes, step)?)
    }

    // An alias means the node that has its name.
    fn stand(&self, bytes: &[u8], step: yaml_c_step) -> Option<yaml_c_spot>
        ensures { option_map (λ x. (x, sketch_of self.now)) result ≡ stood (name_at bytes.now step)
            (sketch_of self.now) }
    {
        let node = self.meant(bytes, step)?;
        Some(yaml_c_spot {
            node,
            into: self.innermost(),
        })
    }

    // What an event comes to; nothing for an alias that no node before it has the name of.
    #[tactic(auto, unfolding(crate::specs::Composing::drawn))]
    fn draw(&mut self, bytes: &[u8], step: yaml_c_step) -> Result<Option<yaml_c_spot>, AllocError>
        ensures { Draws (drawn step.kind (name_at bytes.now step) (sketch_of self.old)) result
            (sketch_of self.new) }
    {
        match step.kind {
            5 => Ok(self.stand(bytes, step)),
            6 => Ok(Some(self.begin(bytes, step)?)),
            7 | 9 => Ok(Some(self.open_node(bytes, step)?)),
            8 | 10 => Ok(Some(self.end())),
            _ => Ok(Some(yaml_c_spot { node: 0, into: 0 })),
        }
    }
}

// From now on the name of a record is that of a node.
fn note_name(
    alloc: Global,
    names: &mut Names,
    bytes: &[u8],
    step: yaml_c_step,
    node: i32,
) -> Result<(), AllocError>
    ensures { OnOk result (names_of names.new ≡ named (name_at bytes.now step) node
        (names_of names.old)) }
{
    match spot_name(bytes, step) {
        None => Ok(()),
        Some(name) => note(names, Vec::from_slice(alloc, name)?, node),
    }
}

/// Which node each event is of, and which collection takes it, before their end or an alias that no node before it has the name of, and
/// whether none is such an alias.
pub fn compose_steps(
    alloc: Global,
    bytes: &[u8],
    steps: &[yaml_c_step],
) -> Result<(Vec<yaml_c_spot>, bool), AllocError>
    ensures { IfOk result (λ c. (c.0.items, c.1) ≡ all_drawn bytes.now steps.now fresh_sketch) }
{
    let mut sketching = Sketching::new(alloc);
    let mut spots = Vec::with_capacity(alloc, steps.len())?;
    for step in steps {
        match sketching.draw(bytes, *step)? {
            None => return Ok((spots, false)),
            Some(spot) => spots.push(spot)?,
        }
    }
    Ok((spots, true))
}
