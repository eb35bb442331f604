//! The prefixes of directives, sorted by their bytes. A tag's bytes narrow, one by one, the part of them that it may begin
//! with: a search takes as many steps as the tag has bytes, each two searches by halves, however many directives there are.
ghost use Rattle.std.specs.Prelude.{◌≡◌, ◌==◌, ◌<◌, ◌≤◌, ℕ, map, length, Some, None, if◌then◌else◌, IfOk, true};
ghost use Rattle.std.specs.List.Sorted.{IsSorted};
ghost use Rattle.yaml_parse_model.specs.Events.{directive_of};
ghost use Rattle.yaml_emit_core.specs.Prefixes.{key, at, entry_of, entry_cmp, smaller, numbered, IsIndex, IsFirstShorter};
ghost use Rattle.yaml_emit_layout.specs.Tags.{has_shorter_prefix};

use std::alloc::{AllocError, Global};
use yaml_scan_model::yaml_tag_directive_t;

/// Whether a tag begins with the prefix, and goes on after it.
pub fn has_shorter_prefix(prefix: &[u8], tag: &[u8]) -> bool
    ensures inside { result ≡ true → length prefix.now < length tag.now }
    ensures value { result ≡ has_shorter_prefix prefix.now tag.now }
{
    if tag.len() <= prefix.len() {
        false
    } else {
        &tag[..prefix.len()] == prefix
    }
}

// The byte after the first `depth` ones, plus one; 0 where there is none.
#[tactic(auto, using(crate::proofs::Sorting::key_within, crate::proofs::Sorting::key_behind))]
fn key(prefix: &[u8], depth: usize) -> u16
    ensures { result ≡ key prefix.now depth }
{
    if depth < prefix.len() {
        prefix[depth] as u16 + 1
    } else {
        0
    }
}

// The number of a prefix that has as many bytes.
fn ended(entry: &(Vec<u8>, usize), depth: usize) -> Option<usize>
    ensures { result ≡ (if length (entry_of entry.now).0 == depth then Some (entry_of entry.now).1
        else None) }
{
    if entry.0.len() == depth {
        Some(entry.1)
    } else {
        None
    }
}

fn smaller(a: Option<usize>, b: Option<usize>) -> Option<usize>
    ensures { result ≡ smaller a b }
{
    match a {
        None => b,
        Some(m) => match b {
            None => a,
            Some(n) => Some(if m <= n { m } else { n }),
        },
    }
}

// Where the first entry with this key or a larger one is, in a part whose keys rise.
fn edge(entries: &[(Vec<u8>, usize)], from: usize, to: usize, depth: usize, least: u16) -> usize
    requires room { from ≤ to }
    requires inside { to ≤ length entries.now }
    requires rises { (i j : ℕ) → from ≤ i → i ≤ j → j < to → key (at (map entry_of entries.now) i).0
        depth ≤ key (at (map entry_of entries.now) j).0 depth }
    ensures from { from ≤ result }
    ensures to { result ≤ to }
    ensures below { (k : ℕ) → from ≤ k → k < result → key (at (map entry_of entries.now) k).0 depth
        < least }
    ensures above { (k : ℕ) → result ≤ k → k < to → least ≤ key (at (map entry_of entries.now) k).0
        depth }
{
    let mut low = from;
    let mut high = to;
    while low < high {
        let middle = low + (high - low) / 2;
        if key(&entries[middle].0, depth) < least {
            low = middle + 1;
        } else {
            high = middle;
        }
    }
    low
}

/// The smallest number of a strictly shorter prefix of the tag.
pub fn first_among(entries: &[(Vec<u8>, usize)], tag: &[u8]) -> Option<usize>
    requires { IsSorted entry_cmp (map entry_of entries.now) }
    ensures { IsFirstShorter (map entry_of entries.now) tag.now (length tag.now) result }
{
    let mut best = None;
    let mut from = 0;
    let mut to = entries.len();
    for depth in 0..tag.len() {
        if from == to {
            return best;
        }
        best = smaller(best, ended(&entries[from], depth));
        let byte = tag[depth] as u16;
        let start = edge(entries, from, to, depth, byte + 1);
        to = edge(entries, start, to, depth, byte + 2);
        from = start;
    }
    best
}

#[tactic(auto, using(crate::proofs::Numbering::numbered_more, crate::proofs::Numbering::numbered_all))]
fn numbered(
    alloc: Global,
    directives: &[yaml_tag_directive_t],
) -> Result<Vec<(Vec<u8>, usize)>, AllocError>
    ensures { IfOk result (λ es. map entry_of es.items ≡ numbered 0
        (map directive_of directives.now)) }
{
    let mut entries = Vec::new(alloc);
    for i in 0..directives.len() {
        let prefix = Vec::from_slice(alloc, &directives[i].prefix)?;
        entries.push((prefix, i))?;
    }
    Ok(entries)
}

/// The prefixes of directives with their numbers, by their bytes, equal ones by their numbers.
pub fn index_of(
    alloc: Global,
    directives: &[yaml_tag_directive_t],
) -> Result<Vec<(Vec<u8>, usize)>, AllocError>
    ensures { IfOk result (λ es. IsIndex (map directive_of directives.now)
        (map entry_of es.items)) }
{
    let mut entries = numbered(alloc, directives)?;
    entries.sort()?;
    Ok(entries)
}
