use crate::roads::Roads;
use crate::witness::{Shortcut, Witnesses};
use path_cover::key_of;
use std::alloc::{AllocError, Global};
use std::thread::{self, Threads};

/// A node of more neighbours is not contracted.
pub const MOST_NEIGHBOURS: usize = 24;

/// In so many parts the nodes are looked at first, side by side.
const PARTS: usize = 8;

/// What it costs to contract a node of a level: how high it stands above those that were contracted, and how many shortcuts it
/// needs for each road that it takes away. None where it has too many neighbours. Its shortcuts are then in `cuts`.
pub fn cost_of(
    roads: &Roads,
    node: u32,
    level: u32,
    witnesses: &mut Witnesses,
    cuts: &mut Vec<Shortcut>,
) -> Result<Option<u32>, AllocError> {
    let many = roads.row(node).len();
    if many > MOST_NEIGHBOURS {
        return Ok(None);
    }
    witnesses.shortcuts(roads, node, cuts)?;
    let height = level.saturating_mul(1000);
    Ok(Some(height.saturating_add(thousandths(cuts.len(), many))))
}

/// Four times the number of shortcuts for each road, in thousandths.
fn thousandths(cuts: usize, roads: usize) -> u32 {
    if roads == 0 {
        return 0;
    }
    u32::try_from(cuts.saturating_mul(4000) / roads).unwrap_or(u32::MAX)
}

/// The keys of the nodes 1..n with what it costs to contract each of them first, none of those that have too many neighbours.
/// They stand by rising node.
pub fn first_keys<R: Threads + Sync>(
    rt: &R,
    alloc: Global,
    roads: &Roads,
    n: u32,
) -> Result<Vec<u64>, AllocError> {
    let parts = thread::map_indices(
        rt,
        alloc,
        PARTS,
        &|part: usize| -> Result<Vec<u64>, AllocError> { keys_of_part(alloc, roads, n, part) },
    )?;
    let mut keys = Vec::new(alloc);
    for part in parts {
        keys.extend_from_slice(&part?)?;
    }
    Ok(keys)
}

/// The keys of the nodes of a part.
fn keys_of_part(alloc: Global, roads: &Roads, n: u32, part: usize) -> Result<Vec<u64>, AllocError> {
    let mut witnesses = Witnesses::new(alloc, n)?;
    let mut cuts = Vec::new(alloc);
    let mut keys = Vec::new(alloc);
    for k in border(n, part)..border(n, part.saturating_add(1)) {
        let node = k.saturating_add(1);
        if let Some(cost) = cost_of(roads, node, 0, &mut witnesses, &mut cuts)? {
            keys.push(key_of(cost, node))?;
        }
    }
    Ok(keys)
}

/// How many of the nodes 1..n stand before those of a part.
fn border(n: u32, part: usize) -> u32 {
    let before = u64::from(n).saturating_mul(part as u64) / PARTS as u64;
    u32::try_from(before).unwrap_or(n).min(n)
}
