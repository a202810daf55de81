use crate::lengths::{length_in, unit_of};
use path_cover::{CoreRoads, FAR, Road, number_at, set_number};
use std::alloc::{AllocError, Global};
use std::mem;
use walk_laws::{Arc, Graph};

/// A row of up to so many roads is exact: it has no two to one node, and none to a node that was taken out. Longer ones are
/// put right now and then, so that a node of many roads costs no more than others.
const EXACT: usize = 128;

/// The roads of each node, at its number, while nodes are taken out of the graph.
#[derive(Drop)]
pub struct Roads {
    alloc: Global,
    rows: Vec<Vec<Road>>,
    /// How often a row that isn't exact was changed since it was put right.
    changes: Vec<u32>,
    gone: Vec<bool>,
}

impl Roads {
    /// The roads of a graph: to each neighbour of a node the lightest one.
    pub fn new(alloc: Global, graph: &Graph) -> Result<Roads, AllocError> {
        let n = graph.n();
        let unit = unit_of(graph);
        let mut rows = Vec::with_capacity(alloc, n as usize + 1)?;
        rows.push(Vec::new(alloc))?;
        for k in 0..n {
            rows.push(lightest_roads(alloc, graph.arcs(k + 1), k + 1, unit)?)?;
        }
        Ok(Roads {
            alloc,
            rows,
            changes: vec![in alloc; 0u32; n as usize + 1]?,
            gone: vec![in alloc; false; n as usize + 1]?,
        })
    }

    /// The roads of a node.
    #[inline(always)]
    pub fn row(&self, node: u32) -> &[Road] {
        match self.rows.get(node as usize) {
            Some(row) => row.as_slice(),
            None => &[],
        }
    }

    /// Whether a node was taken out.
    pub fn is_gone(&self, node: u32) -> bool {
        !stands(&self.gone, node)
    }

    /// Takes a node out with its roads, and answers these.
    pub fn take_out(&mut self, node: u32) -> Result<Vec<Road>, AllocError> {
        let place = node as usize;
        if place >= self.rows.len() || place >= self.gone.len() {
            return Ok(Vec::new(self.alloc));
        }
        self.gone[place] = true;
        let row = mem::replace(&mut self.rows[place], Vec::new(self.alloc));
        for road in row.as_slice() {
            self.forget(road.to, node);
        }
        Ok(row)
    }

    /// Takes the road to a node that is taken out from the row of another one.
    fn forget(&mut self, node: u32, neighbour: u32) {
        let place = node as usize;
        if place >= self.rows.len() {
            return;
        }
        if self.rows[place].len() > EXACT {
            self.note_change(node);
            return;
        }
        let k = place_of_road(&self.rows[place], neighbour);
        if k < self.rows[place].len() {
            self.rows[place].swap_remove(k);
        }
    }

    /// Puts a road between two nodes, unless one that is as short is there.
    pub fn join(&mut self, one: u32, other: u32, length: u32) -> Result<(), AllocError> {
        self.put(one, Road { to: other, length })?;
        self.put(other, Road { to: one, length })
    }

    fn put(&mut self, node: u32, road: Road) -> Result<(), AllocError> {
        let place = node as usize;
        if place >= self.rows.len() {
            return Ok(());
        }
        if self.rows[place].len() > EXACT {
            self.rows[place].push(road)?;
            self.note_change(node);
            return Ok(());
        }
        let k = place_of_road(&self.rows[place], road.to);
        if k < self.rows[place].len() {
            let length = self.rows[place][k].length.min(road.length);
            self.rows[place][k] = Road {
                to: road.to,
                length,
            };
            return Ok(());
        }
        self.rows[place].push(road)?;
        Ok(())
    }

    /// Counts a change of a row that isn't exact, and puts it right where there were many.
    fn note_change(&mut self, node: u32) {
        let place = node as usize;
        if place >= self.changes.len() || place >= self.rows.len() {
            return;
        }
        let changes = self.changes[place].saturating_add(1);
        self.changes[place] = changes;
        if changes as usize > self.rows[place].len() / 2 {
            self.put_right(node);
        }
    }

    /// Leaves of a row the shortest road to each node, and none to a node that was taken out.
    pub fn put_right(&mut self, node: u32) {
        let place = node as usize;
        if place >= self.changes.len() || place >= self.rows.len() {
            return;
        }
        self.changes[place] = 0;
        let mut row = mem::replace(&mut self.rows[place], Vec::new(self.alloc));
        row.sort_unstable_by_key(|road| (road.to, road.length));
        row.dedup_by_key(|road| road.to);
        let gone = self.gone.as_slice();
        row.retain(|road| stands(gone, road.to));
        self.rows[place] = row;
    }

    /// The roads among the nodes of a core, to which all others were contracted: each node is there its place in this list.
    pub fn among(&self, core: &[u32]) -> Result<CoreRoads, AllocError> {
        let mut places = vec![in self.alloc; 0u32; self.rows.len()]?;
        for (place, node) in core.iter().enumerate() {
            set_number(&mut places, *node, u32::try_from(place).unwrap_or(0));
        }
        let mut small = CoreRoads::new(self.alloc)?;
        let mut row = Vec::new(self.alloc);
        for node in core {
            for road in self.row(*node) {
                let to = number_at(&places, road.to, 0);
                row.push(Road {
                    to,
                    length: road.length,
                })?;
            }
            small.push_row(&mut row)?;
        }
        Ok(small)
    }
}

/// The place of the road to a node in a row, or the length of the row where there is none.
fn place_of_road(row: &[Road], to: u32) -> usize {
    for (k, road) in row.iter().enumerate() {
        if road.to == to {
            return k;
        }
    }
    row.len()
}

/// Whether a node was not taken out.
fn stands(gone: &[bool], node: u32) -> bool {
    match gone.get(node as usize) {
        Some(gone) => !*gone,
        None => false,
    }
}

/// The shortest road to each neighbour of a node, none to itself. The arcs stand by rising neighbour.
fn lightest_roads(
    alloc: Global,
    arcs: &[Arc],
    node: u32,
    unit: u64,
) -> Result<Vec<Road>, AllocError> {
    let mut row: Vec<Road> = Vec::with_capacity(alloc, neighbours_of(arcs, node))?;
    let mut best = Road { to: 0, length: FAR };
    for arc in arcs {
        if arc.to == node {
            continue;
        }
        let length = length_in(*arc, unit);
        if arc.to == best.to {
            best.length = best.length.min(length);
            continue;
        }
        if best.to > 0 {
            row.push(best)?;
        }
        best = Road { to: arc.to, length };
    }
    if best.to > 0 {
        row.push(best)?;
    }
    Ok(row)
}

/// How many neighbours a node has, itself left out. The arcs stand by rising neighbour.
pub fn neighbours_of(arcs: &[Arc], node: u32) -> usize {
    let mut count = 0usize;
    let mut last = 0;
    for arc in arcs {
        if arc.to != node && arc.to != last {
            count = count.saturating_add(1);
            last = arc.to;
        }
    }
    count
}
