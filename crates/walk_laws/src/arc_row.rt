//! The arcs of a node as a search reads them, in half the room where all weights are small enough.
ghost use Rattle.std.specs.Prelude.{◌≡◌, [], map, IfOk, IfSome};
ghost use Rattle.walk_laws.specs.ArcRows.{widened as widened_arc, AreNarrowed};

use crate::graph::Arc;
use std::alloc::{AllocError, Global};

/// An arc whose weight is below 2^32, in half the room of an [`Arc`]: the node at the other end, a number from 1, and the
/// weight.
#[derive(Clone, Copy, Debug)]
pub struct NarrowArc {
    to: u32,
    w: u32,
}

/// An arc in whatever room. Contracts see the [`Arc`].
pub trait AnyArc {
    ghost use Rattle.std.specs.Prelude.{◌≡◌};
    ghost use Rattle.walk_laws.specs.declared.graph.Arc.{Arc};

    /// The arc in full room.
    ghost arc: { Self → Arc };

    /// The arc in full room.
    fn widened(&self) -> Arc
        ensures { result ≡ arc self.now };
}

impl AnyArc for Arc {
    ghost arc = { λ a. a };

    fn widened(&self) -> Arc
        ensures { result ≡ self.now }
    {
        *self
    }
}

impl AnyArc for NarrowArc {
    ghost use Rattle.walk_laws.specs.ArcRows.{widened};

    ghost arc = { λ a. widened a };

    fn widened(&self) -> Arc
        ensures { result ≡ widened_arc self.now }
    {
        Arc {
            to: self.to,
            w: u64::from(self.w),
        }
    }
}

/// The arcs of a node, in the room in which the graph has them for a search.
#[derive(Debug, Drop)]
pub enum ArcRow<'a> {
    Narrow(&'a [NarrowArc]),
    Wide(&'a [Arc]),
}

/// The arcs of all nodes of a graph, in half the room; or none at all.
#[derive(Debug, Drop)]
pub struct NarrowArcs {
    /// By rising node and then by rising neighbour.
    pub arcs: Vec<NarrowArc>,
    /// Where the arcs of each node begin, as the graph has it.
    pub starts: Vec<u32>,
}

impl NarrowArcs {
    /// None at all.
    pub fn none(alloc: Global) -> NarrowArcs
        ensures { result.starts.items ≡ [] }
    {
        NarrowArcs {
            arcs: Vec::new(alloc),
            starts: Vec::new(alloc),
        }
    }

    /// These arcs, of which those of each node begin at a start; none where a weight or a start is too great. The only error
    /// is that memory ran out.
    pub fn of(alloc: Global, arcs: &[Arc], starts: &[usize]) -> Result<NarrowArcs, AllocError>
        ensures { IfOk result (λ narrow. AreNarrowed narrow.arcs.items narrow.starts.items arcs.now starts.now) }
    {
        let Some(arcs) = narrow_arcs(alloc, arcs)? else {
            return Ok(NarrowArcs::none(alloc));
        };
        let Some(starts) = narrow_starts(alloc, starts)? else {
            return Ok(NarrowArcs::none(alloc));
        };
        Ok(NarrowArcs { arcs, starts })
    }
}

/// The arcs in half the room, or None where a weight is too great. The only error is that memory ran out.
fn narrow_arcs(alloc: Global, arcs: &[Arc]) -> Result<Option<Vec<NarrowArc>>, AllocError>
    ensures { IfOk result (λ narrow. IfSome narrow (λ narrow. map (λ a. widened_arc a) narrow.items ≡ arcs.now)) }
{
    let mut narrow = Vec::with_capacity(alloc, arcs.len())?;
    for arc in arcs {
        let Ok(w) = u32::try_from(arc.w) else {
            return Ok(None);
        };
        narrow.push(NarrowArc { to: arc.to, w })?;
    }
    Ok(Some(narrow))
}

/// The starts in half the room, or None where one is too great. The only error is that memory ran out.
fn narrow_starts(alloc: Global, starts: &[usize]) -> Result<Option<Vec<u32>>, AllocError>
    ensures { IfOk result (λ narrow. IfSome narrow (λ narrow. narrow.items ≡ starts.now)) }
{
    let mut narrow = Vec::with_capacity(alloc, starts.len())?;
    for start in starts {
        let Ok(start) = u32::try_from(*start) else {
            return Ok(None);
        };
        narrow.push(start)?;
    }
    Ok(Some(narrow))
}
