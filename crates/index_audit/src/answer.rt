use thiserror::Error;

/// What the audit of an index found: that it is the canonical hub labelling, or the first thing that is wrong with it.
/// Nodes and hubs are node numbers, from 1. Its text is what the program says of it.
#[derive(Clone, Copy, Debug, PartialEq, Eq, Error)]
pub enum Audit {
    /// The index is the canonical hub labelling of the graph under the ranking.
    #[error("same")]
    Same,
    /// The graph has `graph` nodes, and the index has `index`.
    #[error("graph has {graph} nodes, index has {index}")]
    Sizes { graph: u32, index: u32 },
    /// The rankings have other nodes at `place`, from 0, and the same ones before it.
    #[error("order at place {place}")]
    OrderDiffers { place: u32 },
    /// The row of `v` has another node `hub`, and no neighbour of `v` has it as much nearer as the arc between weighs.
    #[error("no walk for hub {hub} at {v}")]
    NoWalk { v: u32, hub: u32 },
    /// The row of `v` has `hub`, and the rows of `hub` and of the neighbour `to` share no hub that makes the way between
    /// them as short as by `v`. Of such neighbours it is the least.
    #[error("hub {hub} at {v} not covered at {to}")]
    NotCovered { v: u32, to: u32, hub: u32 },
    /// The row of `v` has `hub`, and both rows have the node `by`, which ranks above `hub`, on a way between them that is no
    /// longer. Of such nodes it is the highest-ranked.
    #[error("hub {hub} at {v} redundant by {by}")]
    Redundant { v: u32, hub: u32, by: u32 },
    /// The row of `v` has `hub`, and the via beside isn't `want`: the least neighbour of `v` that has the hub nearer by the weight of
    /// the arc between, or 0 for the entry of `v` itself. Only an index with vias is answered so.
    #[error("hub {hub} at {v} goes by {want}")]
    WrongVia { v: u32, hub: u32, want: u32 },
}
