//! The lengths of edges as a ranking counts them.
use path_cover::FAR;
use walk_laws::{Arc, Graph};

/// No edge is longer than this.
const LONGEST: u64 = 16_777_216;

/// The unit in which lengths are counted, in which no edge is longer than [`LONGEST`]: a ranking needs no exact lengths. It is
/// 1 in nearly all graphs.
pub fn unit_of(graph: &Graph) -> u64 {
    let mut greatest = 0;
    for edge in graph.edges() {
        greatest = edge.w.max(greatest);
    }
    greatest / LONGEST + 1
}

/// The length of an arc in a unit, at least 1.
pub fn length_in(arc: Arc, unit: u64) -> u32 {
    let length = if unit > 1 { arc.w / unit } else { arc.w };
    u32::try_from(length).unwrap_or(FAR).max(1)
}
