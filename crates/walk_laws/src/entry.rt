use crate::dist::Dist;

/// An entry of a label row: the hub's position in the ranking, from 0, and the length of a walk between the hub and the
/// row's node.
#[derive(Clone, Copy, Debug, PartialEq, Eq)]
pub struct Entry {
    pub pos: u32,
    pub dist: Dist,
}
