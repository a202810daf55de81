/// What two rows of an index say of their nodes.
#[derive(Clone, Copy, Debug, PartialEq, Eq)]
pub enum Answer {
    /// The rows share no hub.
    Far,
    /// The least sum of the distances to a hub that both rows have, in the graph's weights, and the highest-ranked hub of
    /// that sum, a node number from 1.
    Near { hub: u32, dist: u128 },
}
