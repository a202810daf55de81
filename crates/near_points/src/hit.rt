/// A point near to a source.
#[derive(Clone, Copy, Debug, PartialEq, Eq)]
pub struct Hit {
    /// The point, a node number from 1.
    pub node: u32,
    /// Its distance from the source, in the graph's weights.
    pub dist: u128,
}
