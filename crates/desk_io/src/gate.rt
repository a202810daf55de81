/// Watches a build from outside; it has no meaning and no answer.
pub trait Gate {
    /// Called when a worker has claimed the root at position `p`.
    fn begins(&self, p: u32);

    /// Called after the tree of the root at position `p`, with the number of entries that it put.
    fn ends(&self, p: u32, puts: u32);
}

/// The gate that does nothing.
#[derive(Clone, Copy, Debug)]
pub struct FreeGate;

impl Gate for FreeGate {
    fn begins(&self, _p: u32) {}

    fn ends(&self, _p: u32, _puts: u32) {}
}
