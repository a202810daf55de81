ghost use Rattle.std.specs.Prelude.{◌≡◌};
ghost use Rattle.frontier.specs.Reaches.{improves};

/// What has been found of a node: the least distance that it was offered, and what the offers at that distance carry.
#[derive(Clone, Copy, Debug, PartialEq, Eq)]
pub struct Found<C> {
    pub dist: u128,
    pub carried: C,
}

/// How far a search has come with a node.
#[derive(Clone, Copy, Debug, PartialEq, Eq)]
pub enum Reach<C> {
    /// No offer came yet.
    Unreached,
    /// It was offered, and not taken yet.
    Queued(Found<C>),
    /// It was taken, and later offers change nothing.
    Settled(Found<C>),
}

impl<C> Reach<C> {
    /// Whether an offer to the node at this distance can change anything: not where the node is settled, or queued at a
    /// shorter distance. What such an offer would carry need not be known.
    pub fn improves(&self, dist: u128) -> bool
        ensures { result ≡ improves self.now dist }
    {
        match self {
            Reach::Unreached => true,
            Reach::Queued(best) => dist <= best.dist,
            Reach::Settled(_) => false,
        }
    }
}
