/// What a draw answers: the position of a root, from 0, or that none is left.
#[derive(Clone, Copy, Debug, PartialEq, Eq)]
pub enum Claim {
    Root(u32),
    End,
}
