/// What became of a put: the entry was put; or no block was left to draw, where the first cell of the one that was drawn
/// would be `cell`, a number from 0, and there are `cells`. Other seats may have cells in reserve then.
#[derive(Clone, Copy, Debug, PartialEq, Eq)]
pub enum PoolPut {
    Put,
    Full { cell: u64, cells: u32 },
}
