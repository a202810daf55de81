use std::cmp::Reverse;

/// Where a list is looked at next. Of two cursors the greater is the one with the lesser key.
#[derive(Clone, Copy, Debug)]
#[derive_where(PartialEq, Eq, PartialOrd, Ord)]
pub struct Cursor {
    /// The distance by the list's hub, before the point: the one times 2^32, and the other.
    pub key: Reverse<u128>,
    /// The place among all words, from 0.
    #[derive_where(skip(EqHashOrd))]
    pub at: usize,
}
