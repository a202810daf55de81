/// What a seat at a table knows: how many seats it counts for, and whatever the table's own rule speaks of. No value of it
/// is made.
pub struct SeatView<W> {
    /// This seat and those that may still be split from it. None once it was joined into another.
    pub seats: u32,
    pub knows: W,
}
