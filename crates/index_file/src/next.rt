use crate::done::Done;
use crate::naming::Naming;
use crate::part_row::PartRow;
use walk_laws::Entry;

/// Which field is the next one, with what the fields before it came to.
#[derive(Drop)]
pub enum Next {
    /// One of the seven letters.
    Letter,
    /// The version.
    Version,
    /// The number of nodes, of an index with vias or without.
    Size(bool),
    /// A node of the order.
    Node(Naming),
    /// The number of entries of the row after those that are done.
    Count(Done),
    /// The position of the entry after those of this row.
    Position(Done, PartRow),
    /// The distance of the entry that has this position.
    Distance(Done, PartRow, u32),
    /// The via of this entry, of an index with vias.
    Via(Done, PartRow, Entry),
    /// The end of the index; there is no field more.
    End(Done),
}
