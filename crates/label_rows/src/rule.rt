//! The rule of the rows: what a seat knows, and what its steps change. The definitions stand in `specs/Lawful`.
use atomic_table::{Play, TableRule};
use hub_index::Row;
use rank_table::Ranking;
use std::collections::LinkedList;
use std::snapshot::Snapshot;
use table_seats::{SeatView, Sees, Shares};
use walk_laws::{Edge, Entry, Graph};

/// What is fixed when rows are made: the graph and the ranking, without bytes, and how many seats there are.
#[derive(Drop)]
pub struct About {
    pub graph: Snapshot<Graph>,
    pub ranking: Snapshot<Ranking>,
    pub seats: u32,
}

/// A node, a number from 1, whose lock a seat has, and the row that it found. No value of it is made.
pub struct Held {
    pub node: u32,
    pub row: LinkedList<Entry>,
}

/// What a seat did at a node, a number from 1: the row that it found, and the entry that it put after it, or none. No value
/// of it is made.
pub struct Visit {
    pub node: u32,
    pub found: LinkedList<Entry>,
    pub put: Option<Entry>,
}

/// What a seat at the rows knows. No value of it is made.
pub struct View {
    pub edges: LinkedList<Edge>,
    pub order: LinkedList<u32>,
    /// How many seats the rows have.
    pub all: u32,
    pub hold: Option<Held>,
    /// What it did, and what the seats did that were joined into it.
    pub visits: LinkedList<Visit>,
}

pub struct Law;

impl TableRule<Row, SeatView<View>, About> for Law {
    ghost use Rattle.label_rows.specs.Lawful.{IsLawful, first_view};

    ghost holds = { IsLawful };

    ghost first = { first_view };
}

/// The lock of a node is taken, where it was free.
pub struct Takes;

impl Play<Row, SeatView<View>> for Takes {
    ghost use Rattle.label_rows.specs.Lawful.{Took};

    ghost then = { Took };
}

/// The lock of a node is given back, and its row is at home again.
pub struct Gives;

impl Play<Row, SeatView<View>> for Gives {
    ghost use Rattle.label_rows.specs.Lawful.{Gave};

    ghost then = { Gave };
}

/// A split seat has no lock and made no visit; a join puts the visits of both seats together.
pub struct Handing;

impl Shares<View> for Handing {
    ghost use Rattle.label_rows.specs.Lawful.{fresh, both, nothing};

    ghost given = { fresh };

    ghost both = { both };

    ghost nothing = { nothing };
}

impl Sees<View> for Handing {
    ghost use Rattle.label_rows.specs.Lawful.{SeesNothing};

    ghost sees = { SeesNothing };
}
