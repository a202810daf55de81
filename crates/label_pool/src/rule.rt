//! The rule of a pool: what a seat knows, and what its steps change. The definitions stand in `specs/Lawful`.
use atomic_table::{Play, TableRule};
use std::collections::LinkedList;
use table_seats::{SeatView, Sees, Shares};
use walk_laws::Entry;

/// What every entry of a pool is to meet. It has one meaning and no call: a fact of a node, a number from 1, and an entry,
/// over what the pool's value of it holds, which has no bytes.
pub trait LinkFact: Drop {
    ghost use Rattle.std.specs.Prelude.{ℕ};
    ghost use Rattle.walk_laws.specs.declared.entry.Entry.{Entry};

    ghost fact: { Self → ℕ → Entry → Type 0 };
}

/// What is fixed when a pool is made: how many nodes, cells and seats there are, in how many blocks the cells are drawn and
/// how many are in each, and the value of its fact.
#[derive(Drop)]
pub struct About<F: LinkFact> {
    pub n: u32,
    pub cells: u32,
    pub blocks: u32,
    pub block: u32,
    pub seats: u32,
    pub fact: F,
}

/// A cell, a number from 0, with its entry. No value of it is made.
pub struct Linked {
    pub cell: u32,
    pub entry: Entry,
}

/// A cell that was linked at a node, a number from 1. No value of it is made.
pub struct Put {
    pub node: u32,
    pub linked: Linked,
}

/// A node, a number from 1, and the chain that was found there, newest first. No value of it is made.
pub struct Look {
    pub node: u32,
    pub found: LinkedList<Linked>,
}

/// A cell, a number from 0, that is filled and not linked yet, and what was stored in its words. No value of it is made.
pub struct Filling {
    pub cell: u32,
    /// The word with the name of the next cell and the position.
    pub next: Option<u64>,
    pub dist: Option<u64>,
}

/// What a seat at a pool knows. No value of it is made.
pub struct View<F> {
    pub n: u32,
    pub cells: u32,
    /// How many cells a block has.
    pub block: u32,
    /// How many seats the pool has.
    pub all: u32,
    pub fact: Option<F>,
    /// The blocks, numbers from 0, that it drew, with those of the seats that were joined into it.
    pub blocks: LinkedList<u32>,
    /// The cells of its last block that it has not opened yet.
    pub reserve: LinkedList<u32>,
    /// The cells that were left to the seats that were joined into it, which nobody uses.
    pub spare: LinkedList<u32>,
    /// The cell that it has opened and not linked yet.
    pub filling: Option<Filling>,
    /// The cells that it linked, and those of the seats that were joined into it.
    pub puts: LinkedList<Put>,
    /// What it found at each of its visits, with those of the seats that were joined into it.
    pub looks: LinkedList<Look>,
    /// The chain of a node as its own visit found it or its own put left it, newest first, and at the end those of
    /// the seat that it was split from. A join adds none.
    pub marks: LinkedList<Look>,
    /// The number of a cell past the cells that it drew; or that of a seat from which it was split, or with which it was
    /// joined.
    pub past: Option<u64>,
}

pub struct Law;

impl<F: LinkFact> TableRule<(), SeatView<View<F>>, About<F>> for Law {
    ghost use Rattle.label_pool.specs.Lawful.{IsLawful, first_view};

    ghost holds = { IsLawful F.fact };

    ghost first = { first_view };
}

/// A block of cells is drawn, or a number past the blocks.
pub struct Draws;

impl<F: LinkFact> Play<(), SeatView<View<F>>> for Draws {
    ghost use Rattle.label_pool.specs.Steps.{Drew};

    ghost then = { Drew };
}

/// A word of the open cell is filled: that with the name of the next cell and the position.
pub struct FillsNext;

impl<F: LinkFact> Play<(), SeatView<View<F>>> for FillsNext {
    ghost use Rattle.label_pool.specs.Steps.{FilledNext};

    ghost then = { FilledNext };
}

/// The first cell in reserve is opened: the distance is stored in its word.
pub struct Opens;

impl<F: LinkFact> Play<(), SeatView<View<F>>> for Opens {
    ghost use Rattle.label_pool.specs.Steps.{Opened};

    ghost then = { Opened };
}

/// The head of a node is loaded: a visit begins.
pub struct Finds;

impl<F: LinkFact> Play<(), SeatView<View<F>>> for Finds {
    ghost use Rattle.label_pool.specs.Steps.{Found};

    ghost then = { Found F.fact };
}

/// The open cell is linked before a chain, where its head is the one that was expected.
pub struct Links;

impl<F: LinkFact> Play<(), SeatView<View<F>>> for Links {
    ghost use Rattle.label_pool.specs.Steps.{LinkedTo};

    ghost then = { LinkedTo };
}

/// A word of a cell is loaded, in a chain that was found.
pub struct Reads;

impl<F: LinkFact> Play<(), SeatView<View<F>>> for Reads {
    ghost use Rattle.label_pool.specs.Steps.{Read};

    ghost then = { Read };
}

/// A split seat has drawn, put and found nothing, and has the marks of the other one; a join puts together what both drew, put
/// and found, and keeps the marks and the reserve of the one that stays.
pub struct Handing;

impl<F> Shares<View<F>> for Handing {
    ghost use Rattle.label_pool.specs.Lawful.{given, both, nothing};

    ghost given = { given };

    ghost both = { both };

    ghost nothing = { nothing };
}

impl<F> Sees<View<F>> for Handing {
    ghost use Rattle.label_pool.specs.Steps.{SeesNothing};

    ghost sees = { SeesNothing };
}
