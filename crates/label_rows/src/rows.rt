ghost use Rattle.std.specs.Prelude.{◌≡◌, ◌+◌, ◌<◌, ◌≤◌, ◌++◌, ◌^◌, [], All, IsPermutation, IfOk, length, replicate, vec_len, ℕ};
ghost use Rattle.std.specs.Slots.{IsFull, slots_items, slots_len};
ghost use Rattle.walk_laws.specs.Joined.{Joined};
ghost use Rattle.walk_laws.specs.Labelling.{EntryFits, label_row};
ghost use Rattle.hub_index.specs.Views.{IsNode, GoesOnFrom};
ghost use Rattle.label_rows.specs.Seats.{IsSeatOf};
ghost use Rattle.label_rows.specs.Visits.{left_by, puts_of, seen_of, visits_of};

use crate::rule::{About, Handing, Law, View};
use crate::seat::RowSeat;
use atomic_table::{Closed, Table};
use hub_index::{Row, RowList};
use rank_table::Ranking;
use std::alloc::{AllocError, Global};
use std::marker::Model;
use std::snapshot::Snapshot;
use table_seats::{SeatView, join_in, split_off};
use walk_laws::{Entry, Graph};

/// A row of entries for each node of a graph under a ranking, which many workers write. Each row has a lock: a seat that
/// has it reads the row and puts an entry after it, and no other seat does anything to the row. Contracts see which table
/// it is, the edges, the order of the nodes and how many seats there are.
///
/// ```text
/// let (rows, mut one) = Rows::new(alloc, &graph, &ranking, 2)?;
/// let two = rows.split(&mut one, 0);
/// let mut hand = RowHand::new(rt, &rows, two);
/// grow(alloc, &graph, &ranking, 0, &mut hand, &mut work)?;        // in one thread, and the same with `one` in another
/// rows.join(&mut one, hand.into_seat());
/// let raw = rows.close(one)?;
/// ```
#[derive(Drop)]
pub struct Rows {
    pub(crate) table: Table<Row, SeatView<View>, About, Law, Global>,
    pub(crate) alloc: Global,
    n: u32,
}

impl Model for Rows {
    ghost use Rattle.std.specs.Prelude.{◌≡◌, ◌+◌, length};
    ghost use Rattle.label_rows.specs.Lawful.{first_known};
    ghost use Rattle.label_rows.specs.Seats.{RowsId, rows_id};

    ghost Value = { RowsId };

    ghost view = { λ r. rows_id r.table.shared.table_id (first_known r.table.shared.key) };

    ghost invariant = { λ r.
        (r.table.shared.table_id.words ≡ r.n + 1)
        × (r.table.shared.table_id.slots ≡ r.n)
        × (length r.table.shared.key.ranking.value ≡ r.n) };
}

impl Rows {
    /// An empty row for each node of the graph, and the first seat, from which `seats - 1` may be split. The graph and the
    /// ranking are kept for contracts alone, without bytes. The only error is that memory ran out.
    pub fn new(
        alloc: Global,
        graph: &Graph,
        ranking: &Ranking,
        seats: u32,
    ) -> Result<(Rows, RowSeat), AllocError>
        requires size { length ranking.now ≡ graph.now.n }
        requires seats { (1 ≤ seats) × (seats ≤ 64) }
        ensures edges { IfOk result (λ made. made.0.edges ≡ graph.now.edges) }
        ensures order { IfOk result (λ made. made.0.order ≡ ranking.now) }
        ensures seats { IfOk result (λ made. made.0.seats ≡ seats) }
        ensures seat { IfOk result (λ made. IsSeatOf made.0 made.1) }
        ensures left { IfOk result (λ made. made.1.left + 1 ≡ seats) }
        ensures visits { IfOk result (λ made. made.1.visits ≡ []) }
    {
        let n = ranking.n();
        let words = vec![in alloc; 0u64; n as usize + 1]?;
        let slots = roomy_rows(alloc, n)?;
        let about = About {
            graph: Snapshot::of(graph),
            ranking: Snapshot::of(ranking),
            seats,
        };
        let Ok((table, seat)) = Table::new(alloc, words.as_slice(), slots, &about) else {
            return Err(AllocError);
        };
        let left = seats - 1;
        Ok((Rows { table, alloc, n }, RowSeat { seat, left }))
    }

    /// Splits a new seat off, from which `give` more may be split; the old one loses those and one for the new seat
    /// itself. It takes no memory and never waits.
    pub fn split(&self, seat: &mut RowSeat, give: u32) -> RowSeat
        requires seat { IsSeatOf self.now seat.old }
        requires enough { give < seat.old.left }
        ensures seat { IsSeatOf self.now seat.new }
        ensures left { seat.new.left + give + 1 ≡ seat.old.left }
        ensures visits { seat.new.visits ≡ seat.old.visits }
        ensures new_seat { IsSeatOf self.now result }
        ensures new_left { result.left ≡ give }
        ensures new_visits { result.visits ≡ [] }
    {
        let given = split_off::<Handing, _, _, _, _>(&self.table.shared, &mut seat.seat, give);
        seat.left -= give + 1;
        RowSeat {
            seat: given,
            left: give,
        }
    }

    /// Joins the other seat into this one, which gains its visits and what may be split from it. It takes no memory and
    /// never waits.
    pub fn join(&self, seat: &mut RowSeat, other: RowSeat)
        requires seat { IsSeatOf self.now seat.old }
        requires other { IsSeatOf self.now other }
        ensures seat { IsSeatOf self.now seat.new }
        ensures left { seat.new.left ≡ seat.old.left + other.left + 1 }
        ensures visits { seat.new.visits ≡ seat.old.visits ++ other.visits }
    {
        let RowSeat { seat: spent, left } = other;
        join_in::<Handing, Handing, _, _, _, _>(&self.table.shared, &mut seat.seat, spent);
        seat.left += left + 1;
    }

    /// The raw rows, by the last seat, into which all others were joined: in each row the entries that the seats put there,
    /// each once and nothing else. It is the longest that a visit left, what each visit left still stands in it, and each of
    /// its entries may stand there. The only
    /// error is that memory ran out, and then the rows are given up.
    pub fn close(self, seat: RowSeat) -> Result<RowList, AllocError>
        requires seat { IsSeatOf self seat }
        requires last { seat.left + 1 ≡ self.seats }
        ensures size { IfOk result (λ rows. length rows ≡ length self.order) }
        ensures puts { IfOk result (λ rows. (v : ℕ) → IsNode (length self.order) v → IsPermutation (puts_of seat.visits v) (label_row rows v)) }
        ensures seen { IfOk result (λ rows. (v : ℕ) → IsNode (length self.order) v → label_row rows v ≡ seen_of seat.visits v) }
        ensures visited { IfOk result (λ rows. (v : ℕ) → IsNode (length self.order) v → All (λ x. GoesOnFrom (left_by x) (label_row rows v)) (visits_of seat.visits v)) }
        ensures fit { IfOk result (λ rows. (v : ℕ) → IsNode (length self.order) v → All (EntryFits (Joined self.edges) self.order v) (label_row rows v)) }
    {
        let Rows { table, alloc, n } = self;
        let RowSeat { seat, left: _ } = seat;
        let rows = empty_rows(alloc, n)?;
        let closed = table.close_with(seat);
        let list = entries_of(alloc, taken_out(closed, rows))?;
        Ok(list)
    }
}

// The rows out of their slots, in the place of as many others. It takes no memory.
fn taken_out(mut closed: Closed<Row, Global>, rows: Vec<Row>) -> Vec<Row>
    requires full { IsFull closed.slots }
    requires size { vec_len rows ≡ slots_len closed.slots }
    ensures { result.items ≡ slots_items closed.slots }
{
    let mut rows = rows;
    for place in 0..rows.len() {
        rows[place] = closed.take(place);
    }
    closed.free();
    rows
}

// The entries of the rows, in just the room that they take. The only error is that memory ran out.
fn entries_of(alloc: Global, rows: Vec<Row>) -> Result<RowList, AllocError>
    requires { vec_len rows < 2 ^ 32 }
    ensures { IfOk result (λ list. list ≡ rows.items) }
{
    let mut list = Vec::with_capacity(alloc, rows.len())?;
    for row in rows {
        list.push(row.into_entries(alloc)?)?;
    }
    Ok(RowList::from_rows(list))
}

// `n` rows without entries, with room for some. The only error is that memory ran out.
fn roomy_rows(alloc: Global, n: u32) -> Result<Vec<Row>, AllocError>
    ensures { IfOk result (λ rows. rows.items ≡ replicate n []) }
{
    let mut rows = Vec::with_capacity(alloc, n as usize)?;
    for _ in 0..n {
        rows.push(Row::with_room(alloc)?)?;
    }
    Ok(rows)
}

// `n` rows without entries, which take no memory. The only error is that memory for their list ran out.
fn empty_rows(alloc: Global, n: u32) -> Result<Vec<Row>, AllocError>
    ensures { IfOk result (λ rows. rows.items ≡ replicate n []) }
{
    let mut rows = Vec::with_capacity(alloc, n as usize)?;
    for _ in 0..n {
        rows.push(Row::new(alloc))?;
    }
    Ok(rows)
}
