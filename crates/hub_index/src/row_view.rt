use crate::root_table::RootTable;
use walk_laws::Entry;

/// What became of an entry that was offered.
#[derive(Clone, Copy, Debug, PartialEq, Eq)]
pub enum Offer {
    /// It was put in the row.
    Put,
    /// It is needless: the row has this entry, at a position from 0, which covers it.
    Covered { pos: u32, dist: u128 },
    /// It wasn't put, for want of memory.
    NoMemory,
}

/// The rows of a graph's nodes as one worker sees them, while others may put entries in them, too. A call finds the row of
/// its node as it is then: what was seen of it before still stands there in the same order, maybe with other entries
/// between, and each of its entries keeps the view's fact, which is that it is the length of a walk to a hub ranked no
/// lower than the node. These are the facts that a tree needs; a view may say more of its own rows.
pub trait RowView {
    ghost use Rattle.std.specs.Prelude.{◌≡◌, ◌≢◌, ◌↔◌, ℕ, ◌≤◌, List, length};
    ghost use Rattle.walk_laws.specs.declared.graph.Edge.{Edge};
    ghost use Rattle.walk_laws.specs.declared.entry.Entry.{Entry};
    ghost use Rattle.walk_laws.specs.Joined.{Joined};
    ghost use Rattle.walk_laws.specs.Labelling.{EntryFits};
    ghost use Rattle.hub_index.specs.RootDistances.{HoldsRow};
    ghost use Rattle.hub_index.specs.Views.{IsNode, IsFound, IsAnswerOf, with_put};

    /// The edges of the graph.
    ghost edges: { Self → List Edge };

    /// The nodes, highest rank first.
    ghost order: { Self → List ℕ };

    /// The fact that the entries of a node's row keep.
    ghost fact: { Self → ℕ → Entry → Type 0 };

    /// The list that was last seen of a node's row.
    ghost seen: { Self → ℕ → List Entry };

    /// The entries that were put in a node's row through this view, in order.
    ghost puts: { Self → ℕ → List Entry };

    /// What no call changes, as whose rows these are.
    ghost Kept: { Type 0 };

    ghost kept: { Self → Kept };

    /// Finds the row of the node `h`, a number from 1, and makes the table hold the least distance of each of its
    /// positions, and nothing else. The row is then the list seen of `h`. It takes no memory.
    fn load_root(&mut self, h: u32, table: &mut RootTable)
        requires node { IsNode (length (order self.old)) h }
        requires size { length table.old ≡ length (order self.old) }
        ensures edges { edges self.new ≡ edges self.old }
        ensures order { order self.new ≡ order self.old }
        ensures kept { kept self.new ≡ kept self.old }
        ensures found { IsFound (fact self.old h) (seen self.old h) (seen self.new h) }
        ensures held { HoldsRow table.new (seen self.new h) }
        ensures size { length table.new ≡ length table.old }
        ensures others { (x : ℕ) → 1 ≤ x → x ≢ h → seen self.new x ≡ seen self.old x }
        ensures puts { (x : ℕ) → puts self.new x ≡ puts self.old x };

    /// Finds the row of the node `v`, a number from 1, and puts the entry there unless an entry of the row covers it by way
    /// of the root's hubs in the table. The list seen of `v` is then the row; where the entry was put, it is the row
    /// followed by the entry. No memory is taken where an entry covers.
    fn offer(&mut self, v: u32, entry: Entry, table: &RootTable) -> Offer
        requires node { IsNode (length (order self.old)) v }
        requires size { length table.now ≡ length (order self.old) }
        requires fits { fact self.old v entry }
        ensures edges { edges self.new ≡ edges self.old }
        ensures order { order self.new ≡ order self.old }
        ensures kept { kept self.new ≡ kept self.old }
        ensures found { (row : List Entry) × IsFound (fact self.old v) (seen self.old v) row
            × IsAnswerOf table.now row entry result × (seen self.new v ≡ with_put row entry result) }
        ensures puts { puts self.new v ≡ with_put (puts self.old v) entry result }
        ensures others_seen { (x : ℕ) → 1 ≤ x → x ≢ v → seen self.new x ≡ seen self.old x }
        ensures others_puts { (x : ℕ) → 1 ≤ x → x ≢ v → puts self.new x ≡ puts self.old x };

    /// An entry keeps the fact exactly where it may stand in the row of its node.
    ghost fact_fits: { (view : Self) (v : ℕ) (e : Entry) → fact view v e ↔ EntryFits (Joined (edges view)) (order view) v e };
}
