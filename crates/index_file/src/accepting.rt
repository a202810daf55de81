ghost use Rattle.std.specs.Prelude.{◌≡◌, ℕ, true, false, length, OnOk, IfErr};
ghost use Rattle.index_file.specs.Parts.{next_node, next_own, is_next_position, is_next_distance, is_next_via};
ghost use Rattle.index_file.specs.Sound.{AreReading};
ghost use Rattle.index_file.specs.declared.fault.IndexFault.TheVariants.{Row, Distance, Via};

use crate::done::Done;
use crate::fault::IndexFault;
use crate::part_row::PartRow;

/// Accepts the position of the next entry of the row of the node at the position `own`.
pub fn accept_position(done: &Done, own: u32, part: &PartRow, pos: u32) -> Result<(), IndexFault>
    requires reading { AreReading done.now part.now }
    requires own { own ≡ next_own done.now }
    ensures accepted { OnOk result (is_next_position (next_own done.now) part.now pos ≡ true) }
    ensures refused { IfErr result (λ e. (is_next_position (next_own done.now) part.now pos ≡ false) × (e ≡ Row (next_node done.now) (length part.now.entries))) }
{
    if part.is_next_position(own, pos) {
        return Ok(());
    }
    let (v, place) = next_place(done, part);
    Err(IndexFault::Row { v, place })
}

/// Accepts the distance of the next entry.
pub fn accept_distance(done: &Done, part: &PartRow, dist: u64) -> Result<(), IndexFault>
    requires { AreReading done.now part.now }
    ensures accepted { OnOk result (is_next_distance part.now dist ≡ true) }
    ensures refused { IfErr result (λ e. (is_next_distance part.now dist ≡ false) × (e ≡ Distance (next_node done.now) (length part.now.entries))) }
{
    if part.is_next_distance(dist) {
        return Ok(());
    }
    let (v, place) = next_place(done, part);
    Err(IndexFault::Distance { v, place })
}

/// Accepts the via of the next entry.
pub fn accept_via(done: &Done, part: &PartRow, via: u32) -> Result<(), IndexFault>
    requires { AreReading done.now part.now }
    ensures accepted { OnOk result (is_next_via (length done.now.order) (next_node done.now) part.now via ≡ true) }
    ensures refused { IfErr result (λ e. (is_next_via (length done.now.order) (next_node done.now) part.now via ≡ false) × (e ≡ Via (next_node done.now) (length part.now.entries))) }
{
    if part.is_next_via(done.n(), done.node(), via) {
        return Ok(());
    }
    let (v, place) = next_place(done, part);
    Err(IndexFault::Via { v, place })
}

/// The node whose row is being read, and the place of its next entry, from 0.
fn next_place(done: &Done, part: &PartRow) -> (u32, u32)
    requires { AreReading done.now part.now }
    ensures node { result.0 ≡ next_node done.now }
    ensures place { result.1 ≡ length part.now.entries }
{
    (done.node(), part.len() as u32)
}
