ghost use Rattle.std.specs.Prelude.{◌≡◌, ℕ, List, length};
ghost use Rattle.dimacs_text.specs.Arcs.{arc_fault, arc_numbers};
ghost use Rattle.dimacs_text.specs.Counted.{JudgesNumbers, kept};

use crate::counted_text::is_outside_of;
use crate::fault::TextKind;
use walk_laws::Edge;

/// The greatest weight, 2^64 - 1.
const GREATEST: u128 = (1 << 64) - 1;

/// The edge between nodes of 1..n that the numbers of a line `a U V W`, each kept as 2^64 where it is greater, stand for, or
/// the fault that they have.
pub fn edge_of(n: u32, numbers: &[u128]) -> Result<Edge, TextKind>
    requires { length numbers.now ≡ 3 }
    ensures { (values : List ℕ) → numbers.now ≡ kept values → JudgesNumbers (arc_fault n) arc_numbers values result }
{
    let u = numbers[0];
    let v = numbers[1];
    let w = numbers[2];
    if is_outside_of(n, u) || is_outside_of(n, v) {
        return Err(TextKind::NodeRange);
    }
    if w == 0 {
        return Err(TextKind::ZeroWeight);
    }
    if w > GREATEST {
        return Err(TextKind::WeightRange);
    }
    Ok(Edge {
        u: u as u32,
        v: v as u32,
        w: w as u64,
    })
}
