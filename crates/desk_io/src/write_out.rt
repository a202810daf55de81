ghost use Rattle.std.specs.Prelude.{◌≡◌, ◌≢◌, ℕ, ◌<◌, ◌≤◌, length, take, Err, IsTrue, IfOk, OnOk, OnErr};
ghost use Rattle.desk_io.specs.Contents.{Tells, IsSteady};
ghost use Rattle.desk_io.specs.Counts.{CountsFailure};
ghost use Rattle.desk_io.specs.Takes.{Takes};

use crate::desk::{Desk, DeskFault};

/// Where bytes are written to.
#[derive(Clone, Copy, Debug, PartialEq, Eq)]
pub enum Out {
    /// The file that was created last.
    File,
    /// Standard output.
    Said,
}

/// Writes the whole piece, or an error after a prefix of it.
pub fn write_all<D: Desk>(desk: &mut D, out: Out, piece: &[u8]) -> Result<(), DeskFault>
    requires { out ≡ Out.File → IsTrue (D.is_created desk.old) }
    ensures open { D.is_open desk.new ≡ D.is_open desk.old }
    ensures created { D.is_created desk.new ≡ D.is_created desk.old }
    ensures ok { OnOk result (Tells (D.told desk.old) (D.told desk.new) (Takes out piece.now)) }
    ensures err { OnErr result (Tells (D.told desk.old) (D.told desk.new)
        (λ a b. (k : ℕ) × Takes out (take k piece.now) a b)) }
    ensures steady { IsSteady (D.told desk.old) → result ≢ Err DeskFault.Failed }
    ensures input_count { D.input_faults desk.new ≡ D.input_faults desk.old }
    ensures output_count { CountsFailure result (D.output_faults desk.old) (D.output_faults desk.new) }
{
    let mut done = 0;
    while done < piece.len() {
        done += give(desk, out, &piece[done..])?;
    }
    Ok(())
}

/// Gives a prefix of the piece to where it is to go, and answers how many bytes that is.
fn give<D: Desk>(desk: &mut D, out: Out, piece: &[u8]) -> Result<usize, DeskFault>
    requires { out ≡ Out.File → IsTrue (D.is_created desk.old) }
    ensures open { D.is_open desk.new ≡ D.is_open desk.old }
    ensures created { D.is_created desk.new ≡ D.is_created desk.old }
    ensures within { IfOk result (λ n. n ≤ length piece.now) }
    ensures some { IfOk result (λ n. 0 < length piece.now → 0 < n) }
    ensures taken { IfOk result (λ n. Tells (D.told desk.old) (D.told desk.new) (Takes out (take n piece.now))) }
    ensures steady { IsSteady (D.told desk.old) → result ≢ Err DeskFault.Failed }
    ensures refused { OnErr result (D.told desk.new ≡ D.told desk.old) }
    ensures input_count { D.input_faults desk.new ≡ D.input_faults desk.old }
    ensures output_count { CountsFailure result (D.output_faults desk.old) (D.output_faults desk.new) }
{
    match out {
        Out::File => desk.write(piece),
        Out::Said => desk.say(piece),
    }
}
