ghost use Rattle.std.specs.Prelude.{◌≡◌, ◌≢◌, ℕ, take, Some, None, Err, IsTrue, OnOk, OnErr};
ghost use Rattle.std.specs.Option.{option_copied};
ghost use Rattle.desk_io.specs.Contents.{Tells, IsSteady};
ghost use Rattle.desk_io.specs.Counts.{CountsFailure};
ghost use Rattle.desk_io.specs.Takes.{Takes};
ghost use Rattle.desk_io.specs.declared.desk.DeskFault.TheVariants.{Failed};
ghost use Rattle.chl_answers.specs.Commands.{place_of};
ghost use Rattle.chl_answers.specs.Outcome.{given, GivesPrefix};

use chl_words::{Asked, Name};
use desk_io::{Desk, DeskFault, Out, write_all};
use index_file::Pieces;

/// The file that a command creates for its bytes, or None where it says them.
pub fn out_file(asked: &Asked) -> Option<&Name>
    ensures { option_copied result ≡ place_of asked.now }
{
    match asked {
        Asked::List { .. }
        | Asked::Solve { .. }
        | Asked::Query { .. }
        | Asked::Path { .. }
        | Asked::Trace { .. }
        | Asked::Near { .. }
        | Asked::Audit { .. }
        | Asked::Degree { .. }
        | Asked::Rank { .. }
        | Asked::Grid(_) => None,
        Asked::Build { out, .. } => Some(out),
        Asked::Upgrade { out, .. } | Asked::Open { out, .. } => Some(out),
    }
}

/// Gives bytes: to the file of this name, which it creates, or to standard output.
pub fn give<D: Desk>(desk: &mut D, out: Option<&Name>, bytes: &Pieces) -> Result<(), DeskFault>
    ensures ok { OnOk result (Tells (D.told desk.old) (D.told desk.new) (λ a b. b ≡ given (option_copied out.entry) bytes.now a)) }
    ensures err { OnErr result (Tells (D.told desk.old) (D.told desk.new) (GivesPrefix (option_copied out.entry) bytes.now)) }
    ensures steady { IsSteady (D.told desk.old) → result ≢ Err Failed }
    ensures no_place { option_copied out.entry ≡ None → D.is_created desk.new ≡ D.is_created desk.old }
    ensures input_count { D.input_faults desk.new ≡ D.input_faults desk.old }
    ensures output_count { CountsFailure result (D.output_faults desk.old) (D.output_faults desk.new) }
{
    match out {
        Some(name) => write_file(desk, name, bytes),
        None => say(desk, bytes),
    }
}

/// Says the bytes.
fn say<D: Desk>(desk: &mut D, bytes: &Pieces) -> Result<(), DeskFault>
    ensures ok { OnOk result (Tells (D.told desk.old) (D.told desk.new) (λ a b. b ≡ given None bytes.now a)) }
    ensures err { OnErr result (Tells (D.told desk.old) (D.told desk.new) (GivesPrefix None bytes.now)) }
    ensures steady { IsSteady (D.told desk.old) → result ≢ Err Failed }
    ensures no_place { D.is_created desk.new ≡ D.is_created desk.old }
    ensures input_count { D.input_faults desk.new ≡ D.input_faults desk.old }
    ensures output_count { CountsFailure result (D.output_faults desk.old) (D.output_faults desk.new) }
{
    write_pieces(desk, Out::Said, bytes)
}

/// Creates the named file, and writes the bytes to it.
fn write_file<D: Desk>(desk: &mut D, name: &Name, bytes: &Pieces) -> Result<(), DeskFault>
    ensures ok { OnOk result (Tells (D.told desk.old) (D.told desk.new) (λ a b. b ≡ given (Some name.now) bytes.now a)) }
    ensures err { OnErr result (Tells (D.told desk.old) (D.told desk.new) (GivesPrefix (Some name.now) bytes.now)) }
    ensures steady { IsSteady (D.told desk.old) → result ≢ Err Failed }
    ensures input_count { D.input_faults desk.new ≡ D.input_faults desk.old }
    ensures output_count { CountsFailure result (D.output_faults desk.old) (D.output_faults desk.new) }
{
    desk.create(name.text())?;
    write_pieces(desk, Out::File, bytes)
}

/// Writes all bytes, or an error after a prefix of them.
fn write_pieces<D: Desk>(desk: &mut D, out: Out, bytes: &Pieces) -> Result<(), DeskFault>
    requires { out ≡ Out.File → IsTrue (D.is_created desk.old) }
    ensures created { D.is_created desk.new ≡ D.is_created desk.old }
    ensures ok { OnOk result (Tells (D.told desk.old) (D.told desk.new) (Takes out bytes.now)) }
    ensures err { OnErr result (Tells (D.told desk.old) (D.told desk.new) (λ a b. (k : ℕ) × Takes out (take k bytes.now) a b)) }
    ensures steady { IsSteady (D.told desk.old) → result ≢ Err Failed }
    ensures input_count { D.input_faults desk.new ≡ D.input_faults desk.old }
    ensures output_count { CountsFailure result (D.output_faults desk.old) (D.output_faults desk.new) }
{
    let (first, others) = bytes.list();
    write_all(desk, out, first)?;
    for piece in others {
        write_all(desk, out, piece)?;
    }
    Ok(())
}
