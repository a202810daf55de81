ghost use Rattle.std.specs.Prelude.{◌≡◌, ◌≢◌, ◌⊎◌, ℕ, List, None, map, string_bytes, IsTrue, Result};
ghost use Rattle.desk_io.specs.Contents.{Tells};
ghost use Rattle.chl_inputs.specs.declared.stop.Stop.{Stop};
ghost use Rattle.chl_inputs.specs.Stages.{OpensInOrder};
ghost use Rattle.chl_answers.specs.Commands.{Decides, place_of, stage_of};
ghost use Rattle.chl_answers.specs.Outcome.{Runs, Gives, GivesPart, Stops, OpensNoOther, ChangesNoOther};
ghost use Rattle.chl_answers.specs.Statuses.{CarriesFaultsAlone, CountsInput, CountsOutput, HasNoOutput, status_of, status_after};
ghost use Rattle.chl_answers.specs.Words.{IsCommand, IsNoCommand};
ghost use Rattle.chl_words.specs.Asking.{IsWithinLimits};
ghost use Rattle.chl_answers.specs.declared.status.Status.TheVariants.{Done, Usage, ReadFault, WriteFault, NoMemory};
ghost use Rattle.chl_words.specs.declared.asked.Asked.{Asked as Command};

use crate::commands::output;
use chl_answers::{Status, stopped};
use chl_outputs::{give, out_file};
use chl_words::{AskFault, Asked, read_words};
use desk_io::{Desk, DeskFault, Gate};
use std::alloc::Global;
use std::sync::Wait;
use std::thread::Threads;

/// Runs the command that the words ask for, over a desk, and says how it ended. What the named files decide of a command
/// is `Decides` (specs/Commands). Over a desk that tells nothing, as the real one, the clauses with `Tells` say nothing.
/// Want of memory may come at any time. The gate sees the roots of a build begin and end.
///
/// ```text
/// chl list --graph path_of_three.gr --order path_of_three.order
/// chl build --graph path_of_three.gr --order path_of_three.order --out path_of_three.chl
/// chl query --index path_of_three.chl --pairs path_of_three.p2p
/// ```
pub fn run<R: Threads + Wait + Sync, D: Desk, G: Gate + Sync>(
    rt: &R,
    alloc: Global,
    words: &[String],
    desk: &mut D,
    gate: &G,
) -> Status
    // Usage comes exactly where the words are no command, unless memory runs out, and then nothing changes.
    ensures no_command { result ≡ Usage → IsNoCommand (map string_bytes words.now) }
    ensures usage { IsNoCommand (map string_bytes words.now)
        → ((result ≡ Usage) ⊎ (result ≡ NoMemory)) × (D.told desk.new ≡ D.told desk.old) }

    // With Done the bytes that the files decide were given, whole, after each input was read to its end, in order.
    ensures done { (asked : Command) → IsCommand (map string_bytes words.now) asked → result ≡ Done
        → Tells (D.told desk.old) (D.told desk.new) (Gives asked) }

    // A command stops without output only as the files decide; but memory may run out, and a desk that is not steady may
    // fail to read. Nothing was given then, and the rest is unread.
    ensures stopped { (asked : Command) (stop : Stop) → IsCommand (map string_bytes words.now) asked → result ≡ status_of stop → result ≢ NoMemory
        → Tells (D.told desk.old) (D.told desk.new) (Stops asked stop) }

    // What the files decide comes; but memory may run out, and a desk that is not steady may fail.
    ensures decided { (asked : Command) (answer : Result (List ℕ) Stop) → IsCommand (map string_bytes words.now) asked
        → Tells (D.told desk.old) (D.told desk.new) (λ a b. Decides asked a.files answer
        → (result ≡ status_after answer) ⊎ (result ≡ NoMemory) ⊎ (((result ≡ ReadFault) ⊎ (result ≡ WriteFault)) × ¬ (IsTrue a.steady))) }

    // A write fault comes after a prefix of the bytes that the files decide, and never over a steady desk.
    ensures write_fault { (asked : Command) → IsCommand (map string_bytes words.now) asked → result ≡ WriteFault
        → Tells (D.told desk.old) (D.told desk.new) (λ a b. GivesPart asked a b × ¬ (IsTrue a.steady)) }

    // Without memory nothing was given, or a prefix of the bytes that the files decide.
    ensures no_memory { (asked : Command) → IsCommand (map string_bytes words.now) asked → result ≡ NoMemory
        → Tells (D.told desk.old) (D.told desk.new) (λ a b. OpensInOrder (stage_of asked) a b ⊎ GivesPart asked a b) }

    // However a command ends, no other input was opened, none before the one before it was accepted and read to its end, and
    // no other file has changed; and a steady desk stays steady.
    ensures opens { (asked : Command) → IsCommand (map string_bytes words.now) asked
        → Tells (D.told desk.old) (D.told desk.new) (OpensNoOther asked) }
    ensures files { (asked : Command) → IsCommand (map string_bytes words.now) asked
        → Tells (D.told desk.old) (D.told desk.new) (ChangesNoOther asked) }
    ensures steady { Tells (D.told desk.old) (D.told desk.new) (λ a b. b.steady ≡ a.steady) }

    // Over any desk: a file is created only for output, and only by a command that has a file for it.
    ensures no_output { HasNoOutput result → D.is_created desk.new ≡ D.is_created desk.old }
    ensures no_place { (asked : Command) → IsCommand (map string_bytes words.now) asked → place_of asked ≡ None
        → D.is_created desk.new ≡ D.is_created desk.old }

    // A read fault comes only where the input count has risen, a write fault only where the output count has.
    ensures input_count { CountsInput result (D.input_faults desk.old) (D.input_faults desk.new) }
    ensures output_count { CountsOutput result (D.output_faults desk.old) (D.output_faults desk.new) }

    // No status carries a reader's want of memory: that is always NoMemory.
    ensures faults_alone { CarriesFaultsAlone result }
{
    run_words(rt, alloc, words, desk, gate)
}

/// Runs the command that the words ask for, as a run of that command may go; where they are none, nothing changes. Want of memory may come at any time.
fn run_words<R: Threads + Wait + Sync, D: Desk, G: Gate + Sync>(
    rt: &R,
    alloc: Global,
    words: &[String],
    desk: &mut D,
    gate: &G,
) -> Status
    ensures no_command { result ≡ Usage → IsNoCommand (map string_bytes words.now) }
    ensures usage { IsNoCommand (map string_bytes words.now)
        → ((result ≡ Usage) ⊎ (result ≡ NoMemory)) × (desk.new ≡ desk.old) }
    ensures runs { (asked : Command) → IsCommand (map string_bytes words.now) asked
        → Runs D.Desk asked result desk.old desk.new }
{
    match read_words(alloc, words) {
        Ok(asked) => carry_out(rt, alloc, &asked, desk, gate),
        Err(AskFault::Usage) => Status::Usage,
        Err(AskFault::NoMemory) => Status::NoMemory,
    }
}

/// Carries out a command: all its bytes are made before the first is given.
fn carry_out<R: Threads + Wait + Sync, D: Desk, G: Gate + Sync>(
    rt: &R,
    alloc: Global,
    asked: &Asked,
    desk: &mut D,
    gate: &G,
) -> Status
    requires { IsWithinLimits asked.now }
    ensures never_usage { result ≢ Usage }
    ensures runs { Runs D.Desk asked.now result desk.old desk.new }
{
    match output(rt, alloc, asked, desk, gate) {
        Ok(bytes) => match give(desk, out_file(asked), &bytes) {
            Ok(()) => Status::Done,
            Err(DeskFault::Failed) => Status::WriteFault,
            Err(DeskFault::NoMemory) => Status::NoMemory,
        },
        Err(stop) => stopped(stop),
    }
}
