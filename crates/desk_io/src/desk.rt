ghost use Rattle.std.specs.Prelude.{◌≡◌, ◌≢◌, ◌↔◌, ℕ, Bool, true, ◌+◌, ◌<◌, ◌≤◌, ◌++◌, length, take, [], Option, Some, Err, IsTrue, OnOk, OnErr, IfOk, IfSome};
ghost use Rattle.std.specs.FinMap as map;
ghost use Rattle.desk_io.specs.Contents.{Contents, Tells, IsSteady, Lacks, opened, created, written, spoken};
ghost use Rattle.desk_io.specs.Counts.{CountsFailure};

use std::alloc::AllocError;
use thiserror::Error;

/// Why a call of a desk did not do its work.
#[derive(Clone, Copy, Debug, PartialEq, Eq, Error)]
pub enum DeskFault {
    /// The outside failed: a count of faults rose, or stands at its last value.
    #[error("input or output failed")]
    Failed,
    /// There was no memory for it.
    #[error("out of memory")]
    NoMemory,
}

impl From<AllocError> for DeskFault {
    ghost use Rattle.std.specs.Prelude.{◌≡◌};
    ghost use Rattle.desk_io.specs.declared.desk.DeskFault.TheVariants.{NoMemory};

    ghost from_gives = { λ _ fault. fault ≡ NoMemory };

    fn from(_error: AllocError) -> DeskFault {
        DeskFault::NoMemory
    }
}

/// The outside: one input and one created file at a time, and standard output.
pub trait Desk {
    /// What it tells of its bytes; a real desk tells nothing. A desk that tells them may be steady: then no call fails
    /// but the opening of a name that no file has.
    ghost told: { Self → Option Contents };

    /// Whether an input was opened.
    ghost is_open: { Self → Bool };

    /// Whether a file was created.
    ghost is_created: { Self → Bool };

    /// How many calls of `open_in` and `read` have failed.
    ghost input_faults: { Self → ℕ };

    /// How many calls of `create`, `write` and `say` have failed.
    ghost output_faults: { Self → ℕ };

    /// Opens the named file as the input, at its start, in place of the one before.
    fn open_in(&mut self, name: &str) -> Result<(), DeskFault>
        ensures opened { OnOk result (IsTrue (is_open self.new)) }
        ensures created { is_created self.new ≡ is_created self.old }
        ensures found { OnOk result (Tells (told self.old) (told self.new)
            (λ a b. (map.get a.files name.now ≡ Some b.rest) × (b ≡ opened name.now b.rest a))) }
        ensures steady { IsSteady (told self.old) → ((result ≡ Err DeskFault.Failed) ↔ Lacks (told self.old) name.now) }
        ensures refused { OnErr result ((told self.new ≡ told self.old) × (is_open self.new ≡ is_open self.old)) }
        ensures input_count { CountsFailure result (input_faults self.old) (input_faults self.new) }
        ensures output_count { output_faults self.new ≡ output_faults self.old };

    /// Moves bytes of the input to the start of the buffer, and answers how many: none exactly at the end,
    /// where the buffer has room.
    fn read(&mut self, buf: &mut [u8]) -> Result<usize, DeskFault>
        requires { IsTrue (is_open self.old) }
        ensures open { IsTrue (is_open self.new) }
        ensures created { is_created self.new ≡ is_created self.old }
        ensures within { IfOk result (λ n. n ≤ length buf.old) }
        ensures moved { IfOk result (λ n. Tells (told self.old) (told self.new)
            (λ a b. (a.rest ≡ take n buf.new ++ b.rest) × (b ≡ record a { rest = b.rest }))) }
        ensures end { IfOk result (λ n. n ≡ 0 → 0 < length buf.old → IfSome (told self.old) (λ a. a.rest ≡ [])) }
        ensures steady { IsSteady (told self.old) → result ≢ Err DeskFault.Failed }
        ensures refused { OnErr result (told self.new ≡ told self.old) }
        ensures input_count { CountsFailure result (input_faults self.old) (input_faults self.new) }
        ensures output_count { output_faults self.new ≡ output_faults self.old };

    /// Creates the named file, to which writing goes from now on in place of the one before. It is empty then, whatever
    /// it held.
    fn create(&mut self, name: &str) -> Result<(), DeskFault>
        ensures open { is_open self.new ≡ is_open self.old }
        ensures created { OnOk result (IsTrue (is_created self.new)) }
        ensures empty { OnOk result (Tells (told self.old) (told self.new) (λ a b. b ≡ created name.now a)) }
        ensures steady { IsSteady (told self.old) → result ≢ Err DeskFault.Failed }
        ensures refused { OnErr result ((told self.new ≡ told self.old) × (is_created self.new ≡ is_created self.old)) }
        ensures input_count { input_faults self.new ≡ input_faults self.old }
        ensures output_count { CountsFailure result (output_faults self.old) (output_faults self.new) };

    /// Puts a prefix of the piece to the end of the created file, and answers how many bytes that is.
    fn write(&mut self, piece: &[u8]) -> Result<usize, DeskFault>
        requires { IsTrue (is_created self.old) }
        ensures open { is_open self.new ≡ is_open self.old }
        ensures created { is_created self.new ≡ is_created self.old }
        ensures within { IfOk result (λ n. n ≤ length piece.now) }
        ensures some { IfOk result (λ n. 0 < length piece.now → 0 < n) }
        ensures written { IfOk result (λ n. Tells (told self.old) (told self.new)
            (λ a b. b ≡ written (take n piece.now) a)) }
        ensures steady { IsSteady (told self.old) → result ≢ Err DeskFault.Failed }
        ensures refused { OnErr result (told self.new ≡ told self.old) }
        ensures input_count { input_faults self.new ≡ input_faults self.old }
        ensures output_count { CountsFailure result (output_faults self.old) (output_faults self.new) };

    /// Gives a prefix of the piece to standard output, and answers how many bytes that is.
    fn say(&mut self, piece: &[u8]) -> Result<usize, DeskFault>
        ensures open { is_open self.new ≡ is_open self.old }
        ensures created { is_created self.new ≡ is_created self.old }
        ensures within { IfOk result (λ n. n ≤ length piece.now) }
        ensures some { IfOk result (λ n. 0 < length piece.now → 0 < n) }
        ensures said { IfOk result (λ n. Tells (told self.old) (told self.new)
            (λ a b. b ≡ spoken (take n piece.now) a)) }
        ensures steady { IsSteady (told self.old) → result ≢ Err DeskFault.Failed }
        ensures refused { OnErr result (told self.new ≡ told self.old) }
        ensures input_count { input_faults self.new ≡ input_faults self.old }
        ensures output_count { CountsFailure result (output_faults self.old) (output_faults self.new) };
}
