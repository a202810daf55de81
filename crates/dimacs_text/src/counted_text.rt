ghost use Rattle.std.specs.Prelude.{◌≡◌, ◌⊎◌, ℕ, ◌-◌, ◌^◌, ◌<◌, ◌≤◌, true, List, All, map, length, Result, Ok, Err, IfOk, IfErr};
ghost use Rattle.dimacs_text.specs.declared.fault.TextFault.{TextFault};
ghost use Rattle.std.specs.declared.alloc.AllocError.{AllocError as NoMemory};
ghost use Rattle.dimacs_text.specs.Counted.{Wording, AreAccepted, JudgesNumbers, are_within, is_outside, kept};

use crate::fault::{TextFault, TextKind};
use std::alloc::{AllocError, Global};

/// The words of a counted text, and what its numbers stand for.
pub trait CountedText {
    /// What a line of the letter stands for.
    type Item;

    /// What a whole text stands for.
    type Value;

    /// Why a text is refused.
    type Fault: From<AllocError>;

    /// The words, and the faults of numbers.
    ghost wording: { Self → Wording };

    /// The numbers of the line that stands for an item.
    ghost written: { Self.Item → List ℕ };

    /// What counts and the lines after them stand for, or the fault that they have together.
    ghost value_of: { Self → List ℕ → List (List ℕ) → Result Self.Value Self.Fault };

    /// The fault of a line.
    ghost in_text: { TextFault → Self.Fault };

    /// The fault of one who has no memory.
    ghost no_memory: { Self.Fault };

    /// The words after `p`, as a line.
    fn fixed(&self) -> &'static [u8]
        ensures { result.now ≡ (wording self.now).fixed };

    /// The greatest value of each count.
    fn limits(&self) -> &'static [u64]
        ensures value { result.now ≡ (wording self.now).limits }
        ensures small { All (λ limit. limit < 2 ^ 64) (wording self.now).limits };

    /// The letter of the other lines.
    fn letter(&self) -> u8
        ensures { result ≡ (wording self.now).letter };

    /// How many numbers stand after the letter, 3 at most.
    fn numbers(&self) -> usize
        ensures value { result ≡ (wording self.now).numbers }
        ensures few { result ≤ 3 };

    /// What the numbers of a line, each kept as 2^64 where it is greater, stand for under the counts of the `p` line, or the
    /// fault that they have.
    fn item(&self, counts: &[u64], numbers: &[u128]) -> Result<Self::Item, TextKind>
        requires counted { length counts.now ≡ length (wording self.now).limits }
        requires within { are_within (wording self.now).limits counts.now ≡ true }
        requires numbers { length numbers.now ≡ (wording self.now).numbers }
        ensures { (values : List ℕ) → numbers.now ≡ kept values
            → JudgesNumbers ((wording self.now).fault_of counts.now) written values result };

    /// What the counts and the items after them stand for.
    fn value(
        self,
        alloc: Global,
        counts: Vec<u64>,
        items: Vec<Self::Item>,
    ) -> Result<Self::Value, Self::Fault>
        requires { AreAccepted (wording self) counts.items (map written items.items) }
        ensures ok { IfOk result (λ value. value_of self counts.items (map written items.items) ≡ Ok value) }
        ensures err { IfErr result (λ fault. (fault ≡ no_memory)
            ⊎ (value_of self counts.items (map written items.items) ≡ Err fault)) };

    /// The fault of a line.
    fn text_fault(fault: TextFault) -> Self::Fault
        ensures { result ≡ in_text fault };

    /// A fault that is made of want of memory is that.
    ghost want: { (error : NoMemory) (fault : Self.Fault) → Self.Fault.from_gives error fault → fault ≡ no_memory };
}

/// Whether a number is no node of 1..n.
pub fn is_outside_of(n: u32, v: u128) -> bool
    ensures { result ≡ is_outside n v }
{
    v == 0 || v > u128::from(n)
}
