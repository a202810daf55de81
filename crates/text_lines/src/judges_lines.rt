ghost use Rattle.std.specs.Prelude.{◌≡◌, ℕ, List, Result};
ghost use Rattle.text_lines.specs.Words.{words_of};
ghost use Rattle.text_lines.specs.Judgement.{TakesLine, TakesEnd};
ghost use Rattle.std.specs.declared.alloc.AllocError.{AllocError as NoMemory};

use std::alloc::AllocError;

/// One who judges the lines of a text: what it is stands for what the lines so far came to.
pub trait JudgesLines {
    /// What a whole text stands for.
    type Value;

    /// Why a text is refused.
    type Fault: From<AllocError>;

    /// The fault of one who has no memory for what it keeps.
    ghost no_memory: { Self.Fault };

    /// What the words of the line with this number, which is no blank line and no comment, make of the lines before it.
    ghost judged: { Self → ℕ → List (List ℕ) → Result Self Self.Fault };

    /// What the end makes of them, with the number that the next line would have.
    ghost ended: { Self → ℕ → Result Self.Value Self.Fault };

    /// Judges a line, which is no blank line and no comment. After a fault it is judged no more.
    fn judge(&mut self, number: u64, line: &[u8]) -> Result<(), Self::Fault>
        ensures { TakesLine judged ended no_memory self.old number (words_of line.now) result self.new };

    /// Ends the text.
    fn end(self, number: u64) -> Result<Self::Value, Self::Fault>
        ensures { TakesEnd judged ended no_memory self number result };

    /// A fault that is made of want of memory is that.
    ghost want: { (error : NoMemory) (fault : Self.Fault) → Self.Fault.from_gives error fault → fault ≡ no_memory };
}
