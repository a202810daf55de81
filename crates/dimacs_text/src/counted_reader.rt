use crate::counted_lines::CountedLines;
use crate::counted_text::CountedText;
use desk_io::{Feed, Reader};
use std::alloc::{AllocError, Global};
use std::marker::Model;
use text_lines::TextReader;

/// Reads a counted text with these words. Blank lines and comments are skipped. No memory is taken for what the text declares
/// before it comes.
#[derive(Drop)]
pub struct CountedReader<T: CountedText + Drop>
where
    T::Item: Drop,
    T::Fault: Copy + Drop,
{
    reader: TextReader<CountedLines<T>>,
}

impl<T: CountedText + Drop> Model for CountedReader<T>
where
    T::Item: Drop,
    T::Fault: Copy + Drop,
{
    ghost use Rattle.dimacs_text.specs.Counted.{Counted};
    ghost use Rattle.text_lines.specs.TextReading.{Reading};

    ghost Value = { Reading (Counted T) T.Fault };

    ghost view = { λ r. r.reader };
}

impl<T: CountedText + Drop> CountedReader<T>
where
    T::Item: Drop,
    T::Fault: Copy + Drop,
{
    ghost use Rattle.std.specs.Prelude.{◌≡◌, IfOk};
    ghost use Rattle.dimacs_text.specs.Counted.{none_yet};
    ghost use Rattle.text_lines.specs.TextReading.{at_start};

    /// A reader before any text. Want of memory is the only error.
    pub fn of(alloc: Global, text: T) -> Result<CountedReader<T>, AllocError>
        ensures { IfOk result (λ r. r ≡ at_start (none_yet text)) }
    {
        Ok(CountedReader {
            reader: TextReader::new(alloc, CountedLines::new(alloc, text))?,
        })
    }
}

impl<T: CountedText + Drop> Feed for CountedReader<T>
where
    T::Item: Drop,
    T::Fault: Copy + Drop,
{
    ghost use Rattle.dimacs_text.specs.Counted.{counted_judged, counted_ended};
    ghost use Rattle.text_lines.specs.TextReading.{Reads};

    type Fault = T::Fault;

    ghost feed_gives = { Reads (counted_judged T.wording T.in_text T.value_of) (counted_ended T.wording T.in_text T.value_of) T.no_memory };

    fn feed(&mut self, piece: &[u8]) -> Result<(), T::Fault> {
        self.reader.feed(piece)
    }
}

impl<T: CountedText + Drop> Reader for CountedReader<T>
where
    T::Item: Drop,
    T::Fault: Copy + Drop,
{
    ghost use Rattle.dimacs_text.specs.Counted.{counted_judged, counted_ended};
    ghost use Rattle.text_lines.specs.TextReading.{refused, comes_to};
    ghost use Rattle.text_lines.specs.ReadingLaws.{takes_piece, lasts};

    type Value = T::Value;

    ghost no_memory = { T.no_memory };

    ghost refused = { refused (counted_judged T.wording T.in_text T.value_of) (counted_ended T.wording T.in_text T.value_of) };

    ghost comes_to = { comes_to (counted_judged T.wording T.in_text T.value_of) (counted_ended T.wording T.in_text T.value_of) };

    /// What the whole text stands for.
    fn finish(self) -> Result<T::Value, T::Fault> {
        self.reader.finish()
    }

    ghost pieces = { takes_piece (counted_judged T.wording T.in_text T.value_of) (counted_ended T.wording T.in_text T.value_of) T.no_memory };

    ghost lasts = { lasts (counted_judged T.wording T.in_text T.value_of) (counted_ended T.wording T.in_text T.value_of) };
}
