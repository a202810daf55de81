ghost use Rattle.std.specs.Prelude.{◌≡◌, List, ℕ, length, Some, None, IfSome, IfNone, IfErr, OnOk, Ok, Err};
ghost use Rattle.text_lines.specs.Words.{words_of};
ghost use Rattle.dimacs_text.specs.Counted.{after_words, numbers_in, kept};

use crate::fault::TextKind;
use text_lines::{first_number, first_word};

/// What is after the words of `prefix` at the start of a line; None where it doesn't begin with these words.
pub fn strip_words<'a>(line: &'a [u8], prefix: &[u8]) -> Option<&'a [u8]>
    ensures found { IfSome result (λ r. after_words (words_of prefix.now) (words_of line.now) ≡ Some (words_of r.now)) }
    ensures none { IfNone result (after_words (words_of prefix.now) (words_of line.now) ≡ None) }
{
    let mut rest = line;
    let mut wanted = prefix;
    while let Some((word, more)) = first_word(wanted) {
        let Some((found, after)) = first_word(rest) else {
            return None;
        };
        if found != word {
            return None;
        }
        rest = after;
        wanted = more;
    }
    Some(rest)
}

/// Reads the words of a line, which are as many numbers as there are places; one above 2^64 is kept as that.
pub fn read_numbers(line: &[u8], numbers: &mut [u128]) -> Result<(), TextKind>
    ensures ok { OnOk result ((values : List ℕ) × (numbers_in (length numbers.old) (words_of line.now) ≡ Ok values)
        × (numbers.new ≡ kept values)) }
    ensures err { IfErr result (λ kind. numbers_in (length numbers.old) (words_of line.now) ≡ Err kind) }
{
    let mut rest = line;
    let mut all = true;
    for place in 0..numbers.len() {
        let Some((value, after)) = first_number(rest) else {
            return Err(TextKind::BadField);
        };
        all = all & value.is_some();
        numbers[place] = value.unwrap_or(0);
        rest = after;
    }
    if first_word(rest).is_some() {
        return Err(TextKind::BadField);
    }
    if !all {
        return Err(TextKind::BadNumber);
    }
    Ok(())
}
