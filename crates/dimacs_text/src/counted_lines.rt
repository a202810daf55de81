ghost use Rattle.std.specs.Prelude.{◌≡◌, true, map, length, List, [], ◌∷◌, ℕ, None, Ok, Err, IfOk, IfErr};
ghost use Rattle.std.specs.Str.{bytes_eq};
ghost use Rattle.text_lines.specs.Words.{words_of};
ghost use Rattle.dimacs_text.specs.Counted.{none_yet, last_of, are_within, numbers_in, declared_counts, within_limits, line_numbers, problem_line, letter_line, counted_line};
ghost use Rattle.dimacs_text.specs.Taking.{Gives, GivesKept};

use crate::counted_text::CountedText;
use crate::fault::{TextFault, TextKind};
use crate::numbers::{read_numbers, strip_words};
use crate::untaken::Untaken;
use std::alloc::{AllocError, Global};
use std::marker::Model;
use text_lines::{JudgesLines, first_word};

/// The lines of a counted text so far.
#[derive(Drop)]
pub struct CountedLines<T: CountedText + Drop>
where
    T::Item: Drop,
{
    alloc: Global,
    text: T,
    counts: Option<Vec<u64>>,
    items: Vec<T::Item>,
}

impl<T: CountedText + Drop> Model for CountedLines<T>
where
    T::Item: Drop,
{
    ghost use Rattle.std.specs.Prelude.{◌≡◌, ℕ, List, [], map, Some, None};
    ghost use Rattle.std.specs.Option.{option_map};
    ghost use Rattle.dimacs_text.specs.Counted.{Counted, AreAccepted};

    ghost Value = { Counted T };

    ghost view = { λ l. record { text = l.text; counts = option_map (λ v. v.items) l.counts; lines = map T.written l.items.items } };

    // lines are taken after a `p` line alone, and only such as have no fault
    ghost invariant = { λ l.
        (option_map (λ v. v.items) l.counts ≡ None → l.items.items ≡ [])
        × ((counts : List ℕ) → option_map (λ v. v.items) l.counts ≡ Some counts → AreAccepted (T.wording l.text) counts (map T.written l.items.items)) };
}

impl<T: CountedText + Drop> CountedLines<T>
where
    T::Item: Drop,
{
    /// No line yet.
    pub fn new(alloc: Global, text: T) -> CountedLines<T>
        ensures { result ≡ none_yet text }
    {
        CountedLines {
            alloc,
            text,
            counts: None,
            items: Vec::new(alloc),
        }
    }
}

impl<T: CountedText + Drop> CountedLines<T>
where
    T::Item: Drop,
{
    /// Takes a line, which is no blank line and no comment.
    fn take(&mut self, line: &[u8]) -> Result<(), Untaken>
        ensures { Gives (λ _. self.new) (counted_line (T.wording self.old.text) self.old (words_of line.now)) result }
    {
        let Some((word, after)) = first_word(line) else {
            return Err(Untaken::Faulty(TextKind::UnknownLine));
        };
        if is_letter(word, b'p') {
            return self.take_problem(after);
        }
        if is_letter(word, self.text.letter()) {
            return self.take_numbers(after);
        }
        Err(Untaken::Faulty(TextKind::UnknownLine))
    }

    /// Takes a `p` line, by the words after the `p`.
    fn take_problem(&mut self, words: &[u8]) -> Result<(), Untaken>
        ensures { Gives (λ _. self.new) (problem_line (T.wording self.old.text) self.old (words_of words.now)) result }
    {
        if self.counts.is_some() {
            return Err(Untaken::Faulty(TextKind::SecondProblem));
        }
        let counts = counts_of(self.alloc, &self.text, words)?;
        self.counts = Some(counts);
        Ok(())
    }

    /// Takes a line of the letter, by the words after it.
    fn take_numbers(&mut self, words: &[u8]) -> Result<(), Untaken>
        ensures { Gives (λ _. self.new) (letter_line (T.wording self.old.text) self.old (words_of words.now)) result }
    {
        let Some(counts) = &self.counts else {
            return Err(Untaken::Faulty(TextKind::NoProblem));
        };
        let item = item_of(&self.text, counts, words)?;
        let declared = last_count(counts);
        if self.items.len() as u64 == declared {
            let found = declared + 1;
            return Err(Untaken::Faulty(TextKind::Count { declared, found }));
        }
        self.items.push(item)?;
        Ok(())
    }
}

impl<T: CountedText + Drop> JudgesLines for CountedLines<T>
where
    T::Item: Drop,
{
    ghost use Rattle.dimacs_text.specs.Counted.{counted_judged, counted_ended};

    type Value = T::Value;

    type Fault = T::Fault;

    ghost no_memory = { T.no_memory };

    ghost judged = { counted_judged T.wording T.in_text T.value_of };

    ghost ended = { counted_ended T.wording T.in_text T.value_of };

    fn judge(&mut self, number: u64, line: &[u8]) -> Result<(), T::Fault> {
        match self.take(line) {
            Ok(()) => Ok(()),
            Err(Untaken::Faulty(kind)) => Err(T::text_fault(TextFault { line: number, kind })),
            Err(Untaken::NoMemory) => Err(T::Fault::from(AllocError)),
        }
    }

    fn end(self, number: u64) -> Result<T::Value, T::Fault> {
        let CountedLines {
            alloc,
            text,
            counts,
            items,
        } = self;
        let Some(counts) = counts else {
            let kind = TextKind::NoProblem;
            return Err(T::text_fault(TextFault { line: number, kind }));
        };
        let declared = last_count(&counts);
        let found = items.len() as u64;
        if found < declared {
            let kind = TextKind::Count { declared, found };
            return Err(T::text_fault(TextFault { line: number, kind }));
        }
        text.value(alloc, counts, items)
    }

    ghost want = { T.want };
}

/// The counts of a `p` line, by the words after the `p`.
fn counts_of<T: CountedText>(alloc: Global, text: &T, words: &[u8]) -> Result<Vec<u64>, Untaken>
    ensures counts { Gives (λ counts. counts.items) (declared_counts (T.wording text.now) (words_of words.now)) result }
    ensures counted { IfOk result (λ counts. length counts.items ≡ length (T.wording text.now).limits) }
    ensures within { IfOk result (λ counts. are_within (T.wording text.now).limits counts.items ≡ true) }
{
    let Some(after) = strip_words(words, text.fixed()) else {
        return Err(Untaken::Faulty(TextKind::BadField));
    };
    let limits = text.limits();
    let numbers = read_counts(alloc, after, limits.len())?;
    counts_within(alloc, limits, &numbers)
}

/// The words of a line, which are so many numbers.
fn read_counts(alloc: Global, line: &[u8], places: usize) -> Result<Vec<u128>, Untaken>
    ensures numbers { GivesKept (λ counts. counts.items) (numbers_in places (words_of line.now)) result }
    ensures places { IfOk result (λ counts. length counts.items ≡ places) }
{
    let mut counts = vec![in alloc; 0u128; places]?;
    read_numbers(line, &mut counts)?;
    Ok(counts)
}

/// What a line of the letter stands for, by the words after it.
fn item_of<T: CountedText>(text: &T, counts: &[u64], words: &[u8]) -> Result<T::Item, TextKind>
    requires counted { length counts.now ≡ length (T.wording text.now).limits }
    requires within { are_within (T.wording text.now).limits counts.now ≡ true }
    ensures item { IfOk result (λ item. line_numbers (T.wording text.now) counts.now (words_of words.now) ≡ Ok (T.written item)) }
    ensures fault { IfErr result (λ kind. line_numbers (T.wording text.now) counts.now (words_of words.now) ≡ Err kind) }
    ensures numbers { IfOk result (λ item. length (T.written item) ≡ (T.wording text.now).numbers) }
    ensures faultless { IfOk result (λ item. (T.wording text.now).fault_of counts.now (T.written item) ≡ None) }
{
    let mut places = [0u128; 3];
    let numbers = &mut places[..text.numbers()];
    read_numbers(words, numbers)?;
    text.item(counts, numbers)
}

/// The last of the counts.
fn last_count(counts: &[u64]) -> u64
    ensures { result ≡ last_of counts.now }
{
    if counts.is_empty() {
        return 0;
    }
    counts[counts.len() - 1]
}

/// The counts that are these numbers, of which none may be past its limit.
fn counts_within(alloc: Global, limits: &[u64], numbers: &[u128]) -> Result<Vec<u64>, Untaken>
    requires { length numbers.now ≡ length limits.now }
    ensures counts { Gives (λ counts. counts.items) (within_limits limits.now numbers.now) result }
    ensures same { IfOk result (λ counts. counts.items ≡ numbers.now) }
    ensures within { IfOk result (λ _. are_within limits.now numbers.now ≡ true) }
{
    let mut counts = Vec::new(alloc);
    for (place, limit) in limits.iter().enumerate() {
        let number = numbers[place];
        if number > u128::from(*limit) {
            return Err(Untaken::Faulty(TextKind::TooMany));
        }
        counts.push(number as u64)?;
    }
    Ok(counts)
}

/// Whether a word is this letter.
fn is_letter(word: &[u8], letter: u8) -> bool
    ensures { result ≡ bytes_eq word.now (letter ∷ []) }
{
    word.len() == 1 && word[0] == letter
}
