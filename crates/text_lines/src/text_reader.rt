ghost use Rattle.std.specs.Prelude.{◌≡◌, ◌≢◌, ◌⊎◌, ℕ, List, ◌∷◌, ◌++◌, All, Result, Ok, Err, IfOk, OnOk, IfErr, IfSome, IfNone};
ghost use Rattle.text_lines.specs.Judgement.{after_line};
ghost use Rattle.text_lines.specs.TextReading.{at_start};

use crate::judges_lines::JudgesLines;
use crate::words::is_skipped_line;
use desk_io::{Feed, Lines, Reader, strip_cr};
use memchr::memchr;
use std::alloc::{AllocError, Global};
use std::marker::Model;

/// Reads a text piece by piece for one who judges its lines.
#[derive(Drop)]
pub struct TextReader<J: JudgesLines + Drop>
where
    J::Fault: Copy + Drop,
{
    judge: J,
    /// The number of the next line.
    next: u64,
    gathered: Lines,
    /// The fault that was answered.
    refusal: Option<J::Fault>,
}

impl<J: JudgesLines + Drop> Model for TextReader<J>
where
    J::Fault: Copy + Drop,
{
    ghost use Rattle.desk_io.specs.Lines.{open_bytes};
    ghost use Rattle.text_lines.specs.TextReading.{Reading};

    ghost Value = { Reading J J.Fault };

    ghost view = { λ r. record { progress = record { next = r.next; state = r.judge }; begun = open_bytes r.gathered; refusal = r.refusal } };
}

impl<J: JudgesLines + Drop> TextReader<J>
where
    J::Fault: Copy + Drop,
{
    /// A reader before any text.
    pub fn new(alloc: Global, judge: J) -> Result<TextReader<J>, AllocError>
        ensures { IfOk result (λ r. r ≡ at_start judge) }
    {
        Ok(TextReader {
            judge,
            next: 1,
            gathered: Lines::new(alloc)?,
            refusal: None,
        })
    }
}

impl<J: JudgesLines + Drop> Feed for TextReader<J>
where
    J::Fault: Copy + Drop,
{
    ghost use Rattle.text_lines.specs.TextReading.{Reads};

    type Fault = J::Fault;

    ghost feed_gives = { Reads J.judged J.ended J.no_memory };

    fn feed(&mut self, piece: &[u8]) -> Result<(), J::Fault> {
        if let Some(fault) = self.refusal {
            return Err(fault);
        }
        match self.take(piece) {
            Ok(()) => Ok(()),
            Err(fault) => {
                self.refusal = Some(fault);
                Err(fault)
            }
        }
    }
}

impl<J: JudgesLines + Drop> Reader for TextReader<J>
where
    J::Fault: Copy + Drop,
{
    ghost use Rattle.text_lines.specs.TextReading.{refused, comes_to};
    ghost use Rattle.text_lines.specs.ReadingLaws.{takes_piece, lasts};

    type Value = J::Value;

    ghost no_memory = { J.no_memory };

    ghost refused = { refused J.judged J.ended };

    ghost comes_to = { comes_to J.judged J.ended };

    fn finish(mut self) -> Result<J::Value, J::Fault> {
        if let Some(fault) = self.refusal {
            return Err(fault);
        }
        if self.gathered.take_rest() {
            judge_line(&mut self.judge, &mut self.next, self.gathered.line())?;
        }
        let TextReader {
            judge,
            next,
            gathered: _,
            refusal: _,
        } = self;
        judge.end(next)
    }

    ghost pieces = { takes_piece J.judged J.ended J.no_memory };

    ghost lasts = { lasts J.judged J.ended };
}

impl<J: JudgesLines + Drop> TextReader<J>
where
    J::Fault: Copy + Drop,
{
    ghost use Rattle.std.specs.Prelude.{◌≡◌, ◌≢◌, ◌⊎◌, [], ◌++◌, All, Ok, Err, OnOk, IfErr};
    ghost use Rattle.desk_io.specs.Lines.{without_cr, whole_lines, open_rest};
    ghost use Rattle.text_lines.specs.Judgement.{after_line, after_lines};

    /// Judges the lines that end within a piece, and keeps what is after them.
    fn take(&mut self, piece: &[u8]) -> Result<(), J::Fault>
        ensures judged { OnOk result (after_lines J.judged J.ended self.old.progress (whole_lines self.old.begun piece.now) ≡ Ok self.new.progress) }
        ensures begun { OnOk result (self.new.begun ≡ open_rest self.old.begun piece.now) }
        ensures refusal { self.new.refusal ≡ self.old.refusal }
        ensures err { IfErr result (λ fault. (fault ≡ J.no_memory)
            ⊎ (after_lines J.judged J.ended self.old.progress (whole_lines self.old.begun piece.now) ≡ Err fault)) }
    {
        let mut rest = piece;
        while let Some((run, after)) = first_line(rest) {
            if let Err(fault) = self.take_line(run) {
                return Err(fault);
            }
            rest = after;
        }
        self.gathered.gather(rest)?;
        Ok(())
    }

    /// Judges the open line, which ends after a run of bytes.
    fn take_line(&mut self, run: &[u8]) -> Result<(), J::Fault>
        requires { All (λ b. b ≢ 10) run.now }
        ensures judged { OnOk result (after_line J.judged J.ended self.old.progress (without_cr (self.old.begun ++ run.now)) ≡ Ok self.new.progress) }
        ensures begun { OnOk result (self.new.begun ≡ []) }
        ensures refusal { self.new.refusal ≡ self.old.refusal }
        ensures err { IfErr result (λ fault. (fault ≡ J.no_memory)
            ⊎ (after_line J.judged J.ended self.old.progress (without_cr (self.old.begun ++ run.now)) ≡ Err fault)) }
    {
        if self.gathered.line().is_empty() {
            return judge_line(&mut self.judge, &mut self.next, strip_cr(run));
        }
        self.gathered.gather(run)?;
        let _ = self.gathered.push(b'\n')?;
        judge_line(&mut self.judge, &mut self.next, self.gathered.line())?;
        self.gathered.clear();
        Ok(())
    }
}

/// The bytes before the first LF and those after it.
fn first_line(bytes: &[u8]) -> Option<(&[u8], &[u8])>
    ensures found { IfSome result (λ r. bytes.now ≡ r.0.now ++ 10 ∷ r.1.now) }
    ensures first { IfSome result (λ r. All (λ b. b ≢ 10) r.0.now) }
    ensures none { IfNone result (All (λ b. b ≢ 10) bytes.now) }
{
    let end = memchr(b'\n', bytes)?;
    Some((&bytes[..end], &bytes[end + 1..]))
}

/// Judges the next line of a text, and skips it where it is blank or a comment.
fn judge_line<J: JudgesLines>(judge: &mut J, next: &mut u64, line: &[u8]) -> Result<(), J::Fault>
    ensures judged { OnOk result (after_line J.judged J.ended (record { next = next.old; state = judge.old }) line.now
        ≡ Ok (record { next = next.new; state = judge.new })) }
    ensures err { IfErr result (λ fault. (fault ≡ J.no_memory)
        ⊎ (after_line J.judged J.ended (record { next = next.old; state = judge.old }) line.now ≡ Err fault)) }
{
    let number = *next;
    *next = number.saturating_add(1);
    if is_skipped_line(line) {
        return Ok(());
    }
    judge.judge(number, line)
}
