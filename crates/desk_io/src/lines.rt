ghost use Rattle.std.specs.Prelude.{◌≡◌, ◌≢◌, ℕ, ◌==◌, false, List, [], ◌∷◌, ◌++◌, All, IfOk, OnOk, OnErr, if◌then◌else◌};
ghost use Rattle.desk_io.specs.Lines.{LineSoFar, without_cr, whole_lines, open_rest, last_line, open_bytes};

use std::alloc::{AllocError, Global};
use std::marker::Model;

/// Gathers the lines of a text from its bytes, one line at a time.
/// Contracts see it as the line so far, and whether that line is whole.
#[derive(Debug, Drop)]
pub struct Lines {
    bytes: Vec<u8>,
    whole: bool,
}

impl Model for Lines {
    ghost use Rattle.desk_io.specs.Lines.{LineSoFar};

    ghost Value = { LineSoFar };

    ghost view = { λ l. record { bytes = l.bytes.items; whole = l.whole } };
}

impl Lines {
    /// Before the first byte of a text. Want of memory is the only error.
    pub fn new(alloc: Global) -> Result<Lines, AllocError>
        ensures { IfOk result (λ l. l ≡ record { bytes = []; whole = false }) }
    {
        Ok(Lines {
            bytes: Vec::new(alloc),
            whole: false,
        })
    }

    /// Takes the next byte of the text, and tells whether it ends a line, which `line` then gives. A byte after a whole
    /// line begins the next one. After want of memory, the only error, the open bytes are as they were.
    pub fn push(&mut self, byte: u8) -> Result<bool, AllocError>
        ensures line { IfOk result (λ whole. whole_lines (open_bytes self.old) (byte ∷ [])
            ≡ (if whole then self.new.bytes ∷ [] else [])) }
        ensures rest { OnOk result (open_bytes self.new ≡ open_rest (open_bytes self.old) (byte ∷ [])) }
        ensures whole { IfOk result (λ whole. self.new.whole ≡ whole) }
        ensures err { OnErr result (open_bytes self.new ≡ open_bytes self.old) }
    {
        if self.whole {
            self.clear();
        }
        if byte == b'\n' {
            drop_cr(&mut self.bytes);
            self.whole = true;
            return Ok(true);
        }
        self.bytes.push(byte)?;
        Ok(false)
    }

    /// Takes a run of bytes of the open line at once. After want of memory, the only error, the open bytes are as they were.
    pub fn gather(&mut self, run: &[u8]) -> Result<(), AllocError>
        requires { All (λ b. b ≢ 10) run.now }
        ensures ok { OnOk result (self.new ≡ record { bytes = open_bytes self.old ++ run.now; whole = false }) }
        ensures err { OnErr result (open_bytes self.new ≡ open_bytes self.old) }
    {
        if self.whole {
            self.clear();
        }
        self.bytes.extend_from_slice(run)
    }

    /// The whole line, without its LF and one CR before it; or what is there of the open one.
    pub fn line(&self) -> &[u8]
        ensures { result.now ≡ self.now.bytes }
    {
        self.bytes.as_slice()
    }

    /// Ends the text: where bytes are open they are its last line, without one CR at their end, which `line` then gives.
    pub fn take_rest(&mut self) -> bool
        ensures line { last_line (open_bytes self.old) ≡ (if result then self.new.bytes ∷ [] else []) }
        ensures rest { open_bytes self.new ≡ [] }
        ensures whole { self.new.whole ≡ result }
    {
        if self.whole {
            self.clear();
        }
        if self.bytes.is_empty() {
            return false;
        }
        drop_cr(&mut self.bytes);
        self.whole = true;
        true
    }

    /// Forgets the line, whole or not.
    pub fn clear(&mut self)
        ensures { self.new ≡ record { bytes = []; whole = false } }
    {
        self.bytes.clear();
        self.whole = false;
    }
}

/// A line without one CR at its end.
pub fn strip_cr(line: &[u8]) -> &[u8]
    ensures { result.now ≡ without_cr line.now }
{
    let len = line.len();
    if len > 0 && line[len - 1] == b'\r' {
        return &line[..len - 1];
    }
    line
}

/// Drops one CR at the end of a line.
fn drop_cr(line: &mut Vec<u8>)
    ensures { line.new.items ≡ without_cr line.old.items }
{
    let len = strip_cr(line).len();
    line.truncate(len);
}
