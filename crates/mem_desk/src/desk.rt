ghost use Rattle.std.specs.Prelude.{◌≡◌, ◌≢◌, ℕ, ◌++◌, ◌<◌, ◌≤◌, ◌↔◌, [], length, take, drop, min, Bool, true, false, IsTrue, IfOk, OnOk, IfErr, OnErr, Contains, Some, None, Err};
ghost use Rattle.std.specs.FinMap as map;
ghost use Rattle.std.specs.Option.{option_copied};
ghost use Rattle.desk_io.specs.Contents.{appended};
ghost use Rattle.desk_io.specs.Counts.{CountsFailure, Rises};
ghost use Rattle.mem_desk.specs.Files.{files_of};
ghost use Rattle.mem_desk.specs.Memory.{next, count_of, IsFailing, FailsToOpen, with_call, with_fault, with_fault_counted, faults_of, with_file, with_input, with_input_kept, with_read, with_created, with_written, with_said};

use crate::calls::{Call, is_failing, one_more};
use desk_io::{Desk, DeskFault};
use std::alloc::{AllocError, Global};
use std::collections::BTreeMap;
use std::marker::Model;

/// A desk in memory, for tests: its files are a table, and what is said is kept.
#[derive(Drop)]
pub struct MemDesk {
    alloc: Global,
    files: BTreeMap<String, Vec<u8>>,
    /// The name of the input that was opened last, its bytes, and how many of these were read.
    name: String,
    input: Vec<u8>,
    at: usize,
    /// The inputs before it, each with what was left of it.
    earlier: Vec<(String, Vec<u8>)>,
    is_open: bool,
    /// The name of the file that was created last.
    out: String,
    is_created: bool,
    said: Vec<u8>,
    bite: u32,
    fails: Vec<(Call, u32)>,
    opens: u64,
    reads: u64,
    creates: u64,
    writes: u64,
    says: u64,
    input_faults: u64,
    output_faults: u64,
}

impl Model for MemDesk {
    ghost use Rattle.std.specs.Prelude.{ℕ, ◌<◌, ◌≤◌, drop, map, vec_len, string_bytes};
    ghost use Rattle.mem_desk.specs.Files.{files_of};
    ghost use Rattle.mem_desk.specs.Memory.{Memory, has_none};
    ghost use Rattle.mem_desk.specs.MemoryCode.{memory_code};

    ghost Value = { Memory };

    ghost coded = { memory_code };

    ghost view = { λ d. record {
      contents = record {
        files = files_of d.files.entries;
        steady = has_none d.fails.items;
        input = string_bytes d.name;
        rest = drop d.at d.input.items;
        earlier = map (λ e. (string_bytes e.0, e.1.items)) d.earlier.items;
        out = string_bytes d.out;
        said = d.said.items;
      };
      is_open = d.is_open;
      is_created = d.is_created;
      input_faults = d.input_faults;
      output_faults = d.output_faults;
      bite = d.bite;
      failing = d.fails.items;
      made = record { opens = d.opens; reads = d.reads; creates = d.creates; writes = d.writes; says = d.says };
    } };

    ghost invariant = { λ d. (d.at ≤ vec_len d.input) × (0 < d.bite) };
}

impl MemDesk {
    ghost use Rattle.mem_desk.specs.Memory.{empty_memory};

    /// A desk with no files, of which one call moves at most `bite` bytes. The n-th call of a kind, from 1, fails
    /// where `fails` has that kind with n.
    pub fn new(alloc: Global, bite: u32, fails: Vec<(Call, u32)>) -> Result<MemDesk, AllocError>
        requires { 0 < bite }
        ensures { IfOk result (λ desk. desk ≡ empty_memory bite fails.items) }
    {
        Ok(MemDesk {
            alloc,
            files: BTreeMap::new(alloc),
            name: String::new(alloc),
            input: Vec::new(alloc),
            at: 0,
            earlier: Vec::new(alloc),
            is_open: false,
            out: String::new(alloc),
            is_created: false,
            said: Vec::new(alloc),
            bite,
            fails,
            opens: 0,
            reads: 0,
            creates: 0,
            writes: 0,
            says: 0,
            input_faults: 0,
            output_faults: 0,
        })
    }

    /// Puts a file into the table, in place of the one of that name.
    pub fn put_file(&mut self, name: &str, bytes: &[u8]) -> Result<(), AllocError>
        ensures ok { OnOk result (self.new ≡ with_file self.old name.now bytes.now) }
        ensures err { OnErr result (self.new ≡ self.old) }
    {
        let name = String::from_str(self.alloc, name)?;
        let bytes = Vec::from_slice(self.alloc, bytes)?;
        let _replaced = self.files.insert(name, bytes)?;
        Ok(())
    }

    /// The bytes of a file, or none where the table has no such name.
    pub fn file(&self, name: &str) -> Option<&[u8]>
        ensures { option_copied result ≡ map.get self.now.contents.files name.now }
    {
        match self.files.get(name) {
            Some(bytes) => Some(bytes.as_slice()),
            None => None,
        }
    }

    /// What standard output has taken.
    pub fn said(&self) -> &[u8]
        ensures { result.now ≡ self.now.contents.said }
    {
        self.said.as_slice()
    }

    /// How many calls of the input and of the output have failed.
    pub fn faults(&self) -> (u64, u64)
        ensures input { result.0 ≡ self.now.input_faults }
        ensures output { result.1 ≡ self.now.output_faults }
    {
        (self.input_faults, self.output_faults)
    }

    /// Counts a call of this kind, and its fault where it is among the failing ones.
    fn begin(&mut self, call: Call) -> Result<(), DeskFault>
        ensures ok { OnOk result (self.new ≡ with_call call self.old) }
        ensures err { IfErr result (λ fault. self.new ≡ with_fault call fault self.old) }
        ensures failed { (result ≡ Err DeskFault.Failed) ↔ IsFailing call self.old }
        ensures never_memory { IfErr result (λ fault. fault ≡ DeskFault.Failed) }
        ensures steady { IsTrue self.old.contents.steady → result ≢ Err DeskFault.Failed }
        ensures counts { CountsFailure result (faults_of call self.old) (faults_of call self.new) }
    {
        let number = self.count(call);
        if is_failing(self.fails.as_slice(), call, number) {
            return Err(self.count_fault(call));
        }
        Ok(())
    }

    /// Counts a call of this kind, and answers its number.
    fn count(&mut self, call: Call) -> u64
        ensures number { result ≡ next (count_of call self.old.made) }
        ensures counted { self.new ≡ with_call call self.old }
    {
        let number = one_more(self.made(call));
        match call {
            Call::OpenIn => self.opens = number,
            Call::Read => self.reads = number,
            Call::Create => self.creates = number,
            Call::Write => self.writes = number,
            Call::Say => self.says = number,
        }
        number
    }

    /// How many calls of this kind were made.
    fn made(&self, call: Call) -> u64
        ensures { result ≡ count_of call self.now.made }
    {
        match call {
            Call::OpenIn => self.opens,
            Call::Read => self.reads,
            Call::Create => self.creates,
            Call::Write => self.writes,
            Call::Say => self.says,
        }
    }

    /// Counts the fault of a call of this kind.
    fn count_fault(&mut self, call: Call) -> DeskFault
        ensures fault { result ≡ DeskFault.Failed }
        ensures counted { self.new ≡ with_fault_counted call self.old }
        ensures rises { Rises (faults_of call self.old) (faults_of call self.new) }
    {
        match call {
            Call::OpenIn | Call::Read => self.input_faults = one_more(self.input_faults),
            Call::Create | Call::Write | Call::Say => {
                self.output_faults = one_more(self.output_faults);
            }
        }
        DeskFault::Failed
    }

    /// Puts the opened input, with what is left of it, after the inputs before it.
    fn keep_input(&mut self) -> Result<(), AllocError>
        ensures ok { OnOk result (self.new ≡ with_input_kept self.old) }
        ensures err { OnErr result (self.new ≡ self.old) }
    {
        let name = String::from_str(self.alloc, self.name.as_str())?;
        let rest = Vec::from_slice(self.alloc, &self.input.as_slice()[self.at..])?;
        self.earlier.push((name, rest))?;
        Ok(())
    }
}

/// Puts bytes at the end of the named file.
fn append(files: &mut BTreeMap<String, Vec<u8>>, name: &str, bytes: &[u8]) -> Result<(), AllocError>
    ensures ok { OnOk result (files_of files.new.entries ≡ appended (files_of files.old.entries) name.now bytes.now) }
    ensures err { OnErr result (files_of files.new.entries ≡ files_of files.old.entries) }
{
    match files.get_mut(name) {
        Some(held) => held.extend_from_slice(bytes),
        None => Ok(()),
    }
}

impl Desk for MemDesk {
    ghost told = { λ m. Some m.contents };

    ghost is_open = { λ m. m.is_open };

    ghost is_created = { λ m. m.is_created };

    ghost input_faults = { λ m. m.input_faults };

    ghost output_faults = { λ m. m.output_faults };

    fn open_in(&mut self, name: &str) -> Result<(), DeskFault>
        ensures failed { (result ≡ Err DeskFault.Failed) ↔ FailsToOpen self.old name.now }
        ensures found { OnOk result (map.get self.old.contents.files name.now ≡ Some self.new.contents.rest) }
        ensures steady { IsTrue self.old.contents.steady
            → ((result ≡ Err DeskFault.Failed) ↔ (map.get self.old.contents.files name.now ≡ None)) }
        ensures ok { OnOk result (self.new ≡ with_input self.old name.now self.new.contents.rest) }
        ensures err { IfErr result (λ fault. self.new ≡ with_fault Call.OpenIn fault self.old) }
        ensures input_count { CountsFailure result self.old.input_faults self.new.input_faults }
    {
        self.begin(Call::OpenIn)?;
        let Some(bytes) = self.file(name) else {
            return Err(self.count_fault(Call::OpenIn));
        };
        let input = Vec::from_slice(self.alloc, bytes)?;
        let name = String::from_str(self.alloc, name)?;
        self.keep_input()?;
        self.name = name;
        self.input = input;
        self.at = 0;
        self.is_open = true;
        Ok(())
    }

    fn read(&mut self, buf: &mut [u8]) -> Result<usize, DeskFault>
        requires { IsTrue self.old.is_open }
        ensures failed { (result ≡ Err DeskFault.Failed) ↔ IsFailing Call.Read self.old }
        ensures steady { IsTrue self.old.contents.steady → result ≢ Err DeskFault.Failed }
        ensures size { IfOk result (λ n. n ≡ min self.old.bite (min (length buf.old) (length self.old.contents.rest))) }
        ensures end { IfOk result (λ n. n ≡ 0 → 0 < length buf.old → self.old.contents.rest ≡ []) }
        ensures moved { IfOk result (λ n. self.old.contents.rest ≡ take n buf.new ++ self.new.contents.rest) }
        ensures ok { IfOk result (λ n. self.new ≡ with_read self.old n) }
        ensures err { IfErr result (λ fault. self.new ≡ with_fault Call.Read fault self.old) }
        ensures input_count { CountsFailure result self.old.input_faults self.new.input_faults }
        ensures never_memory { IfErr result (λ fault. fault ≡ DeskFault.Failed) }
    {
        self.begin(Call::Read)?;
        let rest = &self.input.as_slice()[self.at..];
        let count = (self.bite as usize).min(buf.len()).min(rest.len());
        buf[..count].copy_from_slice(&rest[..count]);
        self.at += count;
        Ok(count)
    }

    fn create(&mut self, name: &str) -> Result<(), DeskFault>
        ensures failed { (result ≡ Err DeskFault.Failed) ↔ IsFailing Call.Create self.old }
        ensures steady { IsTrue self.old.contents.steady → result ≢ Err DeskFault.Failed }
        ensures ok { OnOk result (self.new ≡ with_created self.old name.now) }
        ensures err { IfErr result (λ fault. self.new ≡ with_fault Call.Create fault self.old) }
        ensures output_count { CountsFailure result self.old.output_faults self.new.output_faults }
    {
        self.begin(Call::Create)?;
        let out = String::from_str(self.alloc, name)?;
        self.put_file(name, b"")?;
        self.out = out;
        self.is_created = true;
        Ok(())
    }

    fn write(&mut self, piece: &[u8]) -> Result<usize, DeskFault>
        requires { IsTrue self.old.is_created }
        ensures failed { (result ≡ Err DeskFault.Failed) ↔ IsFailing Call.Write self.old }
        ensures steady { IsTrue self.old.contents.steady → result ≢ Err DeskFault.Failed }
        ensures size { IfOk result (λ n. n ≡ min self.old.bite (length piece.now)) }
        ensures some { IfOk result (λ n. 0 < length piece.now → 0 < n) }
        ensures ok { IfOk result (λ n. self.new ≡ with_written self.old (take n piece.now)) }
        ensures err { IfErr result (λ fault. self.new ≡ with_fault Call.Write fault self.old) }
        ensures output_count { CountsFailure result self.old.output_faults self.new.output_faults }
    {
        self.begin(Call::Write)?;
        let count = (self.bite as usize).min(piece.len());
        append(&mut self.files, self.out.as_str(), &piece[..count])?;
        Ok(count)
    }

    fn say(&mut self, piece: &[u8]) -> Result<usize, DeskFault>
        ensures failed { (result ≡ Err DeskFault.Failed) ↔ IsFailing Call.Say self.old }
        ensures steady { IsTrue self.old.contents.steady → result ≢ Err DeskFault.Failed }
        ensures size { IfOk result (λ n. n ≡ min self.old.bite (length piece.now)) }
        ensures some { IfOk result (λ n. 0 < length piece.now → 0 < n) }
        ensures ok { IfOk result (λ n. self.new ≡ with_said self.old (take n piece.now)) }
        ensures err { IfErr result (λ fault. self.new ≡ with_fault Call.Say fault self.old) }
        ensures output_count { CountsFailure result self.old.output_faults self.new.output_faults }
    {
        self.begin(Call::Say)?;
        let count = (self.bite as usize).min(piece.len());
        self.said.extend_from_slice(&piece[..count])?;
        Ok(count)
    }
}
