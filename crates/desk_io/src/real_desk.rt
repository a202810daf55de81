ghost use Rattle.std.specs.Prelude.{◌≡◌, ◌<◌, ◌≤◌, length, false, None, IsTrue, IfOk, OnOk, OnErr};
ghost use Rattle.desk_io.specs.Counts.{CountsFailure, Rises};

use crate::desk::{Desk, DeskFault};
use std::alloc::Global;
use std::fs;
use std::io::{Print, Read, Write};
use std::marker::Model;
use std::rt::Files;

/// Files, and standard output. Nothing is claimed of their bytes.
#[derive(Drop)]
pub struct RealDesk<R: Files> {
    rt: R,
    input: Option<R::File>,
    output: Option<R::File>,
    input_faults: u64,
    output_faults: u64,
}

impl<R: Files> Model for RealDesk<R> {
    ghost use Rattle.std.specs.Prelude.{is_some};
    ghost use Rattle.desk_io.specs.Outside.{Outside};

    ghost Value = { Outside };

    ghost view = { λ d. record {
      is_open = is_some d.input;
      is_created = is_some d.output;
      input_faults = d.input_faults;
      output_faults = d.output_faults;
    } };
}

impl<R: Files> RealDesk<R> {
    /// The desk over this runtime, with no input opened and no file created yet.
    pub fn new(rt: R, _alloc: Global) -> RealDesk<R>
        ensures { result ≡ record { is_open = false; is_created = false; input_faults = 0; output_faults = 0 } }
    {
        RealDesk {
            rt,
            input: None,
            output: None,
            input_faults: 0,
            output_faults: 0,
        }
    }

    /// How many calls of the input and of the output have failed.
    pub fn faults(&self) -> (u64, u64)
        ensures input { result.0 ≡ self.now.input_faults }
        ensures output { result.1 ≡ self.now.output_faults }
    {
        (self.input_faults, self.output_faults)
    }

    /// Counts a failed call of the input.
    fn input_failed(&mut self) -> DeskFault
        ensures fault { result ≡ DeskFault.Failed }
        ensures open { self.new.is_open ≡ self.old.is_open }
        ensures created { self.new.is_created ≡ self.old.is_created }
        ensures input_count { Rises self.old.input_faults self.new.input_faults }
        ensures output_count { self.new.output_faults ≡ self.old.output_faults }
    {
        self.input_faults = self.input_faults.saturating_add(1);
        DeskFault::Failed
    }

    /// Counts a failed call of the output.
    fn output_failed(&mut self) -> DeskFault
        ensures fault { result ≡ DeskFault.Failed }
        ensures open { self.new.is_open ≡ self.old.is_open }
        ensures created { self.new.is_created ≡ self.old.is_created }
        ensures input_count { self.new.input_faults ≡ self.old.input_faults }
        ensures output_count { Rises self.old.output_faults self.new.output_faults }
    {
        self.output_faults = self.output_faults.saturating_add(1);
        DeskFault::Failed
    }
}

impl<R: Files + Print> Desk for RealDesk<R> {
    ghost told = { λ _. None };

    ghost is_open = { λ d. d.is_open };

    ghost is_created = { λ d. d.is_created };

    ghost input_faults = { λ d. d.input_faults };

    ghost output_faults = { λ d. d.output_faults };

    fn open_in(&mut self, name: &str) -> Result<(), DeskFault> {
        match fs::open(&self.rt, name) {
            Ok(file) => {
                self.input = Some(file);
                Ok(())
            }
            Err(_) => Err(self.input_failed()),
        }
    }

    fn read(&mut self, buf: &mut [u8]) -> Result<usize, DeskFault> {
        let Some(file) = &mut self.input else {
            return Err(self.input_failed());
        };
        match file.read(buf) {
            Ok(count) => Ok(count),
            Err(_) => Err(self.input_failed()),
        }
    }

    fn create(&mut self, name: &str) -> Result<(), DeskFault> {
        match fs::create(&self.rt, name) {
            Ok(file) => {
                self.output = Some(file);
                Ok(())
            }
            Err(_) => Err(self.output_failed()),
        }
    }

    fn write(&mut self, piece: &[u8]) -> Result<usize, DeskFault> {
        let Some(file) = &mut self.output else {
            return Err(self.output_failed());
        };
        match file.write(piece) {
            Ok(count) if count > 0 || piece.is_empty() => Ok(count),
            _ => Err(self.output_failed()),
        }
    }

    fn say(&mut self, piece: &[u8]) -> Result<usize, DeskFault> {
        match self.rt.write_some(piece) {
            Ok(count) if count > 0 || piece.is_empty() => Ok(count),
            _ => Err(self.output_failed()),
        }
    }
}
