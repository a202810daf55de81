ghost use Rattle.std.specs.Prelude.{◌≡◌, ℕ, List, Err, IfOk};
ghost use Rattle.index_file.specs.declared.fault.IndexFault.{IndexFault};
ghost use Rattle.index_file.specs.Judging.{fed, fault_within, index_of};
ghost use Rattle.index_file.specs.Gives.{Gives, answer_of};

use crate::fault::IndexFault;
use crate::progress::Progress;
use crate::stored_index::StoredIndex;
use desk_io::{Feed, Reader};
use std::alloc::{AllocError, Global};
use std::marker::Model;
use std::mem;

/// Reads an index file of either version in any pieces. It is refused at the first field that is wrong, and then for good.
#[derive(Drop)]
pub struct IndexReader {
    alloc: Global,
    state: Result<Progress, IndexFault>,
}

impl Model for IndexReader {
    ghost use Rattle.std.specs.Prelude.{Result};
    ghost use Rattle.index_file.specs.declared.fault.IndexFault.{IndexFault};
    ghost use Rattle.index_file.specs.Judging.{Reached};

    ghost Value = { Result Reached IndexFault };

    ghost view = { λ r. r.state };
}

impl IndexReader {
    ghost use Rattle.index_file.specs.Judging.{fault_after, index_after};

    /// A reader before any byte.
    pub fn new(alloc: Global) -> Result<IndexReader, AllocError>
        ensures refused { IfOk result (λ r. (bytes : List ℕ) → fault_after r bytes ≡ fault_within bytes) }
        ensures comes_to { IfOk result (λ r. (bytes : List ℕ) → index_after r bytes ≡ index_of bytes) }
    {
        Ok(IndexReader {
            alloc,
            state: Ok(Progress::new(alloc)),
        })
    }
}

impl Feed for IndexReader {
    ghost use Rattle.desk_io.specs.Reader.{TakesPiece};
    ghost use Rattle.index_file.specs.Judging.{fault_after, index_after};
    ghost use Rattle.index_file.specs.declared.fault.IndexFault.TheVariants.{NoMemory};

    type Fault = IndexFault;

    ghost feed_gives = { TakesPiece fault_after index_after NoMemory };

    fn feed(&mut self, piece: &[u8]) -> Result<(), IndexFault> {
        take(self.alloc, &mut self.state, piece);
        answer(&self.state)
    }
}

/// Takes the piece.
fn take(alloc: Global, state: &mut Result<Progress, IndexFault>, piece: &[u8])
    ensures gives { Gives state.new (fed state.old piece.now) }
    ensures same { (before : IndexFault) → state.old ≡ Err before → state.new ≡ Err before }
{
    let was = mem::replace(state, Err(IndexFault::NoMemory));
    let now = after(alloc, was, piece);
    drop(mem::replace(state, now));
}

/// What a reader answers that stands there.
fn answer(state: &Result<Progress, IndexFault>) -> Result<(), IndexFault>
    ensures { result ≡ answer_of state.now }
{
    match state {
        Ok(_) => Ok(()),
        Err(fault) => Err(*fault),
    }
}

/// Where a reading stands after the piece; one that was refused stays so.
fn after(
    alloc: Global,
    state: Result<Progress, IndexFault>,
    piece: &[u8],
) -> Result<Progress, IndexFault>
    ensures gives { Gives result (fed state piece.now) }
    ensures same { (before : IndexFault) → state ≡ Err before → result ≡ Err before }
{
    match state {
        Ok(progress) => progress.feed(alloc, piece),
        Err(fault) => Err(fault),
    }
}

impl Reader for IndexReader {
    ghost use Rattle.index_file.specs.Judging.{fault_after, index_after};
    ghost use Rattle.index_file.specs.declared.fault.IndexFault.TheVariants.{NoMemory};
    ghost use Rattle.index_file.specs.Cutting.{faults_last};

    type Value = StoredIndex;

    ghost no_memory = { NoMemory };

    ghost refused = { fault_after };

    ghost comes_to = { index_after };

    fn finish(self) -> Result<StoredIndex, IndexFault> {
        match self.state {
            Ok(progress) => progress.finish(),
            Err(fault) => Err(fault),
        }
    }

    ghost pieces = { λ old new piece answer takes. takes };

    ghost lasts = { faults_last };
}
