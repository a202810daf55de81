//! What workers hand in at the end of a superstep, and what all of it comes to.
ghost use Rattle.std.specs.Prelude.{◌≡◌, ◌≤◌, ◌∷◌, [], ◌++◌, All, length, map, IfOk, OnOk};
ghost use Rattle.std.specs.List.Sorted.{IsPermutation};
ghost use Rattle.table_seats.specs.Numbers.{numbers};
ghost use Rattle.gll_table.specs.Outputs.{IsOutput, all_roots};
ghost use Rattle.gll_superstep.specs.Workers.{IsFirstSeat, so_far};

use crate::superstep::Superstep;
use gll_table::{Build, BuildContext, Table, WorkerOutput};
use root_claims::ClaimSeat;
use std::alloc::{AllocError, Global};
use std::marker::Model;
use std::mem::replace;
use std::sync::{Arc, Wait};

/// What a worker has put in a superstep, with its seat there, which has got the roots whose trees were grown. Contracts see the
/// output.
#[derive(Drop)]
pub struct Grown<B: Build> {
    pub(crate) superstep: Arc<Superstep<B>, Global>,
    pub(crate) seat: ClaimSeat,
    pub(crate) output: WorkerOutput<B>,
}

impl<B: Build> Model for Grown<B> {
    ghost use Rattle.gll_table.specs.Outputs.{Output};
    ghost use Rattle.gll_superstep.specs.Workers.{IsGrownWith};

    ghost Value = { Output };

    ghost view = { λ g. g.output };

    ghost invariant = { λ g. IsGrownWith B.edges B.order B.shift B.claims g.superstep.value.table.first g.seat g.output };
}

impl<B: Build> Grown<B> {
    /// Lets go of it, where the build is over for want of memory.
    pub fn let_go(_one: Result<Grown<B>, AllocError>) {}
}

/// What workers have handed in in one superstep, as far as memory sufficed. Contracts see it.
pub struct Outputs<B: Build> {
    grown: Vec<Result<Grown<B>, AllocError>>,
}

impl<B: Build> Model for Outputs<B> {
    ghost use Rattle.std.specs.Prelude.{List, Result};
    ghost use Rattle.std.specs.declared.alloc.AllocError.{AllocError};
    ghost use Rattle.gll_table.specs.Outputs.{Output};

    ghost Value = { List (Result Output AllocError) };

    ghost view = { λ o. o.grown.items };
}

// Written out, so that crates above prove no drop of what it holds.
impl<B: Build> Drop for Outputs<B> {
    fn drop(self) {
        let Outputs { grown: _ } = self;
    }
}

impl<B: Build> Outputs<B> {
    /// None yet. The only error is that memory ran out.
    pub fn new(context: &BuildContext<'_, B>) -> Result<Outputs<B>, AllocError>
        ensures { IfOk result (λ outputs. outputs ≡ []) }
    {
        Ok(Outputs {
            grown: Vec::with_capacity(context.alloc, context.workers as usize)?,
        })
    }

    /// How many.
    pub fn len(&self) -> usize
        ensures { result ≡ length self.now }
    {
        self.grown.len()
    }

    /// Adds one. The only error is that memory ran out.
    pub fn add(&mut self, one: Result<Grown<B>, AllocError>) -> Result<(), AllocError>
        ensures { OnOk result (self.new ≡ self.old ++ one ∷ []) }
    {
        self.grown.push(one)?;
        Ok(())
    }

    /// All of them.
    fn into_list(self, alloc: Global) -> Vec<Result<Grown<B>, AllocError>>
        ensures { result.items ≡ self }
    {
        let mut outputs = self;
        replace(&mut outputs.grown, Vec::new(alloc))
    }
}

/// A superstep that is over: its table, what all workers have put over it, the position `next`, from 0, of the root after those whose
/// trees were grown, and a seat with which nobody has claimed a root from there on.
#[derive(Drop)]
pub struct EndedSuperstep<B: Build> {
    pub table: Table<B>,
    pub outputs: Vec<WorkerOutput<B>>,
    pub next: u32,
    pub seat: ClaimSeat,
}

/// Outputs of one superstep, and their seats as one.
#[derive(Drop)]
struct Joined<B: Build> {
    superstep: Arc<Superstep<B>, Global>,
    seat: ClaimSeat,
    outputs: Vec<WorkerOutput<B>>,
}

impl<B: Build> Model for Joined<B> {
    ghost use Rattle.std.specs.Prelude.{List};
    ghost use Rattle.gll_table.specs.Outputs.{Output};
    ghost use Rattle.gll_superstep.specs.Workers.{AreJoined};

    ghost Value = { List Output };

    ghost view = { λ j. j.outputs.items };

    ghost invariant = { λ j. AreJoined B.edges B.order B.shift B.claims j.superstep.value.table.first j.seat j.outputs.items };
}

/// The end of a superstep, once each worker of the build has handed in its output: the roots are those that come next, since the
/// seats are all that there are. Each output is kept, in their order. The only error is that memory ran out, for one of them or here.
pub fn end_superstep<B: Build, R: Wait>(
    rt: &R,
    context: &BuildContext<'_, B>,
    outputs: Outputs<B>,
) -> Result<EndedSuperstep<B>, AllocError>
    requires { length outputs ≡ B.workers }
    ensures all { IfOk result (λ ended. map (λ o. Ok o) ended.outputs.items ≡ outputs) }
    ensures over { IfOk result (λ ended. All (λ o. o.first ≡ ended.table.first) ended.outputs.items) }
    ensures are { IfOk result (λ ended. All (IsOutput B.edges B.order B.shift) ended.outputs.items) }
    ensures roots { IfOk result (λ ended. IsPermutation (all_roots ended.outputs.items) (numbers ended.table.first ended.next)) }
    ensures up { IfOk result (λ ended. ended.table.first ≤ ended.next) }
    ensures within { IfOk result (λ ended. ended.next ≤ length B.order) }
    ensures seat { IfOk result (λ ended. IsFirstSeat B.claims ended.next ended.seat) }
    ensures some { IfOk result (λ ended. 1 ≤ length B.order) }
{
    let Joined {
        superstep,
        seat,
        outputs,
    } = all_joined(context, outputs.into_list(context.alloc))?;
    let mut seat = seat;
    let next = context.claims.settle(&mut seat);
    let table = alone(rt, superstep).into_table();
    Ok(EndedSuperstep {
        table,
        outputs,
        next,
        seat,
    })
}

/// All that workers have handed in, with their seats as one. The only error is that memory ran out, for one of them or here.
fn all_joined<B: Build>(
    context: &BuildContext<'_, B>,
    grown: Vec<Result<Grown<B>, AllocError>>,
) -> Result<Joined<B>, AllocError>
    requires { 1 ≤ length grown.items }
    ensures { IfOk result (λ joined. map (λ o. Ok o) joined ≡ grown.items) }
{
    let mut all: Option<Joined<B>> = None;
    for one in grown {
        all = Some(and_one(context, all, one?)?);
    }
    match all {
        Some(joined) => Ok(joined),
        None => unreachable!(),
    }
}

/// Outputs, if there are any, and one more. The only error is that memory ran out.
fn and_one<B: Build>(
    context: &BuildContext<'_, B>,
    all: Option<Joined<B>>,
    one: Grown<B>,
) -> Result<Joined<B>, AllocError>
    ensures { IfOk result (λ joined. joined ≡ so_far all ++ one ∷ []) }
{
    match all {
        None => one_joined(context, one),
        Some(joined) => joined_with(context, joined, one),
    }
}

/// One output. The only error is that memory ran out.
fn one_joined<B: Build>(
    context: &BuildContext<'_, B>,
    one: Grown<B>,
) -> Result<Joined<B>, AllocError>
    ensures { IfOk result (λ joined. joined ≡ one ∷ []) }
{
    let Grown {
        superstep,
        seat,
        output,
    } = one;
    let mut outputs = Vec::with_capacity(context.alloc, context.workers as usize)?;
    outputs.push(output)?;
    Ok(Joined {
        superstep,
        seat,
        outputs,
    })
}

/// Outputs and one more: it is of the same superstep, since its seat is at the same claims. The only error is that memory ran out.
fn joined_with<B: Build>(
    context: &BuildContext<'_, B>,
    joined: Joined<B>,
    one: Grown<B>,
) -> Result<Joined<B>, AllocError>
    ensures { IfOk result (λ all. all ≡ joined ++ one ∷ []) }
{
    let Joined {
        superstep,
        mut seat,
        mut outputs,
    } = joined;
    let Grown {
        superstep: _,
        seat: other,
        output,
    } = one;
    context.claims.join(&mut seat, other);
    outputs.push(output)?;
    Ok(Joined {
        superstep,
        seat,
        outputs,
    })
}

/// The superstep, once all others have let go of it.
fn alone<B: Build, R: Wait>(rt: &R, superstep: Arc<Superstep<B>, Global>) -> Superstep<B>
    ensures { result ≡ superstep.value }
{
    let mut superstep = superstep;
    for _ in rt.forever() {
        match Arc::try_unwrap(superstep) {
            Ok(superstep) => return superstep,
            Err(again) => superstep = again,
        }
    }
    unreachable!()
}
