//! The global table, in shards.
ghost use Rattle.std.specs.Prelude.{◌≡◌, ◌≤◌, length, IfOk};
ghost use Rattle.hub_index.specs.Shards.{sharded_rows};
ghost use Rattle.label_clean.specs.Below.{IsChlBelow};
ghost use Rattle.gll_table.specs.Tables.{AreShardsBelow};

use crate::context::BuildContext;
use crate::named::Build;
use hub_index::{RowList, ShardedRows, Shards, SplitRows};
use std::alloc::{AllocError, Global};
use std::marker::{Model, PhantomData};

/// The global table of a build, in shards: the labelling up to the position `first`, from 0, of the next root. Contracts see that
/// position and the rows of each shard.
#[derive(Drop)]
pub struct Table<B: Build> {
    shards: Vec<SplitRows>,
    plan: Shards,
    n: u32,
    first: u32,
    of: PhantomData<B>,
}

impl<B: Build> Model for Table<B> {
    ghost use Rattle.std.specs.Prelude.{◌≡◌, length};
    ghost use Rattle.gll_table.specs.Tables.{AreShardsBelow, ShardedTable};

    ghost Value = { ShardedTable };

    ghost view = { λ t. record { first = t.first; shards = t.shards.items } };

    ghost invariant = { λ t. (t.n ≡ length B.order) × (t.plan.shift ≡ B.shift) × AreShardsBelow B.edges B.order B.shift t.first t.shards.items };
}

impl<B: Build> Table<B> {
    /// The table of these rows, which are the labelling up to the position `first`, from 0. The rows are copied. The only error is that
    /// memory ran out.
    pub fn of_rows(
        context: &BuildContext<'_, B>,
        rows: &RowList,
        first: u32,
    ) -> Result<Table<B>, AllocError>
        requires below { IsChlBelow B.edges B.order first rows.now }
        requires first { first ≤ length B.order }
        ensures { IfOk result (λ table. table.first ≡ first) }
    {
        let n = context.graph.n();
        let mut shards = Vec::with_capacity(context.alloc, context.count as usize)?;
        for number in 0..context.count {
            let shard = SplitRows::of_shard(context.alloc, rows, context.plan, number)?;
            shards.push(shard)?;
        }
        Ok(Table {
            shards,
            plan: context.plan,
            n,
            first,
            of: PhantomData,
        })
    }

    /// The table of these shards, which are the labelling up to the position `first`, from 0.
    pub fn of_shards(context: &BuildContext<'_, B>, shards: Vec<SplitRows>, first: u32) -> Table<B>
        requires { AreShardsBelow B.edges B.order B.shift first shards.items }
        ensures { result.first ≡ first }
    {
        Table {
            shards,
            plan: context.plan,
            n: context.graph.n(),
            first,
            of: PhantomData,
        }
    }

    /// The position, from 0, of the next root.
    pub fn first(&self) -> u32
        ensures value { result ≡ self.now.first }
        ensures within { result ≤ length B.order }
    {
        self.first
    }

    /// Its shards, which are the labelling up to the position of the next root.
    pub fn into_shards(self) -> Vec<SplitRows>
        ensures same { result.items ≡ self.shards }
        ensures below { AreShardsBelow B.edges B.order B.shift self.first result.items }
    {
        let Table {
            shards,
            plan: _,
            n: _,
            first: _,
            of: _,
        } = self;
        shards
    }

    /// Its rows, to be looked at.
    pub fn rows(&self) -> ShardedRows<'_>
        ensures value { result ≡ sharded_rows B.shift (length B.order) self.now.shards }
        ensures below { IsChlBelow B.edges B.order self.now.first result }
    {
        ShardedRows::of(self.shards.as_slice(), self.plan, self.n)
    }

    /// Its rows, no longer in shards. The only error is that memory ran out.
    pub fn into_rows(self, alloc: Global) -> Result<SplitRows, AllocError>
        ensures { IfOk result (λ rows. IsChlBelow B.edges B.order self.first rows) }
    {
        let Table {
            shards,
            plan,
            n,
            first: _,
            of: _,
        } = self;
        let rows = SplitRows::of_shards(alloc, shards, plan, n)?;
        Ok(rows)
    }
}
