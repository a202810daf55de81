//! The task to merge in one shard of the table what all workers have put there.
ghost use Rattle.std.specs.Prelude.{◌≡◌, IfOk};

use gll_table::Build;
use hub_index::SplitRows;
use label_clean::{Cleaner, HubRows, RunList};
use std::alloc::{AllocError, Global};
use std::marker::{Model, PhantomData};
use std::sync::Arc;

/// A shard of the table by itself, which is the labelling up to the position `first`. Contracts see its number, from 0, that
/// position and its rows.
#[derive(Drop)]
pub struct Shard<B: Build> {
    pub(crate) rows: SplitRows,
    pub(crate) number: u32,
    pub(crate) first: u32,
    pub(crate) of: PhantomData<B>,
}

impl<B: Build> Model for Shard<B> {
    ghost use Rattle.std.specs.Prelude.{◌≤◌, length};
    ghost use Rattle.gll_table.specs.Tables.{IsShardBelow};
    ghost use Rattle.gll_merge.specs.Merging.{OneShard};

    ghost Value = { OneShard };

    ghost view = { λ s. record { number = s.number; first = s.first; rows = s.rows } };

    ghost invariant = { λ s. (s.first ≤ length B.order) × IsShardBelow B.edges B.order B.shift s.first s.number s.rows };
}

/// A shard of the table, and what is to be merged in it: a list of each worker. It is the labelling up to the position `next`, from 0,
/// then. Contracts see the shard, that position and the lists.
#[derive(Drop)]
pub struct MergeTask<B: Build> {
    pub(crate) shard: Shard<B>,
    pub(crate) next: u32,
    pub(crate) lists: Vec<RunList>,
    pub(crate) hub_rows: Arc<HubRows, Global>,
}

impl<B: Build> Model for MergeTask<B> {
    ghost use Rattle.gll_merge.specs.Merging.{IsMerge};
    ghost use Rattle.gll_merge.specs.Merging.{OneTask};

    ghost Value = { OneTask };

    ghost view = { λ t. record { shard = t.shard; next = t.next; lists = t.lists.items } };

    ghost invariant = { λ t. IsMerge B.edges B.order B.shift t.shard.number t.shard.first t.next t.lists.items t.hub_rows.value };
}

/// A shard in which lists were merged, and the lists, which are of no more use. Where memory ran out the shard is given up. Contracts
/// see both.
#[derive(Drop)]
pub struct Merged<B: Build> {
    pub(crate) shard: Result<Shard<B>, AllocError>,
    pub(crate) lists: Vec<RunList>,
}

impl<B: Build> Model for Merged<B> {
    ghost use Rattle.gll_merge.specs.Merging.{OneMerged};

    ghost Value = { OneMerged };

    ghost view = { λ m. record { shard = m.shard; lists = m.lists.items } };
}

impl<B: Build> Merged<B> {
    /// Lets go of it, where the build is over for want of memory.
    pub fn let_go(self) {}
}

impl<B: Build> MergeTask<B> {
    /// Merges the lists in the shard, which is the labelling up to the task's next position then. The lists come back in any case. The only
    /// error that stands in the shard's place is that memory ran out.
    pub fn merge(self, cleaner: &mut Cleaner) -> Merged<B>
        ensures number { IfOk result.shard (λ shard. shard.number ≡ self.shard.number) }
        ensures first { IfOk result.shard (λ shard. shard.first ≡ self.next) }
        ensures lists { result.lists ≡ self.lists }
    {
        let MergeTask {
            shard,
            next,
            lists,
            hub_rows,
        } = self;
        let Shard {
            mut rows,
            number,
            first: _,
            of,
        } = shard;
        match cleaner.join(&hub_rows, &lists, &mut rows) {
            Ok(()) => Merged {
                shard: Ok(Shard {
                    rows,
                    number,
                    first: next,
                    of,
                }),
                lists,
            },
            Err(fault) => Merged {
                shard: Err(fault),
                lists,
            },
        }
    }
}
