//! Shards that are merged make a table again.
ghost use Rattle.std.specs.Prelude.{◌≡◌, None, true, replicate, IfOk};
ghost use Rattle.gll_merge.specs.Merging.{ArePlaced, are_filled, with_shard};

use crate::merge_task::Shard;
use crate::merging::Merging;
use gll_table::{Build, BuildContext, Table, Workspaces};
use hub_index::SplitRows;
use std::alloc::{AllocError, Global};
use std::mem::replace;

/// The table of the shards, once each is merged, which is the labelling up to the position of the next root; and the workspaces. The
/// only error is that memory ran out.
pub fn merged_table<B: Build>(
    context: &BuildContext<'_, B>,
    merging: Merging<B>,
) -> Result<(Table<B>, Workspaces<B>), AllocError>
    requires { are_filled merging.places ≡ true }
    ensures first { IfOk result (λ r. r.0.first ≡ merging.next) }
    ensures workspaces { IfOk result (λ r. r.1 ≡ merging.workspaces) }
{
    let mut merging = merging;
    let alloc = context.alloc;
    let next = merging.next;
    let places = replace(&mut merging.places, places_for(alloc, context.count)?);
    let workspaces = replace(&mut merging.workspaces, Workspaces::new(alloc));
    Ok((table_of(context, next, places)?, workspaces))
}

/// So many places with nothing. The only error is that memory ran out.
pub fn places_for(alloc: Global, count: u32) -> Result<Vec<Option<SplitRows>>, AllocError>
    ensures { IfOk result (λ places. places.items ≡ replicate count None) }
{
    let mut places = Vec::with_capacity(alloc, count as usize)?;
    for _ in 0..count {
        places.push(None)?;
    }
    Ok(places)
}

/// Puts a shard that is up to the position `next`, from 0, at the place of its number, if there is one and nothing stands there yet.
pub fn put_at<B: Build>(next: u32, shard: Shard<B>, places: &mut [Option<SplitRows>])
    ensures added { places.new ≡ with_shard next places.old shard }
    ensures placed { ArePlaced B.edges B.order B.shift next places.old → ArePlaced B.edges B.order B.shift next places.new }
{
    let Shard {
        rows,
        number,
        first,
        of: _,
    } = shard;
    let place = number as usize;
    if first == next && place < places.len() && places[place].is_none() {
        places[place] = Some(rows);
    }
}

/// The table of the shards at these places. The only error is that memory ran out.
fn table_of<B: Build>(
    context: &BuildContext<'_, B>,
    next: u32,
    places: Vec<Option<SplitRows>>,
) -> Result<Table<B>, AllocError>
    requires placed { ArePlaced B.edges B.order B.shift next places.items }
    requires filled { are_filled places.items ≡ true }
    ensures { IfOk result (λ table. table.first ≡ next) }
{
    let mut shards = Vec::with_capacity(context.alloc, places.len())?;
    for place in places {
        let Some(rows) = place else {
            unreachable!();
        };
        shards.push(rows)?;
    }
    Ok(Table::of_shards(context, shards, next))
}
