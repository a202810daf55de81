//! What a worker put, in parts for the shards of the table, and what of it stands at the next roots.
ghost use Rattle.std.specs.Prelude.{◌≡◌, ℕ, ◌<◌, ◌≤◌, [], All, length, vec_len, OnOk};
ghost use Rattle.hub_index.specs.Views.{IsNode};
ghost use Rattle.hub_index.specs.Shards.{shard_number};
ghost use Rattle.label_clean.specs.RunLists.{HasItsRuns, entries_at};
ghost use Rattle.gll_table.specs.Partition.{AreParts, hub_entries, shard_entries};

use hub_index::{NodeEntry, Shards};
use label_clean::{HubEntry, RunList};
use rank_table::Ranking;
use std::alloc::{AllocError, Global};

/// Cuts entries in a part for each of so many shards, instead of what the parts had: an entry has the place in its shard for its node
/// there. Each part has its runs then. The only error is that memory ran out.
pub fn partition(
    alloc: Global,
    plan: Shards,
    count: u32,
    entries: &[NodeEntry],
    parts: &mut Vec<RunList>,
) -> Result<(), AllocError>
    requires shift { plan.shift ≤ 30 }
    requires nodes { All (λ e. 1 ≤ e.node) entries.now }
    requires within { All (λ e. shard_number plan.shift e.node < count) entries.now }
    ensures { OnOk result (AreParts plan.shift count entries.now parts.new.items) }
{
    make_empty(alloc, count, parts)?;
    partition_entries(plan, entries, parts)?;
    list_all_runs(parts)
}

/// Makes so many lists, all of them empty. The room of those that there were stays. The only error is that memory ran out.
fn make_empty(alloc: Global, count: u32, lists: &mut Vec<RunList>) -> Result<(), AllocError>
    ensures size { OnOk result (vec_len lists.new ≡ count) }
    ensures empty { OnOk result (All (λ list. list.entries.items ≡ []) lists.new.items) }
{
    lists.truncate(count as usize);
    for list in lists.iter_mut() {
        list.clear();
    }
    for _ in lists.len()..count as usize {
        lists.push(RunList::new(alloc))?;
    }
    Ok(())
}

/// Puts each entry last in the list of its shard. The only error is that memory ran out.
fn partition_entries(
    plan: Shards,
    entries: &[NodeEntry],
    parts: &mut [RunList],
) -> Result<(), AllocError>
    requires shift { plan.shift ≤ 30 }
    requires nodes { All (λ e. 1 ≤ e.node) entries.now }
    requires within { All (λ e. shard_number plan.shift e.node < length parts.old) entries.now }
    requires empty { All (λ list. list.entries.items ≡ []) parts.old }
    ensures size { length parts.new ≡ length parts.old }
    ensures each { OnOk result ((number : ℕ) → number < length parts.old → entries_at parts.new number ≡ shard_entries plan.shift number entries.now) }
{
    for entry in entries {
        let number = plan.number(entry.node);
        parts[number as usize].entries.push(NodeEntry {
            node: plan.place(entry.node),
            pos: entry.pos,
            dist: entry.dist,
        })?;
    }
    Ok(())
}

/// Lists the runs of each list. The only error is that memory ran out.
fn list_all_runs(lists: &mut [RunList]) -> Result<(), AllocError>
    ensures size { length lists.new ≡ length lists.old }
    ensures entries { (number : ℕ) → entries_at lists.new number ≡ entries_at lists.old number }
    ensures runs { OnOk result (All HasItsRuns lists.new) }
{
    for k in 0..lists.len() {
        lists[k].list_runs()?;
    }
    Ok(())
}

/// Lists the entries at nodes with a position below another one, from 0, whose hub ranks above the node, instead of what there
/// was. No hub of an entry ranks below its node, so only those whose hub is the node itself are left out. The only error is that
/// memory ran out.
pub fn list_hubs(
    ranking: &Ranking,
    below: u32,
    entries: &[NodeEntry],
    hubs: &mut Vec<HubEntry>,
) -> Result<(), AllocError>
    requires { All (λ e. IsNode (length ranking.now) e.node) entries.now }
    ensures { OnOk result (hubs.new.items ≡ hub_entries ranking.now below entries.now) }
{
    hubs.clear();
    for entry in entries {
        let of = ranking.pos(entry.node);
        if of >= below {
            continue;
        }
        if entry.pos >= of {
            continue;
        }
        hubs.push(HubEntry {
            of,
            entry: entry.entry(),
        })?;
    }
    Ok(())
}
