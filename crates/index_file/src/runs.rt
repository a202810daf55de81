ghost use Rattle.std.specs.Prelude.{◌≡◌, ◌≤◌, flat_map, length, IfSome, IfOk};
ghost use Rattle.std.specs.Option.{option_copied};
ghost use Rattle.std.specs.Thread.{IsSync};
ghost use Rattle.entry_vias.specs.RowVias.{HaveVias};
ghost use Rattle.index_file.specs.Layout.{via_bytes, stored_bytes, run_bytes};

use crate::encodable::Encodable;
use crate::encoding::{count_entries, encode_rows, head_of, row_len, rows_of};
use crate::pieces::Pieces;
use entry_vias::{TracedIndex, Vias};
use hub_index::IndexRows;
use std::alloc::{AllocError, Global};
use std::thread::{Threads, join};

/// An index with fewer entries is encoded by one thread: it would wait longer for other threads than for its bytes.
const MANY: usize = 65536;

/// The bytes of an index file, made by so many workers side by side: the first piece is what stands before the rows, and
/// each worker makes one more, of a run of rows. By one worker, or where the index has few entries, they are what `encode`, or
/// `encode_via` of an index with vias, gives, in one piece. The only error is that memory ran out.
pub fn encode_by<R: Threads + Sync, I: Encodable + Sync>(
    rt: &R,
    alloc: Global,
    index: &I,
    workers: u32,
) -> Result<Pieces, AllocError>
    ensures { IfOk result (λ bytes. bytes ≡ stored_bytes (I.index index.now).order (I.index index.now).rows (I.vias index.now)) }
{
    let rows = index.lent();
    let vias = index.lent_vias();
    let n = rows.n();
    if workers <= 1 || count_entries(&rows, 0, n) < MANY {
        return Ok(Pieces::one(alloc, encode_rows(alloc, &rows, vias)?));
    }
    let head = head_of(alloc, &rows, vias, 0)?;
    let runs = encode_runs(rt, alloc, index, workers, 0, n)?;
    Ok(Pieces::new(head, runs))
}

/// The bytes of an index file of version 2, which has the vias, made by so many workers as those of `encode_by`. The only error is
/// that memory ran out.
pub fn encode_via_by<R: Threads + Sync>(
    rt: &R,
    alloc: Global,
    index: &TracedIndex,
    workers: u32,
) -> Result<Pieces, AllocError>
    ensures { IfOk result (λ bytes. bytes ≡ via_bytes index.now.order index.now.rows index.now.vias) }
{
    encode_by(rt, alloc, index, workers)
}

/// The rows of the nodes after `from` up to `to`, in as many pieces as there are workers, each made in a thread of its own.
/// They have about equal numbers of entries. The only error is that memory ran out.
#[cycle(halves)]
fn encode_runs<R: Threads + Sync, I: Encodable + Sync>(
    rt: &R,
    alloc: Global,
    index: &I,
    workers: u32,
    from: u32,
    to: u32,
) -> Result<Vec<Vec<u8>>, AllocError>
    requires rising { from ≤ to }
    requires within { to ≤ length (I.index index.now).order }
    ensures { IfOk result (λ runs. flat_map (λ run. run.items) runs.items ≡ run_bytes (I.index index.now).rows (I.vias index.now) from to) }
{
    if workers <= 1 {
        return one_run(alloc, &index.lent(), index.lent_vias(), from, to);
    }
    let half = workers / 2;
    let others = workers - half;
    let mid = cut(&index.lent(), from, to, half, workers);
    let (first, second) = join(
        rt,
        || -> Result<Vec<Vec<u8>>, AllocError>
            requires { IsSync R.row × IsSync I.row × (from ≤ mid) × (mid ≤ length (I.index index.now).order) }
            ensures { IfOk result (λ runs. flat_map (λ run. run.items) runs.items ≡ run_bytes (I.index index.entry.now).rows (I.vias index.entry.now) from mid) }
        { encode_runs(rt, alloc, index, half, from, mid) },
        || -> Result<Vec<Vec<u8>>, AllocError>
            requires { IsSync R.row × IsSync I.row × (mid ≤ to) × (to ≤ length (I.index index.now).order) }
            ensures { IfOk result (λ runs. flat_map (λ run. run.items) runs.items ≡ run_bytes (I.index index.entry.now).rows (I.vias index.entry.now) mid to) }
        { encode_runs(rt, alloc, index, others, mid, to) },
    );
    let mut runs = first?;
    let mut rest = second?;
    runs.append(&mut rest)?;
    Ok(runs)
}

/// The rows of the nodes after `from` up to `to`, in one piece. The only error is that memory ran out.
fn one_run(
    alloc: Global,
    index: &IndexRows<'_>,
    vias: Option<&Vias>,
    from: u32,
    to: u32,
) -> Result<Vec<Vec<u8>>, AllocError>
    requires rising { from ≤ to }
    requires within { to ≤ length index.now.order }
    requires vias { IfSome (option_copied vias) (HaveVias index.now.rows) }
    ensures { IfOk result (λ runs. flat_map (λ run. run.items) runs.items ≡ run_bytes index.now.rows (option_copied vias.entry) from to) }
{
    let mut runs = Vec::with_capacity(alloc, 1)?;
    runs.push(rows_of(alloc, index, vias, from, to)?)?;
    Ok(runs)
}

/// Some node up to which the rows after `from` have about `part` of `whole` parts of the entries of those up to `to`.
fn cut(index: &IndexRows<'_>, from: u32, to: u32, part: u32, whole: u32) -> u32
    requires rising { from ≤ to }
    requires within { to ≤ length index.now.order }
    requires some { 1 ≤ whole }
    requires part { part ≤ whole }
    ensures from { from ≤ result }
    ensures to { result ≤ to }
{
    let wanted = count_entries(index, from, to) / whole as usize * part as usize;
    let mut entries = 0usize;
    for p in from..to {
        entries = entries.saturating_add(row_len(index, p + 1));
        if entries >= wanted {
            return p + 1;
        }
    }
    to
}
