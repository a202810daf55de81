ghost use Rattle.std.specs.Prelude.{◌≡◌, ℕ, ◌+◌, ◌*◌, ◌^◌, ◌<◌, ◌≤◌, ◌++◌, All, length, flat_map, IfSome, IfOk, OnOk};
ghost use Rattle.std.specs.Option.{option_copied};
ghost use Rattle.walk_laws.specs.Labelling.{label_row};
ghost use Rattle.hub_index.specs.CompactRows.{row_of_parts};
ghost use Rattle.hub_index.specs.WellFormed.{IsWellFormed};
ghost use Rattle.entry_vias.specs.RowVias.{HaveVias};
ghost use Rattle.index_file.specs.Layout.{before_rows, stored_bytes, index_bytes, via_bytes, entry_bytes, traced_entry_bytes, row_bytes, traced_row_bytes, node_bytes, run_bytes, version_of, word};

use crate::field::{LETTERS, PLAIN, TRACED};
use byteorder::{BigEndian, ByteOrder};
use entry_vias::{TracedIndex, Vias};
use hub_index::{CompactEntry, Index, IndexRows};
use std::alloc::{AllocError, Global};
use walk_laws::Entry;

/// The bytes of an index file of version 1: one pass over the index into one buffer of their size. The only error is that memory ran
/// out.
pub fn encode(alloc: Global, index: &Index) -> Result<Vec<u8>, AllocError>
    ensures { IfOk result (λ bytes. bytes.items ≡ index_bytes index.now.order index.now.rows) }
{
    encode_rows(alloc, &index.rows(), None)
}

/// The bytes of an index file of version 2, which has the vias: one pass over the index into one buffer of their size. The only
/// error is that memory ran out.
pub fn encode_via(alloc: Global, index: &TracedIndex) -> Result<Vec<u8>, AllocError>
    ensures { IfOk result (λ bytes. bytes.items ≡ via_bytes index.now.order index.now.rows index.now.vias) }
{
    encode_rows(alloc, &index.index().rows(), Some(index.vias()))
}

/// The same of the rows that an index lends, with these vias or without.
pub fn encode_rows(
    alloc: Global,
    index: &IndexRows<'_>,
    vias: Option<&Vias>,
) -> Result<Vec<u8>, AllocError>
    requires { IfSome (option_copied vias) (HaveVias index.now.rows) }
    ensures { IfOk result (λ bytes. bytes.items ≡ stored_bytes index.now.order index.now.rows (option_copied vias.entry)) }
{
    let n = index.n();
    let mut out = head_of(alloc, index, vias, rows_size(index, vias, 0, n))?;
    push_rows(&mut out, index, vias, 0, n)?;
    Ok(out)
}

/// The version of an index with vias, or without.
fn version(vias: Option<&Vias>) -> u8
    ensures { result ≡ version_of (option_copied vias.entry) }
{
    match vias {
        None => PLAIN,
        Some(_) => TRACED,
    }
}

/// The bytes before the rows, in one buffer with room for so many more. The only error is that memory ran out.
pub fn head_of(
    alloc: Global,
    index: &IndexRows<'_>,
    vias: Option<&Vias>,
    room: usize,
) -> Result<Vec<u8>, AllocError>
    ensures { IfOk result (λ bytes. bytes.items ≡ before_rows (version_of (option_copied vias.entry)) index.now.order) }
{
    let head = 12 + 4 * index.n() as usize;
    let mut out = Vec::with_capacity(alloc, room.saturating_add(head))?;
    out.extend_from_slice(&LETTERS)?;
    out.push(version(vias))?;
    push_word(&mut out, index.n())?;
    push_order(&mut out, index)?;
    Ok(out)
}

/// The bytes of the rows of the nodes after `from` up to `to`, in one buffer of their size. The only error is that memory
/// ran out.
pub fn rows_of(
    alloc: Global,
    index: &IndexRows<'_>,
    vias: Option<&Vias>,
    from: u32,
    to: u32,
) -> Result<Vec<u8>, AllocError>
    requires rising { from ≤ to }
    requires within { to ≤ length index.now.order }
    requires vias { IfSome (option_copied vias) (HaveVias index.now.rows) }
    ensures { IfOk result (λ bytes. bytes.items ≡ run_bytes index.now.rows (option_copied vias.entry) from to) }
{
    let mut out = Vec::with_capacity(alloc, rows_size(index, vias, from, to))?;
    push_rows(&mut out, index, vias, from, to)?;
    Ok(out)
}

/// How many bytes the rows of the nodes after `from` up to `to` have: 4 for a row, and for an entry 12, or 16 with its via. More
/// than 2^64-1 are that many.
fn rows_size(index: &IndexRows<'_>, vias: Option<&Vias>, from: u32, to: u32) -> usize
    requires rising { from ≤ to }
    requires within { to ≤ length index.now.order }
{
    let entry = if vias.is_some() { 16usize } else { 12 };
    let entries = entry.saturating_mul(count_entries(index, from, to));
    entries.saturating_add(4 * (to - from) as usize)
}

/// How many entries the rows of the nodes after `from` up to `to` have.
pub fn count_entries(index: &IndexRows<'_>, from: u32, to: u32) -> usize
    requires rising { from ≤ to }
    requires within { to ≤ length index.now.order }
    ensures { result ≤ 2 ^ 60 }
{
    let mut entries = 0;
    for p in from..to {
        entries += row_len(index, p + 1);
    }
    entries
}

/// How many entries the row of the node `v`, a number from 1, has.
pub fn row_len(index: &IndexRows<'_>, v: u32) -> usize
    requires node { 1 ≤ v }
    requires within { v ≤ length index.now.order }
    ensures value { result ≡ length (label_row index.now.rows v) }
    ensures small { result ≤ 2 ^ 30 }
    ensures nodes { length index.now.order ≤ 2 ^ 30 }
{
    let (compact, full) = index.row(v);
    compact.len() + full.len()
}

/// Puts the nodes in ranked order at the end.
fn push_order(out: &mut Vec<u8>, index: &IndexRows<'_>) -> Result<(), AllocError>
    ensures { OnOk result (out.new.items ≡ out.old.items ++ flat_map word index.now.order) }
{
    for p in 0..index.n() {
        push_word(out, index.ranking().at(p))?;
    }
    Ok(())
}

/// Puts the rows of the nodes after `from` up to `to` at the end.
fn push_rows(
    out: &mut Vec<u8>,
    index: &IndexRows<'_>,
    vias: Option<&Vias>,
    from: u32,
    to: u32,
) -> Result<(), AllocError>
    requires rising { from ≤ to }
    requires within { to ≤ length index.now.order }
    requires vias { IfSome (option_copied vias) (HaveVias index.now.rows) }
    ensures { OnOk result (out.new.items ≡ out.old.items ++ run_bytes index.now.rows (option_copied vias.entry) from to) }
{
    for p in from..to {
        push_node(out, index, vias, p + 1)?;
    }
    Ok(())
}

/// Puts the row of the node `v`, a number from 1, at the end.
fn push_node(
    out: &mut Vec<u8>,
    index: &IndexRows<'_>,
    vias: Option<&Vias>,
    v: u32,
) -> Result<(), AllocError>
    requires node { 1 ≤ v }
    requires within { v ≤ length index.now.order }
    requires vias { IfSome (option_copied vias) (HaveVias index.now.rows) }
    ensures row { OnOk result (out.new.items ≡ out.old.items ++ node_bytes index.now.rows (option_copied vias.entry) v) }
    ensures well_formed { IsWellFormed index.now.order index.now.rows }
{
    let (compact, full) = index.row(v);
    match vias {
        None => push_row(out, compact, full),
        Some(vias) => push_traced_row(out, compact, full, vias.row(v)),
    }
}

/// Puts the row in these parts at the end: the number of its entries, and the entries.
fn push_row(out: &mut Vec<u8>, compact: &[CompactEntry], full: &[Entry]) -> Result<(), AllocError>
    requires few { length (row_of_parts compact.now full.now) < 2 ^ 32 }
    requires fits { All (λ e. e.dist < 2 ^ 64) full.now }
    ensures { OnOk result (out.new.items ≡ out.old.items ++ row_bytes (row_of_parts compact.now full.now)) }
{
    push_word(out, (compact.len() + full.len()) as u32)?;
    for entry in compact {
        push_entry(out, entry.pos, u64::from(entry.dist))?;
    }
    for entry in full {
        push_entry(out, entry.pos, entry.dist.get_u64())?;
    }
    Ok(())
}

/// Puts the row in these parts at the end, with its vias: the number of its entries, and each entry with its via.
fn push_traced_row(
    out: &mut Vec<u8>,
    compact: &[CompactEntry],
    full: &[Entry],
    vias: &[u32],
) -> Result<(), AllocError>
    requires few { length (row_of_parts compact.now full.now) < 2 ^ 32 }
    requires fits { All (λ e. e.dist < 2 ^ 64) full.now }
    requires vias { length vias.now ≡ length (row_of_parts compact.now full.now) }
    ensures { OnOk result (out.new.items ≡ out.old.items ++ traced_row_bytes (row_of_parts compact.now full.now, vias.now)) }
{
    push_word(out, vias.len() as u32)?;
    for i in 0..compact.len() {
        let entry = compact[i];
        push_traced_entry(out, entry.pos, u64::from(entry.dist), vias[i])?;
    }
    for i in 0..full.len() {
        let entry = full[i];
        push_traced_entry(
            out,
            entry.pos,
            entry.dist.get_u64(),
            vias[compact.len() + i],
        )?;
    }
    Ok(())
}

/// Puts the entry of this position and this distance at the end.
fn push_entry(out: &mut Vec<u8>, pos: u32, dist: u64) -> Result<(), AllocError>
    ensures { OnOk result (out.new.items ≡ out.old.items ++ entry_bytes (record { pos = pos; dist = dist })) }
{
    let mut bytes = [0; 12];
    BigEndian::write_u32(&mut bytes, pos);
    BigEndian::write_u64(&mut bytes[4..], dist);
    out.extend_from_slice(&bytes)
}

/// Puts the entry of this position and this distance with its via at the end.
fn push_traced_entry(out: &mut Vec<u8>, pos: u32, dist: u64, via: u32) -> Result<(), AllocError>
    ensures { OnOk result (out.new.items ≡ out.old.items ++ traced_entry_bytes (record { pos = pos; dist = dist }, via)) }
{
    push_entry(out, pos, dist)?;
    push_word(out, via)
}

/// Puts a number of four bytes at the end.
fn push_word(out: &mut Vec<u8>, x: u32) -> Result<(), AllocError>
    ensures { OnOk result (out.new.items ≡ out.old.items ++ word x) }
{
    let mut bytes = [0; 4];
    BigEndian::write_u32(&mut bytes, x);
    out.extend_from_slice(&bytes)
}
