ghost use Rattle.std.specs.Prelude.{◌≡◌, ℕ, ◌+◌, ◌^◌, ◌<◌, ◌≤◌, true, length, is_some, Ok, IfOk, IfSome};
ghost use Rattle.byteorder.specs.Endian.{big_number};
ghost use Rattle.index_file.specs.Judging.{width, after_field, after_node, after_row, after_distance, after_entry};
ghost use Rattle.index_file.specs.Parts.{next_own, is_next_position, least_after, with_row, with_entry, with_via};
ghost use Rattle.index_file.specs.Gives.{Gives};
ghost use Rattle.index_file.specs.Sound.{IsSoundNext, AreNames, AreRows, AreReading};
ghost use Rattle.index_file.specs.declared.next.Next.TheVariants.{Letter, Version, Size, Node, Count, Position, Distance, Via};

use crate::accepting::{accept_distance, accept_position, accept_via};
use crate::done::Done;
use crate::fault::IndexFault;
use crate::naming::Naming;
use crate::next::Next;
use crate::part_row::PartRow;
use byteorder::{BigEndian, ByteOrder};
use std::alloc::{AllocError, Global};
use walk_laws::{Dist, Entry};

/// The first bytes of an index file.
pub const LETTERS: [u8; 7] = *b"CHLABEL";

/// The version of the format without vias.
pub const PLAIN: u8 = 1;

/// The version of the format with vias.
pub const TRACED: u8 = 2;

/// The most nodes of an index, 2^30.
pub const MAX_NODES: u32 = 1073741824;

/// How many bytes the next field has.
pub fn width(next: &Next) -> usize
    ensures { result ≡ width next.now }
{
    match next {
        Next::Letter | Next::Version | Next::End(_) => 1,
        Next::Size(_)
        | Next::Node(_)
        | Next::Count(_)
        | Next::Position(_, _)
        | Next::Via(_, _, _) => 4,
        Next::Distance(_, _, _) => 8,
    }
}

/// What the whole field, which begins at the offset `at`, makes of the fields before it.
pub fn judge(alloc: Global, at: u64, next: Next, field: &[u8]) -> Result<Next, IndexFault>
    requires sound { IsSoundNext at next }
    requires whole { length field.now ≡ width next }
    ensures { Gives result (after_field at next (big_number (length field.now) field.now)) }
{
    let x = BigEndian::read_uint(field, field.len());
    after_number(alloc, at, next, x)
}

/// The same, by the number `x` that the field holds.
fn after_number(alloc: Global, at: u64, next: Next, x: u64) -> Result<Next, IndexFault>
    requires sound { IsSoundNext at next }
    requires fits { x < 256 ^ width next }
    ensures { Gives result (after_field at next x) }
{
    match next {
        Next::Letter => after_letter(at, x as u8),
        Next::Version => after_version(x as u8),
        Next::Size(traced) => after_size(alloc, traced, x as u32),
        Next::Node(names) => after_name(alloc, names, x as u32),
        Next::Count(done) => after_count(alloc, done, x as u32),
        Next::Position(done, part) => after_position(done, part, x as u32),
        Next::Distance(done, part, pos) => after_distance(done, part, pos, x),
        Next::Via(done, part, entry) => after_via(done, part, entry, x as u32),
        Next::End(_) => Err(IndexFault::Long { at }),
    }
}

fn after_letter(at: u64, byte: u8) -> Result<Next, IndexFault>
    requires { at < 7 }
    ensures { Gives result (after_field at Letter byte) }
{
    if byte != LETTERS[at as usize] {
        return Err(IndexFault::Magic { at });
    }
    if at == 6 {
        Ok(Next::Version)
    } else {
        Ok(Next::Letter)
    }
}

fn after_version(byte: u8) -> Result<Next, IndexFault>
    ensures { Gives result (after_field 7 Version byte) }
{
    match byte {
        PLAIN => Ok(Next::Size(false)),
        TRACED => Ok(Next::Size(true)),
        _ => Err(IndexFault::Version { byte }),
    }
}

fn after_size(alloc: Global, traced: bool, n: u32) -> Result<Next, IndexFault>
    ensures { Gives result (after_field 8 (Size traced) n) }
{
    if n > MAX_NODES {
        return Err(IndexFault::Size { n });
    }
    after_names(alloc, Naming::new(alloc, n, traced))
}

fn after_name(alloc: Global, names: Naming, v: u32) -> Result<Next, IndexFault>
    requires names { AreNames names }
    requires more { length names.order < names.n }
    ensures { Gives result (after_field 0 (Node names) v) }
{
    let place = names.len() as u32;
    match names.with(v)? {
        Some(names) => after_names(alloc, names),
        None => Err(IndexFault::Order { place }),
    }
}

/// After the last node of the order come the rows.
fn after_names(alloc: Global, names: Naming) -> Result<Next, IndexFault>
    requires { AreNames names }
    ensures { Gives result (Ok (after_node names)) }
{
    if names.len() < names.n() as usize {
        return Ok(Next::Node(names));
    }
    let traced = names.is_traced();
    let done = Done::new(alloc, names.into_order(), traced)?;
    Ok(after_rows(done))
}

/// After the last row comes the end.
fn after_rows(done: Done) -> Next
    ensures { result ≡ after_row done }
{
    if done.is_whole() {
        Next::End(done)
    } else {
        Next::Count(done)
    }
}

fn after_count(alloc: Global, done: Done, count: u32) -> Result<Next, IndexFault>
    requires rows { AreRows done }
    requires more { length done.rows < length done.order }
    ensures { Gives result (after_field 0 (Count done) count) }
{
    if count == 0 {
        let v = done.node();
        return Err(IndexFault::Row { v, place: 0 });
    }
    Ok(Next::Position(done, PartRow::new(alloc, count)))
}

fn after_position(done: Done, part: PartRow, pos: u32) -> Result<Next, IndexFault>
    requires { AreReading done part }
    ensures { Gives result (after_field 0 (Position done part) pos) }
{
    accept_position(&done, done.own(), &part, pos)?;
    Ok(Next::Distance(done, part, pos))
}

fn after_distance(done: Done, part: PartRow, pos: u32, dist: u64) -> Result<Next, IndexFault>
    requires reading { AreReading done part }
    requires position { is_next_position (next_own done) part pos ≡ true }
    ensures { Gives result (after_field 0 (Distance done part pos) dist) }
{
    accept_distance(&done, &part, dist)?;
    let entry = Entry {
        pos,
        dist: Dist::of_u64(dist),
    };
    Ok(distance_accepted(done, part, entry)?)
}

/// After a distance that was accepted comes the via of the entry, where the index has such.
fn distance_accepted(done: Done, part: PartRow, entry: Entry) -> Result<Next, AllocError>
    requires reading { AreReading done part }
    requires above { least_after part.entries ≤ entry.pos }
    ensures { IfOk result (λ next. next ≡ after_distance done part entry) }
{
    if done.is_traced() {
        return Ok(Next::Via(done, part, entry));
    }
    after_entry(done, part, entry)
}

fn after_via(done: Done, part: PartRow, entry: Entry, via: u32) -> Result<Next, IndexFault>
    requires reading { AreReading done part }
    requires position { is_next_position (next_own done) part entry.pos ≡ true }
    ensures { Gives result (after_field 0 (Via done part entry) via) }
{
    accept_via(&done, &part, via)?;
    Ok(via_accepted(done, part, entry, via)?)
}

fn via_accepted(done: Done, mut part: PartRow, entry: Entry, via: u32) -> Result<Next, AllocError>
    requires reading { AreReading done part }
    requires above { least_after part.entries ≤ entry.pos }
    ensures { IfOk result (λ next. next ≡ after_entry done (with_entry (with_via part via) entry)) }
{
    part.push_via(via)?;
    after_entry(done, part, entry)
}

/// After one entry more, which may be the last one.
fn after_entry(done: Done, mut part: PartRow, entry: Entry) -> Result<Next, AllocError>
    requires above { least_after part.entries ≤ entry.pos }
    requires more { length part.entries < part.count }
    requires few { IfSome done.vias (λ vias. length vias + 1 < 2 ^ 32) }
    ensures { IfOk result (λ next. next ≡ after_entry done (with_entry part entry)) }
{
    part.push(entry)?;
    after_entries(done, part)
}

/// After the last entry the row is done.
fn after_entries(done: Done, part: PartRow) -> Result<Next, AllocError>
    requires most { length part.entries ≤ part.count }
    requires few { IfSome done.vias (λ vias. length vias + 1 < 2 ^ 32) }
    ensures { IfOk result (λ next. next ≡ after_entry done part) }
{
    if part.len() < part.count() as usize {
        return Ok(Next::Position(done, part));
    }
    after_whole_row(done, part)
}

fn after_whole_row(mut done: Done, part: PartRow) -> Result<Next, AllocError>
    requires { IfSome done.vias (λ vias. length vias + 1 < 2 ^ 32) }
    ensures { IfOk result (λ next. next ≡ after_row (with_row done part.entries part.vias)) }
{
    let is_short = part.is_short();
    let (row, row_vias) = part.into_parts();
    done.push(row, &row_vias, is_short)?;
    Ok(after_rows(done))
}
