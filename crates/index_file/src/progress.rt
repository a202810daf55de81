ghost use Rattle.std.specs.Prelude.{◌≡◌, ℕ, ◌+◌, ◌^◌, ◌<◌, ◌≤◌, true, [], ◌∷◌, length, All, IsTrue, Ok, Err, IfSome, IfNone, IfOk, OnOk, IfErr};
ghost use Rattle.index_file.specs.Parts.{next_own, is_last, least_after, with_entry, with_via};
ghost use Rattle.index_file.specs.Judging.{start, width, after_distance, after_entry, fed, end_of_fields, end_of};
ghost use Rattle.index_file.specs.Gives.{Gives, Takes, Refuses, at_node, at_count, at_position, at_via, entry_width};
ghost use Rattle.index_file.specs.Sound.{AreReading, IsSound};
ghost use Rattle.index_file.specs.declared.fault.IndexFault.TheVariants.{Short};
ghost use Rattle.index_file.specs.declared.next.Next.TheVariants.{End};

use crate::accepting::{accept_distance, accept_position, accept_via};
use crate::done::Done;
use crate::fault::IndexFault;
use crate::field::{judge, width};
use crate::naming::Naming;
use crate::next::Next;
use crate::part_row::PartRow;
use crate::stored_index::StoredIndex;
use byteorder::{BigEndian, ByteOrder};
use std::alloc::{AllocError, Global};
use std::marker::Model;
use walk_laws::{Dist, Entry};

/// How far a reading has come: what the whole fields came to, the bytes of the field that isn't whole, and the offset at
/// which that field begins.
#[derive(Drop)]
pub struct Progress {
    next: Next,
    held: Vec<u8>,
    at: u64,
}

impl Model for Progress {
    ghost use Rattle.index_file.specs.Judging.{Reached};
    ghost use Rattle.index_file.specs.Sound.{IsSound};

    ghost Value = { Reached };

    ghost view = { λ p. record { next = p.next; held = p.held.items; at = p.at } };

    ghost invariant = { λ p. IsSound (record { next = p.next; held = p.held.items; at = p.at }) };
}

impl Progress {
    /// Before any byte.
    pub fn new(alloc: Global) -> Progress
        ensures { result ≡ start }
    {
        Progress {
            next: Next::Letter,
            held: Vec::new(alloc),
            at: 0,
        }
    }

    /// After the bytes of the piece, or their first fault.
    pub fn feed(self, alloc: Global, piece: &[u8]) -> Result<Progress, IndexFault>
        ensures { Gives result (fed (Ok self) piece.now) }
    {
        let mut progress = self;
        let mut rest = piece;
        while !rest.is_empty() {
            let (moved, left) = progress.advance(alloc, rest)?;
            progress = moved;
            rest = left;
        }
        Ok(progress)
    }

    /// Takes the next field, or a byte of it, and then at once what may be taken so.
    fn advance<'a>(self, alloc: Global, rest: &'a [u8]) -> Result<(Progress, &'a [u8]), IndexFault>
        requires { 0 < length rest.now }
        ensures taken { IfOk result (λ r. Takes self rest.now r.0 r.1.now) }
        ensures less { IfOk result (λ r. length r.1.now < length rest.now) }
        ensures refused { IfErr result (Refuses self rest.now) }
    {
        let (stepped, left) = self.step(alloc, rest)?;
        stepped.run(alloc, left)
    }

    /// Takes the next field, or a byte of it where the piece doesn't hold it whole.
    fn step<'a>(self, alloc: Global, rest: &'a [u8]) -> Result<(Progress, &'a [u8]), IndexFault>
        requires { 0 < length rest.now }
        ensures taken { IfOk result (λ r. Takes self rest.now r.0 r.1.now) }
        ensures less { IfOk result (λ r. length r.1.now < length rest.now) }
        ensures refused { IfErr result (Refuses self rest.now) }
    {
        let Progress { next, held, at } = self;
        let size = width(&next);
        if held.is_empty() && size <= rest.len() {
            let (field, left) = rest.split_at(size);
            let progress = whole(alloc, next, held, at, field)?;
            return Ok((progress, left));
        }
        let (byte, left) = rest.split_at(1);
        let progress = gather(alloc, next, held, at, byte[0])?;
        Ok((progress, left))
    }

    /// Takes at once the nodes of the order, but for the last one, or the entries and the rows, that the bytes hold whole.
    fn run<'a>(self, alloc: Global, rest: &'a [u8]) -> Result<(Progress, &'a [u8]), IndexFault>
        ensures taken { IfOk result (λ r. Takes self rest.now r.0 r.1.now) }
        ensures refused { IfErr result (Refuses self rest.now) }
    {
        let Progress { next, held, at } = self;
        if !held.is_empty() {
            return Ok((Progress { next, held, at }, rest));
        }
        match next {
            Next::Node(names) => run_of_names(names, held, at, rest),
            Next::Position(done, part) => run_of_rows(alloc, done, part, held, at, rest),
            next => Ok((Progress { next, held, at }, rest)),
        }
    }

    /// The index, where the bytes end here.
    pub fn finish(self) -> Result<StoredIndex, IndexFault>
        ensures { result ≡ end_of (Ok self) }
    {
        let Progress { next, held, at } = self;
        match ended(next) {
            Some(done) => Ok(done.into_stored()),
            None => Err(IndexFault::Short {
                at: at + held.len() as u64,
            }),
        }
    }
}

/// What all fields came to, where none is missing.
fn ended(next: Next) -> Option<Done>
    ensures end { IfSome result (λ done. next ≡ End done) }
    ensures short { IfNone result ((size : ℕ) → end_of_fields size next ≡ Err (Short size)) }
{
    match next {
        Next::End(done) => Some(done),
        early => {
            drop(early);
            None
        }
    }
}

/// After a field that the piece holds whole.
fn whole(
    alloc: Global,
    next: Next,
    held: Vec<u8>,
    at: u64,
    field: &[u8],
) -> Result<Progress, IndexFault>
    requires sound { IsSound (record { next = next; held = held.items; at = at }) }
    requires none { held.items ≡ [] }
    requires whole { length field.now ≡ width next }
    ensures { Gives result (fed (Ok (record { next = next; held = []; at = at })) field.now) }
{
    let next = judge(alloc, at, next, field)?;
    Ok(Progress {
        next,
        held,
        at: at + field.len() as u64,
    })
}

/// After one byte of a field, which may make it whole.
fn gather(
    alloc: Global,
    next: Next,
    mut held: Vec<u8>,
    at: u64,
    byte: u8,
) -> Result<Progress, IndexFault>
    requires { IsSound (record { next = next; held = held.items; at = at }) }
    ensures { Gives result (fed (Ok (record { next = next; held = held.items; at = at })) (byte ∷ [])) }
{
    match held.push(byte) {
        Ok(()) => gathered(alloc, next, held, at),
        Err(_) => {
            drop(next);
            Err(IndexFault::NoMemory)
        }
    }
}

/// After the bytes of a field that are there so far.
fn gathered(alloc: Global, next: Next, held: Vec<u8>, at: u64) -> Result<Progress, IndexFault>
    requires sound { IsSound (record { next = next; held = []; at = at }) }
    requires fits { All (λ b. b < 256) held.items }
    requires most { length held.items ≤ width next }
    ensures { Gives result (fed (Ok (record { next = next; held = []; at = at })) held.items) }
{
    if held.len() < width(&next) {
        return Ok(Progress { next, held, at });
    }
    whole(alloc, next, Vec::new(alloc), at, &held)
}

/// Takes the nodes of the order that the bytes hold whole, but for the last one of all.
fn run_of_names<'a>(
    names: Naming,
    held: Vec<u8>,
    at: u64,
    rest: &'a [u8],
) -> Result<(Progress, &'a [u8]), IndexFault>
    requires sound { IsSound (at_node names at) }
    requires none { held.items ≡ [] }
    ensures taken { IfOk result (λ r. Takes (at_node names at) rest.now r.0 r.1.now) }
    ensures refused { IfErr result (Refuses (at_node names at) rest.now) }
{
    let (names, at, left) = take_names(names, at, rest)?;
    let next = Next::Node(names);
    Ok((Progress { next, held, at }, left))
}

/// Takes the entries and the rows that the bytes hold whole.
fn run_of_rows<'a>(
    alloc: Global,
    done: Done,
    part: PartRow,
    held: Vec<u8>,
    at: u64,
    rest: &'a [u8],
) -> Result<(Progress, &'a [u8]), IndexFault>
    requires sound { IsSound (at_position done part at) }
    requires none { held.items ≡ [] }
    ensures taken { IfOk result (λ r. Takes (at_position done part at) rest.now r.0 r.1.now) }
    ensures refused { IfErr result (Refuses (at_position done part at) rest.now) }
{
    let (done, part, at, left) = take_rows(alloc, done, part, at, rest)?;
    let next = Next::Position(done, part);
    Ok((Progress { next, held, at }, left))
}

/// The nodes of the order that the bytes hold whole, but for the last one of all.
fn take_names<'a>(
    mut names: Naming,
    mut at: u64,
    bytes: &'a [u8],
) -> Result<(Naming, u64, &'a [u8]), IndexFault>
    requires { IsSound (at_node names at) }
    ensures sound { IfOk result (λ r. IsSound (at_node r.0 r.1)) }
    ensures taken { IfOk result (λ r. Takes (at_node names at) bytes.now (at_node r.0 r.1) r.2.now) }
    ensures refused { IfErr result (Refuses (at_node names at) bytes.now) }
{
    let mut rest = bytes;
    while rest.len() >= 4 && names.len() + 1 < names.n() as usize {
        let place = names.len() as u32;
        let (field, left) = rest.split_at(4);
        let named = names.with(BigEndian::read_u32(field))?;
        names = match named {
            Some(names) => names,
            None => return Err(IndexFault::Order { place }),
        };
        at += 4;
        rest = left;
    }
    Ok((names, at, rest))
}

/// The entries of the row that the bytes hold whole, and the rows after it, but for the last entry of a row after which the bytes
/// hold no number of entries, or no row comes.
fn take_rows<'a>(
    alloc: Global,
    mut done: Done,
    part: PartRow,
    at: u64,
    bytes: &'a [u8],
) -> Result<(Done, PartRow, u64, &'a [u8]), IndexFault>
    requires { IsSound (at_position done part at) }
    ensures sound { IfOk result (λ r. IsSound (at_position r.0 r.1 r.2)) }
    ensures taken { IfOk result (λ r. Takes (at_position done part at) bytes.now (at_position r.0 r.1 r.2) r.3.now) }
    ensures refused { IfErr result (Refuses (at_position done part at) bytes.now) }
{
    let (mut part, mut at, mut rest) = take_entries(&done, part, at, bytes)?;
    while holds_next(&done, &part, rest) {
        let size = entry_width(&done) + 4;
        let (field, left) = rest.split_at(size);
        let row = next_row(alloc, &mut done, part, field)?;
        let (taken, end, left) = take_entries(&done, row, at + size as u64, left)?;
        part = taken;
        at = end;
        rest = left;
    }
    Ok((done, part, at, rest))
}

/// Whether the next entry is the last one of its row, another row comes after it, and the bytes hold the entry and that row's number
/// of entries.
fn holds_next(done: &Done, part: &PartRow, rest: &[u8]) -> bool
    ensures last { IsTrue result → is_last part.now ≡ true }
    ensures more { IsTrue result → length done.now.rows + 1 < length done.now.order }
    ensures whole { IsTrue result → entry_width done.now + 4 ≤ length rest.now }
{
    part.is_last() && done.has_more() && rest.len() >= entry_width(done) + 4
}

/// Takes the last entry of a row and the number of entries of the row after it.
fn next_row(
    alloc: Global,
    done: &mut Done,
    part: PartRow,
    field: &[u8],
) -> Result<PartRow, IndexFault>
    requires reading { AreReading done.old part }
    requires last { is_last part ≡ true }
    requires more { length done.old.rows + 1 < length done.old.order }
    requires whole { length field.now ≡ entry_width done.old + 4 }
    ensures taken { IfOk result (λ row. (at : ℕ) → fed (Ok (at_position done.old part at)) field.now ≡ Ok (at_position done.new row (at + (entry_width done.old + 4)))) }
    ensures refused { IfErr result (λ e. (at : ℕ) → Refuses (at_position done.old part at) field.now e) }
{
    let (entry, count) = field.split_at(field.len() - 4);
    end_row(done, part, entry)?;
    begin_row(alloc, done, count)
}

/// Takes the last entry of a row, which isn't the last row, of its bytes.
fn end_row(done: &mut Done, mut part: PartRow, field: &[u8]) -> Result<(), IndexFault>
    requires reading { AreReading done.old part }
    requires last { is_last part ≡ true }
    requires more { length done.old.rows + 1 < length done.old.order }
    requires whole { length field.now ≡ entry_width done.old }
    ensures small { OnOk result (length done.new.rows < 2 ^ 30) }
    ensures taken { OnOk result ((at : ℕ) → fed (Ok (at_position done.old part at)) field.now ≡ Ok (at_count done.new (at + entry_width done.old))) }
    ensures refused { IfErr result (λ e. (at : ℕ) → Refuses (at_position done.old part at) field.now e) }
{
    let own = done.own();
    take_entry(done, own, &mut part, field)?;
    let is_short = part.is_short();
    let (row, row_vias) = part.into_parts();
    done.push(row, &row_vias, is_short)?;
    Ok(())
}

/// Takes the number of entries of a row.
fn begin_row(alloc: Global, done: &Done, field: &[u8]) -> Result<PartRow, IndexFault>
    requires small { length done.now.rows < 2 ^ 30 }
    requires whole { length field.now ≡ 4 }
    ensures taken { IfOk result (λ row. (at : ℕ) → fed (Ok (at_count done.now at)) field.now ≡ Ok (at_position done.now row (at + 4))) }
    ensures refused { IfErr result (λ e. (at : ℕ) → Refuses (at_count done.now at) field.now e) }
{
    let count = BigEndian::read_u32(field);
    if count == 0 {
        let v = done.node();
        return Err(IndexFault::Row { v, place: 0 });
    }
    Ok(PartRow::new(alloc, count))
}

/// How many bytes an entry has, with its via where the index has such.
fn entry_width(done: &Done) -> usize
    ensures { result ≡ entry_width done.now }
{
    if done.is_traced() { 16 } else { 12 }
}

/// The entries of the row that the bytes hold whole, but for the last one of the row.
fn take_entries<'a>(
    done: &Done,
    mut part: PartRow,
    mut at: u64,
    bytes: &'a [u8],
) -> Result<(PartRow, u64, &'a [u8]), IndexFault>
    requires { IsSound (at_position done.now part at) }
    ensures sound { IfOk result (λ r. IsSound (at_position done.now r.0 r.1)) }
    ensures taken { IfOk result (λ r. Takes (at_position done.now part at) bytes.now (at_position done.now r.0 r.1) r.2.now) }
    ensures refused { IfErr result (Refuses (at_position done.now part at) bytes.now) }
{
    let own = done.own();
    let size = entry_width(done);
    make_room(done, &mut part, bytes.len() / size)?;
    let mut rest = bytes;
    while rest.len() >= size && !part.is_last() {
        let (field, left) = rest.split_at(size);
        take_entry(done, own, &mut part, field)?;
        at += size as u64;
        rest = left;
    }
    Ok((part, at, rest))
}

/// Makes room for so many entries more, but not for more than the row has, and for their vias where the index has such.
fn make_room(done: &Done, part: &mut PartRow, entries: usize) -> Result<(), AllocError>
    requires { length part.old.entries ≤ part.old.count }
    ensures { part.new ≡ part.old }
{
    let more = (part.count() as usize - part.len()).min(entries);
    if done.is_traced() {
        part.reserve_vias(more)?;
    }
    part.reserve(more)
}

/// Takes the next entry of a row of its bytes.
#[inline(always)]
fn take_entry(done: &Done, own: u32, part: &mut PartRow, field: &[u8]) -> Result<(), IndexFault>
    requires reading { AreReading done.now part.old }
    requires own { own ≡ next_own done.now }
    requires whole { length field.now ≡ entry_width done.now }
    ensures count { OnOk result (part.new.count ≡ part.old.count) }
    ensures more { OnOk result (length part.new.entries ≡ length part.old.entries + 1) }
    ensures taken { OnOk result ((at : ℕ) → fed (Ok (at_position done.now part.old at)) field.now ≡ Ok (record { next = after_entry done.now part.new; held = []; at = at + entry_width done.now })) }
    ensures refused { IfErr result (λ e. (at : ℕ) → Refuses (at_position done.now part.old at) field.now e) }
{
    let (head, tail) = field.split_at(12);
    let entry = judge_entry(done, own, part, head)?;
    if !done.is_traced() {
        part.push(entry)?;
        return Ok(());
    }
    let via = judge_via(done, part, &entry, tail)?;
    part.push_via(via)?;
    part.push(entry)?;
    Ok(())
}

/// Judges the twelve bytes of an entry's position and distance.
fn judge_entry(done: &Done, own: u32, part: &PartRow, head: &[u8]) -> Result<Entry, IndexFault>
    requires reading { AreReading done.now part.now }
    requires own { own ≡ next_own done.now }
    requires whole { length head.now ≡ 12 }
    ensures above { IfOk result (λ e. least_after part.now.entries ≤ e.pos) }
    ensures taken { IfOk result (λ e. (at : ℕ) → fed (Ok (at_position done.now part.now at)) head.now ≡ Ok (record { next = after_distance done.now part.now e; held = []; at = at + 12 })) }
    ensures refused { IfErr result (λ e. (at : ℕ) → Refuses (at_position done.now part.now at) head.now e) }
{
    let pos = BigEndian::read_u32(head);
    let dist = BigEndian::read_u64(&head[4..]);
    accept_position(done, own, part, pos)?;
    accept_distance(done, part, dist)?;
    Ok(Entry {
        pos,
        dist: Dist::of_u64(dist),
    })
}

/// Judges the four bytes of the entry's via.
fn judge_via(done: &Done, part: &PartRow, entry: &Entry, tail: &[u8]) -> Result<u32, IndexFault>
    requires reading { AreReading done.now part.now }
    requires whole { length tail.now ≡ 4 }
    ensures taken { IfOk result (λ y. (at : ℕ) → fed (Ok (at_via done.now part.now entry.now at)) tail.now ≡ Ok (record { next = after_entry done.now (with_via (with_entry part.now entry.now) y); held = []; at = at + 4 })) }
    ensures refused { IfErr result (λ e. (at : ℕ) → Refuses (at_via done.now part.now entry.now at) tail.now e) }
{
    let via = BigEndian::read_u32(tail);
    accept_via(done, part, via)?;
    Ok(via)
}
