ghost use Rattle.std.specs.Prelude.{◌≡◌, ℕ, ◌^◌, ◌<◌, ◌≤◌, All, length, IfOk};
ghost use Rattle.std.specs.List.{AllZip};
ghost use Rattle.walk_laws.specs.Labelling.{label_row};
ghost use Rattle.walk_laws.specs.Meet.{IsMeet};
ghost use Rattle.hub_query.specs.HubTables.{AreShort, HoldsRow, ArePlaces};
ghost use Rattle.hub_query.specs.Meant.{meant, IsMeetOf};
ghost use Rattle.hub_query.specs.Parts.{AreJoined};

use crate::answer::Answer;
use crate::answers::Answers;
use crate::hub_table::{clear, empty_table, least_through, load};
use crate::meeting::ask;
use dimacs_text::Pairs;
use hub_index::Index;
use rayon::current_num_threads;
use rayon::prelude::*;
use std::alloc::{AllocError, Global};
use std::thread::Threads;

/// The most pairs of a part.
const MOST: usize = 262144;

/// The answers of pairs of nodes of the index, in the order of the pairs, by as many threads as there are processors. The
/// pairs are asked in parts, and in each part by rising first node, whose row is laid out once for all its pairs there. Want
/// of memory is the only error.
pub fn ask_all<R: Threads + Sync>(
    rt: &R,
    alloc: Global,
    index: &Index,
    pairs: &Pairs,
) -> Result<Answers, AllocError>
    requires { All (λ p. (1 ≤ p.0) × (p.0 ≤ length index.now.order) × (1 ≤ p.1) × (p.1 ≤ length index.now.order)) pairs.now }
    ensures { IfOk result (λ answers. AllZip (IsMeetOf index.now) pairs.now answers) }
{
    let pairs = pairs.list();
    let parts: Vec<Result<Answers, AllocError>> = pairs
        .par_chunks(part_len(rt, pairs.len()))
        .map(
            |part: &[(u32, u32)]| -> Result<Answers, AllocError>
                requires { (length part.now ≤ 262144) × All (λ p. (1 ≤ p.0) × (p.0 ≤ length index.now.order) × (1 ≤ p.1) × (p.1 ≤ length index.now.order)) part.now }
                ensures { IfOk result (λ answers. AllZip (IsMeetOf index.entry.now) part.entry.now answers) }
            { ask_part(alloc, index, part) },
        )
        .collect(rt, alloc)?;
    join_parts(alloc, parts)
}

/// How many pairs a part has of so many: one part for each thread, so that few rows are laid out twice, and none too large.
fn part_len<R: Threads>(rt: &R, count: usize) -> usize
    ensures some { 0 < result }
    ensures most { result ≤ 262144 }
{
    (count / current_num_threads(rt)).clamp(1024, MOST)
}

/// The answers of all parts, one after another. The only error is that memory ran out.
fn join_parts(alloc: Global, parts: Vec<Result<Answers, AllocError>>) -> Result<Answers, AllocError>
    ensures { IfOk result (λ answers. AreJoined (λ part. part) parts.items answers) }
{
    let mut answers = Vec::new(alloc);
    for part in parts {
        answers.extend_from_slice(part?.list())?;
    }
    Ok(Answers::new(answers))
}

/// The answers of pairs, in their order, by one thread. The only error is that memory ran out.
fn ask_part(alloc: Global, index: &Index, pairs: &[(u32, u32)]) -> Result<Answers, AllocError>
    requires few { length pairs.now < 2 ^ 32 }
    requires nodes { All (λ p. (1 ≤ p.0) × (p.0 ≤ length index.now.order) × (1 ≤ p.1) × (p.1 ≤ length index.now.order)) pairs.now }
    ensures { IfOk result (λ answers. AllZip (IsMeetOf index.now) pairs.now answers) }
{
    if !index.is_short() {
        return ask_each(alloc, index, pairs);
    }
    let mut answers = vec![in alloc; Answer::Far; pairs.len()]?;
    let Some(first) = pairs.first() else {
        return Ok(Answers::new(answers));
    };
    let mut table = table_of(alloc, index, first.0)?;
    let places = by_first_node(alloc, pairs)?;
    ask_places(index, pairs, &places, first.0, &mut table, &mut answers);
    Ok(Answers::new(answers))
}

/// The answers of pairs, in their order, one by one: a table has no room for long distances. The only error is that memory ran
/// out.
fn ask_each(alloc: Global, index: &Index, pairs: &[(u32, u32)]) -> Result<Answers, AllocError>
    requires { All (λ p. (1 ≤ p.0) × (p.0 ≤ length index.now.order) × (1 ≤ p.1) × (p.1 ≤ length index.now.order)) pairs.now }
    ensures { IfOk result (λ answers. AllZip (IsMeetOf index.now) pairs.now answers) }
{
    let mut answers = Vec::with_capacity(alloc, pairs.len())?;
    for pair in pairs {
        answers.push(ask(index, pair.0, pair.1))?;
    }
    Ok(Answers::new(answers))
}

/// Puts the answers of pairs at their places, in the order of `places`, by a table that holds the row of the node `held`, a
/// number from 1. The pairs are read where they stand beside their places, and `_pairs` is for the contract alone.
fn ask_places(
    index: &Index,
    _pairs: &[(u32, u32)],
    places: &[((u32, u32), u32)],
    held: u32,
    table: &mut [u64],
    answers: &mut [Answer],
)
    requires short { AreShort index.now }
    requires nodes { All (λ p. (1 ≤ p.0) × (p.0 ≤ length index.now.order) × (1 ≤ p.1) × (p.1 ≤ length index.now.order)) _pairs.now }
    requires places { ArePlaces _pairs.now places.now }
    requires held { (1 ≤ held) × (held ≤ length index.now.order) }
    requires size { length table.old ≡ length index.now.order }
    requires row { HoldsRow (label_row index.now.rows held) table.old }
    requires room { length answers.old ≡ length _pairs.now }
    ensures { AllZip (IsMeetOf index.now) _pairs.now answers.new }
{
    let mut turned = held;
    for (pair, place) in places {
        answers[*place as usize] = ask_from(index, table, turned, pair.0, pair.1);
        turned = pair.0;
    }
}

/// The pairs, nodes from 1, with their places, from 0, by rising first node, and those of one first node by rising second
/// node. The only error is that memory ran out.
fn by_first_node(alloc: Global, pairs: &[(u32, u32)]) -> Result<Vec<((u32, u32), u32)>, AllocError>
    requires { length pairs.now < 2 ^ 32 }
    ensures { IfOk result (λ places. ArePlaces pairs.now places.items) }
{
    let mut places = Vec::with_capacity(alloc, pairs.len())?;
    for (place, pair) in pairs.iter().enumerate() {
        places.push((*pair, place as u32))?;
    }
    places.sort_unstable();
    Ok(places)
}

/// A table that holds the row of the node `u`, a number from 1. The only error is that memory ran out.
fn table_of(alloc: Global, index: &Index, u: u32) -> Result<Vec<u64>, AllocError>
    requires node { 1 ≤ u }
    requires within { u ≤ length index.now.order }
    ensures row { IfOk result (λ table. HoldsRow (label_row index.now.rows u) table.items) }
    ensures size { IfOk result (λ table. length table.items ≡ length index.now.order) }
{
    let mut table = empty_table(alloc, index.n())?;
    load(&mut table, index.row(u));
    Ok(table)
}

/// Has a table that holds the row of the node `held` hold that of `u`; nodes are numbers from 1.
fn turn(index: &Index, table: &mut [u64], held: u32, u: u32)
    requires held { (1 ≤ held) × (held ≤ length index.now.order) }
    requires node { (1 ≤ u) × (u ≤ length index.now.order) }
    requires size { length table.old ≡ length index.now.order }
    requires row { HoldsRow (label_row index.now.rows held) table.old }
    ensures row { HoldsRow (label_row index.now.rows u) table.new }
    ensures size { length table.new ≡ length table.old }
{
    if held != u {
        clear(table, index.row(held));
        load(table, index.row(u));
    }
}

/// What the rows of the nodes `u` and `v` say of the pair, by a table that holds the row of the node `held`, and then that of
/// `u`; nodes are numbers from 1.
fn ask_from(index: &Index, table: &mut [u64], held: u32, u: u32, v: u32) -> Answer
    requires short { AreShort index.now }
    requires held { (1 ≤ held) × (held ≤ length index.now.order) }
    requires first { (1 ≤ u) × (u ≤ length index.now.order) }
    requires second { (1 ≤ v) × (v ≤ length index.now.order) }
    requires size { length table.old ≡ length index.now.order }
    requires row { HoldsRow (label_row index.now.rows held) table.old }
    ensures meet { IsMeet index.now.order index.now.rows u v (meant result) }
    ensures row { HoldsRow (label_row index.now.rows u) table.new }
    ensures size { length table.new ≡ length table.old }
{
    turn(index, table, held, u);
    match least_through(table, index.row(v)) {
        None => Answer::Far,
        Some((pos, dist)) => Answer::Near {
            dist: u128::from(dist),
            hub: index.ranking().at(pos),
        },
    }
}
