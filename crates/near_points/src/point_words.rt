//! The entries of the rows of points as words: numbers that rise with the position, then the distance, then the point, so
//! that one sort of numbers puts the lists of all positions in order.
ghost use Rattle.std.specs.Prelude.{◌≡◌, ℕ, ◌+◌, ◌-◌, ◌^◌, ◌<◌, ◌≤◌, All, length, map, ◌++◌, IfOk, OnOk};
ghost use Rattle.std.specs.List.Sorted.{IsNonDecreasing};
ghost use Rattle.near_points.specs.PointWords.{word_of as number_of, word_pos, word_dist, word_node, word_at, AreWordsOf, IsStart, AreStarts};

use hub_index::{Entry, Index};
use std::alloc::{AllocError, Global};

/// How many numbers there are for a node in a word.
pub const NODES: u128 = 4294967296;

/// How many numbers there are for a distance.
const DISTS: u128 = 18446744073709551616;

/// The word of an entry in the row of the node, a number from 1.
fn word_of(entry: Entry, node: u32) -> u128
    requires { entry.dist < 2 ^ 64 }
    ensures { result ≡ number_of entry.pos entry.dist node }
{
    (u128::from(entry.pos) * DISTS + entry.dist.get()) * NODES + u128::from(node)
}

/// The position, from 0, that a word says.
pub fn pos_of(word: u128) -> u128
    ensures { result ≡ word_pos word }
{
    word / NODES / DISTS
}

/// The distance that a word says.
pub fn dist_of(word: u128) -> u128
    ensures { result ≡ word_dist word }
{
    word / NODES % DISTS
}

/// The point, a number from 1, that a word says.
pub fn node_of(word: u128) -> u32
    ensures { result ≡ word_node word }
{
    (word % NODES) as u32
}

/// The words of the rows of these nodes, numbers from 1, in any order. The only error is that memory ran out.
pub fn words_of(alloc: Global, index: &Index, nodes: &[u32]) -> Result<Vec<u128>, AllocError>
    requires { All (λ v. (1 ≤ v) × (v ≤ length index.now.order)) nodes.now }
    ensures { IfOk result (λ words. AreWordsOf index.now.rows nodes.now words.items) }
{
    let mut words = Vec::new(alloc);
    for node in nodes {
        add_row(&mut words, index.row(*node), *node)?;
    }
    Ok(words)
}

/// Puts the words of a row, that of the node, a number from 1, after others. The only error is that memory ran out.
fn add_row(words: &mut Vec<u128>, row: &[Entry], node: u32) -> Result<(), AllocError>
    requires { All (λ e. e.dist < 2 ^ 64) row.now }
    ensures { OnOk result (words.new.items ≡ words.old.items ++ map (λ e. number_of e.pos e.dist node) row.now) }
{
    for entry in row {
        words.push(word_of(*entry, node))?;
    }
    Ok(())
}

/// Where the words of each of the positions 0..n start, and where the last ones end. The only error is that memory ran out.
pub fn starts_of(alloc: Global, words: &[u128], n: u32) -> Result<Vec<usize>, AllocError>
    requires small { n < 2 ^ 32 - 1 }
    requires rising { IsNonDecreasing words.now }
    ensures size { IfOk result (λ starts. length starts.items ≡ n + 1) }
    ensures starts { IfOk result (λ starts. AreStarts words.now starts.items) }
{
    let mut starts = Vec::with_capacity(alloc, n as usize + 1)?;
    let mut start = 0;
    for pos in 0..n + 1 {
        start = start_from(words, start, pos);
        starts.push(start)?;
    }
    Ok(starts)
}

/// Where the words of the position start, by one who knows a place that they don't start before.
fn start_from(words: &[u128], known: usize, pos: u32) -> usize
    requires rising { IsNonDecreasing words.now }
    requires known { known ≤ length words.now }
    requires before { (i : ℕ) → i < known → word_pos (word_at words.now i) < pos }
    ensures { IsStart words.now pos result }
{
    let mut start = known;
    while start < words.len() && pos_of(words[start]) < u128::from(pos) {
        start += 1;
    }
    start
}
