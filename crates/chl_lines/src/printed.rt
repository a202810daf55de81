ghost use Rattle.std.specs.Prelude.{◌≡◌, ℕ, ◌*◌, ◌<◌, ◌≤◌, ◌∷◌, ◌++◌, map, slice_index, IfOk, OnOk, length};
ghost use Rattle.std.specs.Fmt.{decimal};
ghost use Rattle.hub_query.specs.Meant.{meant};
ghost use Rattle.hub_query.specs.Parts.{AreJoined};
ghost use Rattle.chl_lines.specs.PrintedAnswers.{answer_line, answer_lines as lines_of_answers, part_lines as lines_of_part};
ghost use Rattle.chl_lines.specs.PrintedOrders.{node_line, order_lines as lines_of_nodes};
ghost use Rattle.chl_lines.specs.PrintedWalks.{apart_line, passing_line, trace_line, trace_lines as lines_of_traces, walk_line, walk_lines as lines_of_walks};
ghost use Rattle.chl_lines.specs.PrintedRows.{entry_words, row_line, lines_from, HasPositions};

use hub_index::Index;
use hub_query::{Answer, Path};
use itoa::Buffer;
use rank_table::Ranking;
use std::alloc::{AllocError, Global};
use std::thread::{self, Threads};
use via_trace::Trace;
use walk_laws::Entry;

/// How many pairs have their lines printed by one thread at a time.
const PART: usize = 65536;

/// The lines `l V H D ..` of all nodes by rising node V, each with the hubs H of its row and their distances D, by
/// falling rank of the hub.
pub fn row_lines(alloc: Global, index: &Index) -> Result<Vec<u8>, AllocError>
    ensures { IfOk result (λ text. text.items ≡ lines_from index.now.order 1 index.now.rows) }
{
    let mut text = Vec::new(alloc);
    for v in 1..index.n() + 1 {
        print_row(&mut text, index.ranking(), v, index.row(v))?;
    }
    Ok(text)
}

/// Puts the line of the row of the node `v` at the end of a text.
fn print_row(text: &mut Vec<u8>, ranking: &Ranking, v: u32, row: &[Entry]) -> Result<(), AllocError>
    requires { HasPositions (length ranking.now) row.now }
    ensures { OnOk result (text.new.items ≡ text.old.items ++ row_line ranking.now v row.now) }
{
    let mut buffer = Buffer::new();
    text.extend_from_slice(b"l ")?;
    text.extend_from_slice(buffer.format(v).as_bytes())?;
    for entry in row {
        print_entry(text, ranking, entry)?;
    }
    text.push(b'\n')?;
    Ok(())
}

/// Puts the words of an entry at the end of a line: its hub and its distance.
fn print_entry(text: &mut Vec<u8>, ranking: &Ranking, entry: &Entry) -> Result<(), AllocError>
    requires { entry.now.pos < length ranking.now }
    ensures { OnOk result (text.new.items ≡ text.old.items ++ entry_words ranking.now entry.now) }
{
    let mut buffer = Buffer::new();
    text.push(b' ')?;
    text.extend_from_slice(buffer.format(hub_of(ranking, entry)).as_bytes())?;
    print_dist(text, entry.dist.get())
}

/// The node of an entry's hub.
fn hub_of(ranking: &Ranking, entry: &Entry) -> u32
    requires { entry.now.pos < length ranking.now }
    ensures { result ≡ slice_index ranking.now entry.now.pos }
{
    ranking.at(entry.pos)
}

/// The lines of pairs with their answers: `d S T D H` or `u S T` for the nodes S and T. Parts of them are printed side by
/// side, on all cores, and then put one after another. The only error is that memory ran out.
pub fn answer_lines<R: Threads + Sync>(
    rt: &R,
    alloc: Global,
    pairs: &[(u32, u32)],
    answers: &[Answer],
) -> Result<Vec<u8>, AllocError>
    requires { length answers.now ≡ length pairs.now }
    ensures { IfOk result (λ text. text.items ≡ lines_of_answers pairs.now (map meant answers.now)) }
{
    let parts = thread::map_indices(
        rt,
        alloc,
        pairs.len() / PART + 1,
        &|part: usize| -> Result<Vec<u8>, AllocError>
            requires { (length answers.now ≡ length pairs.now) × (part * 65536 ≤ length pairs.now) }
            ensures { IfOk result (λ text. text.items ≡ lines_of_part pairs.entry.now (map meant answers.entry.now) part) }
        { part_lines(alloc, pairs, answers, part) },
    )?;
    join_texts(alloc, parts)
}

/// The lines of the pairs of a part, which counts from 0. The only error is that memory ran out.
fn part_lines(
    alloc: Global,
    pairs: &[(u32, u32)],
    answers: &[Answer],
    part: usize,
) -> Result<Vec<u8>, AllocError>
    requires same { length answers.now ≡ length pairs.now }
    requires within { part * 65536 ≤ length pairs.now }
    ensures { IfOk result (λ text. text.items ≡ lines_of_part pairs.now (map meant answers.now) part) }
{
    let begin = part * PART;
    let end = begin + PART.min(pairs.len() - begin);
    lines_in_order(alloc, &pairs[begin..end], &answers[begin..end])
}

/// The lines of pairs with their answers, by one thread. The only error is that memory ran out.
fn lines_in_order(
    alloc: Global,
    pairs: &[(u32, u32)],
    answers: &[Answer],
) -> Result<Vec<u8>, AllocError>
    requires { length answers.now ≡ length pairs.now }
    ensures { IfOk result (λ text. text.items ≡ lines_of_answers pairs.now (map meant answers.now)) }
{
    let mut text = Vec::new(alloc);
    for i in 0..pairs.len() {
        print_answer(&mut text, pairs[i], answers[i])?;
    }
    Ok(text)
}

/// The texts of all parts, one after another. The only error is that memory ran out.
pub(crate) fn join_texts(
    alloc: Global,
    parts: Vec<Result<Vec<u8>, AllocError>>,
) -> Result<Vec<u8>, AllocError>
    ensures { IfOk result (λ text. AreJoined (λ part. part.items) parts.items text.items) }
{
    let mut text = Vec::new(alloc);
    for part in parts {
        text.extend_from_slice(&part?)?;
    }
    Ok(text)
}

/// Puts the line of a pair with its answer at the end of a text.
fn print_answer(text: &mut Vec<u8>, pair: (u32, u32), answer: Answer) -> Result<(), AllocError>
    ensures { OnOk result (text.new.items ≡ text.old.items ++ answer_line pair (meant answer)) }
{
    match answer {
        Answer::Near { dist, hub } => {
            text.extend_from_slice(b"d ")?;
            print_pair(text, pair)?;
            print_dist(text, dist)?;
            print_number(text, u64::from(hub))?;
            text.push(b'\n')?;
            Ok(())
        }
        Answer::Far => print_apart(text, pair),
    }
}

/// Puts the line of a pair between which no walk leads at the end of a text.
fn print_apart(text: &mut Vec<u8>, pair: (u32, u32)) -> Result<(), AllocError>
    ensures { OnOk result (text.new.items ≡ text.old.items ++ apart_line pair) }
{
    text.extend_from_slice(b"u ")?;
    print_pair(text, pair)?;
    text.push(b'\n')?;
    Ok(())
}

/// The lines of pairs with their walks: `w S T D V ..` for a walk of length D from S to T that passes the nodes V, or
/// `u S T` where none leads there. An index of another graph has no line.
pub fn walk_lines(
    alloc: Global,
    pairs: &[(u32, u32)],
    walks: &[Path],
) -> Result<Vec<u8>, AllocError>
    requires { length walks.now ≡ length pairs.now }
    ensures { IfOk result (λ text. text.items ≡ lines_of_walks pairs.now walks.now) }
{
    let mut text = Vec::new(alloc);
    for i in 0..pairs.len() {
        print_path(&mut text, pairs[i], &walks[i])?;
    }
    Ok(text)
}

/// Puts the line of a pair with its walk at the end of a text.
fn print_path(text: &mut Vec<u8>, pair: (u32, u32), walk: &Path) -> Result<(), AllocError>
    ensures { OnOk result (text.new.items ≡ text.old.items ++ walk_line pair walk.now) }
{
    match walk {
        Path::Walk { length, nodes } => print_walk(text, b"w ", pair, *length, nodes.list()),
        Path::Unreachable => print_apart(text, pair),
        Path::Sizes { .. } | Path::Stuck { .. } => Ok(()),
    }
}

/// The lines of pairs with their traces: `t S T D V ..` for a walk of length D from S to T that passes the nodes V, or
/// `u S T` where none leads there. A trace that is broken has no line.
pub fn trace_lines(
    alloc: Global,
    pairs: &[(u32, u32)],
    traces: &[Trace],
) -> Result<Vec<u8>, AllocError>
    requires { length traces.now ≡ length pairs.now }
    ensures { IfOk result (λ text. text.items ≡ lines_of_traces pairs.now traces.now) }
{
    let mut text = Vec::new(alloc);
    for i in 0..pairs.len() {
        print_trace(&mut text, pairs[i], &traces[i])?;
    }
    Ok(text)
}

/// Puts the line of a pair with its trace at the end of a text.
fn print_trace(text: &mut Vec<u8>, pair: (u32, u32), trace: &Trace) -> Result<(), AllocError>
    ensures { OnOk result (text.new.items ≡ text.old.items ++ trace_line pair trace.now) }
{
    match trace {
        Trace::Walk { length, nodes } => print_walk(text, b"t ", pair, *length, nodes.list()),
        Trace::Unreachable => print_apart(text, pair),
        Trace::Broken { .. } => Ok(()),
    }
}

/// Puts the line of a pair with a walk of this length, which passes these nodes, at the end of a text. It begins with a letter
/// and its space.
fn print_walk(
    text: &mut Vec<u8>,
    letter: &[u8],
    pair: (u32, u32),
    length: u128,
    nodes: &[u32],
) -> Result<(), AllocError>
    ensures { OnOk result (text.new.items ≡ text.old.items ++ passing_line letter.now pair length nodes.now) }
{
    text.extend_from_slice(letter)?;
    print_pair(text, pair)?;
    print_dist(text, length)?;
    for node in nodes {
        print_number(text, u64::from(*node))?;
    }
    text.push(b'\n')?;
    Ok(())
}

/// Puts the nodes of a pair at the end of a text.
fn print_pair(text: &mut Vec<u8>, pair: (u32, u32)) -> Result<(), AllocError>
    ensures { OnOk result (text.new.items ≡ text.old.items ++ (decimal pair.0 ++ (32 ∷ decimal pair.1))) }
{
    let mut buffer = Buffer::new();
    text.extend_from_slice(buffer.format(pair.0).as_bytes())?;
    print_number(text, u64::from(pair.1))
}

/// Puts a space and a number at the end of a text.
fn print_number(text: &mut Vec<u8>, number: u64) -> Result<(), AllocError>
    ensures { OnOk result (text.new.items ≡ text.old.items ++ (32 ∷ decimal number)) }
{
    let mut buffer = Buffer::new();
    text.push(b' ')?;
    text.extend_from_slice(buffer.format(number).as_bytes())?;
    Ok(())
}

/// Puts a space and a distance at the end of a text.
fn print_dist(text: &mut Vec<u8>, dist: u128) -> Result<(), AllocError>
    ensures { OnOk result (text.new.items ≡ text.old.items ++ (32 ∷ decimal dist)) }
{
    if dist <= u128::from(u64::MAX) {
        return print_number(text, dist as u64);
    }
    let mut buffer = Buffer::new();
    text.push(b' ')?;
    text.extend_from_slice(buffer.format(dist).as_bytes())?;
    Ok(())
}

/// The order text of a ranking: its nodes, highest rank first, each on a line of its own.
pub fn order_lines(alloc: Global, ranking: &Ranking) -> Result<Vec<u8>, AllocError>
    ensures { IfOk result (λ text. text.items ≡ lines_of_nodes ranking.now) }
{
    let mut text = Vec::new(alloc);
    for p in 0..ranking.n() {
        print_node(&mut text, ranking.at(p))?;
    }
    Ok(text)
}

/// Puts the line of a node at the end of a text.
fn print_node(text: &mut Vec<u8>, node: u32) -> Result<(), AllocError>
    ensures { OnOk result (text.new.items ≡ text.old.items ++ node_line node) }
{
    let mut buffer = Buffer::new();
    text.extend_from_slice(buffer.format(node).as_bytes())?;
    text.push(b'\n')?;
    Ok(())
}
