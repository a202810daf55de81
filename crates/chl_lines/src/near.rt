ghost use Rattle.std.specs.Prelude.{◌≡◌, ℕ, ◌*◌, ◌≤◌, ◌∷◌, ◌++◌, [], codes, flat_map, length, slice_range, IfOk, OnOk};
ghost use Rattle.std.specs.Fmt.{decimal};
ghost use Rattle.chl_lines.specs.PrintedHits.{hit_words, near_line, near_lines as lines_of_hits, near_part_lines as lines_of_part};

use crate::printed::join_texts;
use itoa::Buffer;
use near_points::{Hit, Hits};
use std::alloc::{AllocError, Global};
use std::thread::{self, Threads};

/// How many sources have their lines printed by one thread at a time.
const PART: usize = 1024;

/// The lines `k S V D ..` of sources S, each with its hits in their order: the points V and their distances D. Parts of them are
/// printed side by side, on all cores, and then put one after another. The only error is that memory ran out.
pub fn near_lines<R: Threads + Sync>(
    rt: &R,
    alloc: Global,
    sources: &[u32],
    hits: &Hits,
) -> Result<Vec<u8>, AllocError>
    requires { length hits.now ≡ length sources.now }
    ensures { IfOk result (λ text. text.items ≡ lines_of_hits sources.now hits.now) }
{
    let parts = thread::map_indices(
        rt,
        alloc,
        sources.len() / PART + 1,
        &|part: usize| -> Result<Vec<u8>, AllocError>
            requires { (length hits.now ≡ length sources.now) × (part * 1024 ≤ length sources.now) }
            ensures { IfOk result (λ text. text.items ≡ lines_of_part sources.entry.now hits.entry.now part) }
        { part_lines(alloc, sources, hits, part) },
    )?;
    join_texts(alloc, parts)
}

/// The lines of the sources of a part, which counts from 0. The only error is that memory ran out.
fn part_lines(
    alloc: Global,
    sources: &[u32],
    hits: &Hits,
    part: usize,
) -> Result<Vec<u8>, AllocError>
    requires same { length hits.now ≡ length sources.now }
    requires within { part * 1024 ≤ length sources.now }
    ensures { IfOk result (λ text. text.items ≡ lines_of_part sources.now hits.now part) }
{
    let begin = part * PART;
    let end = begin + PART.min(sources.len() - begin);
    lines_between(alloc, sources, hits, begin, end)
}

/// The lines of the sources from one place up to another, by one thread. The only error is that memory ran out.
fn lines_between(
    alloc: Global,
    sources: &[u32],
    hits: &Hits,
    begin: usize,
    end: usize,
) -> Result<Vec<u8>, AllocError>
    requires same { length hits.now ≡ length sources.now }
    requires rises { begin ≤ end }
    requires within { end ≤ length sources.now }
    ensures { IfOk result (λ text. text.items ≡ lines_of_hits (slice_range sources.now begin end) (slice_range hits.now begin end)) }
{
    let mut text = Vec::new(alloc);
    for i in begin..end {
        print_hits(&mut text, sources[i], hits.of(i))?;
    }
    Ok(text)
}

/// Puts the line of a source with its hits at the end of a text.
fn print_hits(text: &mut Vec<u8>, source: u32, hits: &[Hit]) -> Result<(), AllocError>
    ensures { OnOk result (text.new.items ≡ text.old.items ++ near_line source hits.now) }
{
    let mut buffer = Buffer::new();
    text.extend_from_slice(b"k ")?;
    text.extend_from_slice(buffer.format(source).as_bytes())?;
    for hit in hits {
        print_hit(text, *hit)?;
    }
    text.push(b'\n')?;
    Ok(())
}

/// Puts the words of a hit at the end of a line: its point and its distance.
fn print_hit(text: &mut Vec<u8>, hit: Hit) -> Result<(), AllocError>
    ensures { OnOk result (text.new.items ≡ text.old.items ++ hit_words hit) }
{
    let mut buffer = Buffer::new();
    text.push(b' ')?;
    text.extend_from_slice(buffer.format(hit.node).as_bytes())?;
    text.push(b' ')?;
    text.extend_from_slice(buffer.format(hit.dist).as_bytes())?;
    Ok(())
}
