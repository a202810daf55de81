//! Which word of a pool's table holds what. The cells stand after the heads, and neither shares a line of the cache with
//! the counter or with the other. A cell has two words, which begin at an even word, so that no cell lies on two lines: the
//! name of the next cell, in the high half, with the position, and the distance. Who gives a cell more words, or a distance
//! two, changes this file and `specs/Layout`.
ghost use Rattle.std.specs.Prelude.{◌≡◌, ℕ, ◌+◌, ◌*◌, ◌/◌, ◌%◌, ◌^◌, ◌≤◌, ◌<◌};
ghost use Rattle.label_pool.specs.Layout.{head_at, next_at, dist_at, name_in, pos_in as position_in, word_count};
ghost use Rattle.label_pool.specs.Chains.{named};

/// The counter of the blocks of cells that were drawn.
pub const COUNTER: usize = 0;

/// How many names a half of a word can have.
const HALF: u64 = 1 << 32;

/// How many words a table of so many nodes and cells has.
pub fn count_words(n: u32, cells: u32) -> usize
    ensures { result ≡ word_count n cells }
{
    2 * (n as usize / 2 + 17 + cells as usize)
}

/// The word that names the first cell of the chain of the node `v`, a number from 1.
pub fn head_word(v: u32) -> usize
    ensures { result ≡ head_at v }
{
    v as usize + 15
}

/// The word of a cell, a number from 0, that names the next cell of its chain and has the position of its entry.
pub fn next_word(n: u32, cell: u32) -> usize
    ensures { result ≡ next_at n cell }
{
    2 * (n as usize / 2 + 17 + cell as usize)
}

/// The word of a cell, a number from 0, that has the distance of its entry.
pub fn dist_word(n: u32, cell: u32) -> usize
    ensures { result ≡ dist_at n cell }
{
    2 * (n as usize / 2 + 17 + cell as usize) + 1
}

/// What a head holds and a position, as a cell stores both in one word.
pub fn next_stored(head: u64, pos: u32) -> u64
    ensures name { name_in result ≡ head % 2 ^ 32 }
    ensures pos { position_in result ≡ pos }
{
    head % HALF * HALF + u64::from(pos)
}

/// The cell, a number from 0, that a head names.
pub fn cell_named(head: u64) -> Option<u32>
    requires { head ≤ 2 ^ 31 }
    ensures { named result ≡ head }
{
    if head == 0 {
        return None;
    }
    Some((head - 1) as u32)
}

/// The cell, a number from 0, that a cell's word names as the next.
pub fn cell_in(word: u64) -> Option<u32>
    requires { name_in word ≤ 2 ^ 31 }
    ensures { named result ≡ name_in word }
{
    cell_named(word / HALF)
}

/// The position in a cell's word.
pub fn pos_in(word: u64) -> u32
    ensures { result ≡ position_in word }
{
    (word % HALF) as u32
}
