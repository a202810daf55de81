//! How the nodes of a graph are cut in shards.
ghost use Rattle.std.specs.Prelude.{◌≡◌, ◌^◌, ◌<◌, ◌≤◌};
ghost use Rattle.hub_index.specs.Shards.{shard_count, shard_number, shard_place, node_at, shard_size};

/// How the nodes 1..n are cut in shards of 2^shift nodes: with shift 2 the first shard has the nodes 1 to 4, the second 5 to 8
/// and so on, and the last one those that are left. The shards count from 0, and the places in a shard from 1. Where 2^shift is
/// no less than n all nodes lie in one shard, each at its own place.
#[derive(Clone, Copy)]
pub struct Shards {
    pub shift: u32,
}

impl Shards {
    /// How many shards the nodes 1..n are cut in.
    pub fn count(self, n: u32) -> u32
        requires { self.shift ≤ 30 }
        ensures { result ≡ shard_count self.shift n }
    {
        if n == 0 {
            return 0;
        }
        ((n - 1) >> self.shift) + 1
    }

    /// The number, from 0, of the shard in which the node `v`, a number from 1, lies.
    pub fn number(self, v: u32) -> u32
        requires shift { self.shift ≤ 30 }
        requires node { 1 ≤ v }
        ensures { result ≡ shard_number self.shift v }
    {
        (v - 1) >> self.shift
    }

    /// The place, from 1, of the node `v`, a number from 1, in its shard.
    pub fn place(self, v: u32) -> u32
        requires shift { self.shift ≤ 30 }
        requires node { 1 ≤ v }
        ensures { result ≡ shard_place self.shift v }
    {
        let before = v - 1;
        before - ((before >> self.shift) << self.shift) + 1
    }

    /// The node, a number from 1, at a place, from 1, of a shard.
    pub fn node(self, number: u32, place: u32) -> u32
        requires shift { self.shift ≤ 30 }
        requires fits { node_at self.shift number place < 2 ^ 32 }
        ensures { result ≡ node_at self.shift number place }
    {
        (number << self.shift) + place
    }

    /// How many of the nodes 1..n lie in a shard.
    pub fn size(self, n: u32, number: u32) -> u32
        requires shift { self.shift ≤ 30 }
        requires number { number < shard_count self.shift n }
        ensures { result ≡ shard_size self.shift n number }
    {
        (n - (number << self.shift)).min(1 << self.shift)
    }
}
