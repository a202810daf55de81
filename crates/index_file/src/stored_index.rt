ghost use Rattle.std.specs.Prelude.{◌≡◌};
ghost use Rattle.index_file.specs.Stored.{without_vias};

use entry_vias::TracedIndex;
use hub_index::Index;

/// An index as a file has it.
#[derive(Debug, Drop)]
pub enum StoredIndex {
    /// Version 1: without vias.
    Plain(Index),
    /// Version 2: with a via for each entry.
    Traced(TracedIndex),
}

impl StoredIndex {
    /// The index. Its vias, if any, stay behind.
    pub fn index(&self) -> &Index
        ensures order { result.now.order ≡ (without_vias self.now).order }
        ensures rows { result.now.rows ≡ (without_vias self.now).rows }
    {
        match self {
            StoredIndex::Plain(index) => index,
            StoredIndex::Traced(traced) => traced.index(),
        }
    }

    /// The index; its vias are given up. It takes no memory.
    pub fn into_index(self) -> Index
        ensures { result ≡ without_vias self }
    {
        match self {
            StoredIndex::Plain(index) => index,
            StoredIndex::Traced(traced) => {
                let (index, _vias) = traced.into_parts();
                index
            }
        }
    }
}
