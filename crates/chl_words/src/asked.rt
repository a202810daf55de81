ghost use Rattle.std.specs.Prelude.{◌≡◌, string_bytes, IfOk, MatchResult};
ghost use Rattle.chl_words.specs.declared.asked.AskFault.TheVariants.{NoMemory};

use std::alloc::{AllocError, Global};
use std::marker::Model;

/// The name of a file. Contracts see its bytes.
#[derive(Debug, Drop)]
pub struct Name {
    text: String,
}

impl Model for Name {
    ghost use Rattle.std.specs.Prelude.{ℕ, List, string_bytes};

    ghost Value = { List ℕ };

    ghost view = { λ n. string_bytes n.text };
}

impl Name {
    /// A name of its own, with this text. Want of memory is the only error.
    pub fn new(alloc: Global, text: &str) -> Result<Name, AllocError>
        ensures { IfOk result (λ n. n ≡ text.now) }
    {
        let text = String::from_str(alloc, text)?;
        Ok(Name { text })
    }

    /// The text of the name.
    pub fn text(&self) -> &str
        ensures { result.now ≡ self.now }
    {
        self.text.as_str()
    }
}

/// The construction by which an index is built. All give the same index.
#[derive(Clone, Copy, Debug, PartialEq, Eq)]
pub enum By {
    /// Planted trees: each root by itself, with no look at the rows of others.
    Plant,
    /// Pruned trees: each root prunes its tree by the rows that stand already, and the rows are cleaned in the end.
    Lcc,
    /// Pruned trees in supersteps: each superstep cleans its own entries, and the next one reads what is clean.
    Gll,
    /// Planted trees of the first roots, and then pruned trees in supersteps that begin with their rows.
    Hybrid,
}

/// The version of an index file.
#[derive(Clone, Copy, Debug, PartialEq, Eq)]
pub enum Version {
    /// Each entry has a position and a distance.
    One,
    /// Each has its via, too: the node before its own on a shortest walk from the hub.
    Two,
}

/// How an index is to be built.
#[derive(Clone, Copy, Debug, PartialEq, Eq)]
pub struct Construction {
    pub by: By,
    /// How many workers build: 1..64.
    pub workers: u32,
    /// How work is cut: how many roots a batch may have, or how many entries a worker puts at least in a superstep. 1..2^30.
    pub cut: u32,
    /// How many of the first roots are planted: 0..2^30. Only [`By::Hybrid`] has a use for it.
    pub eta: u32,
}

/// A square grid, and how its index is to be built.
#[derive(Clone, Copy, Debug, PartialEq, Eq)]
pub struct Grid {
    /// How many rows and columns the grid has: 1..256.
    pub side: u32,
    /// What its weights come from: 0..2^31-1.
    pub seed: u32,
    /// How many workers build: 1..64.
    pub workers: u32,
}

/// What a command line asks for.
#[derive(Debug, Drop)]
pub enum Asked {
    /// Print the rows of the labelling of a graph under an order.
    List {
        graph: Name,
        order: Name,
    },
    /// Write the index of the labelling to a file.
    Build {
        graph: Name,
        order: Name,
        /// The file that is created.
        out: Name,
        version: Version,
        construction: Construction,
    },
    /// Say the distance of each pair of nodes of a graph, with the highest-ranked node between under an order.
    Solve {
        graph: Name,
        order: Name,
        pairs: Name,
        construction: Construction,
    },
    /// Say what the rows of an index say of each pair of its nodes.
    Query {
        index: Name,
        pairs: Name,
    },
    /// Say the walk of each pair of nodes of a graph, by the rows of an index.
    Path {
        graph: Name,
        index: Name,
        pairs: Name,
    },
    /// Say the walk of each pair of nodes of an index by its vias.
    Trace {
        index: Name,
        pairs: Name,
    },
    /// Say which points are nearest to each source, by the rows of an index.
    Near {
        index: Name,
        /// The text of the points, nodes that don't repeat.
        points: Name,
        /// The text of the sources, nodes that may repeat.
        from: Name,
        /// How many points are said of a source at most: 1..2^20.
        k: u32,
    },
    /// Say whether an index is that of a graph under an order, or the first thing that is wrong with it.
    Audit {
        graph: Name,
        order: Name,
        index: Name,
    },
    /// Write the file of version 2 of an index of a graph.
    Upgrade {
        graph: Name,
        index: Name,
        /// The file that is created.
        out: Name,
    },
    /// Write the index of a graph with more edges, by an index of the graph.
    Open {
        graph: Name,
        index: Name,
        /// The text of the edges that are added.
        edits: Name,
        /// The file that is created.
        out: Name,
        version: Version,
    },
    /// Print the order of a graph's nodes by falling degree.
    Degree {
        graph: Name,
    },
    /// Print an order of a graph's nodes under which its index is small.
    Rank {
        graph: Name,
    },
    /// Print what the index of a square grid comes to by three constructions, under the order by falling degree.
    Grid(Grid),
}

/// Why a command line asks for nothing.
#[derive(Clone, Copy, Debug, PartialEq, Eq)]
pub enum AskFault {
    /// The words are no command.
    Usage,
    /// There was no memory for it.
    NoMemory,
}

impl From<AllocError> for AskFault {
    ghost from_gives = { λ _ fault. fault ≡ NoMemory };

    fn from(_error: AllocError) -> AskFault {
        AskFault::NoMemory
    }
}
