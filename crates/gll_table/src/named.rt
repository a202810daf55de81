//! What contracts call a build.

use std::marker::Brand;

/// A build, for contracts alone: the edges of its graph, its nodes by falling rank, by which power of two its table is cut in
/// shards, how many workers it has, by which claims they draw roots, and how far it goes. What threads hand to one another says by
/// it whose it is, since of what comes out of a lock nothing else is known than what its type says.
pub trait Build {
    ghost use Rattle.std.specs.Prelude.{ℕ, List};
    ghost use Rattle.walk_laws.specs.declared.graph.Edge.{Edge};
    ghost use Rattle.root_claims.specs.Seats.{ClaimsId};

    /// The edges of the graph.
    ghost edges: { List Edge };

    /// The nodes, highest rank first.
    ghost order: { List ℕ };

    /// The power of two that is the size of a shard.
    ghost shift: { ℕ };

    /// How many workers there are.
    ghost workers: { ℕ };

    /// The claims of the roots.
    ghost claims: { ClaimsId };

    /// The position, from 0, that the next root has at least once the build is over.
    ghost goal: { ℕ };
}

/// The builds that a call names: it picks the members.
impl Build for Brand {
    ghost use Rattle.std.specs.Prelude.{[]};

    ghost edges = { [] };

    ghost order = { [] };

    ghost shift = { 0 };

    ghost workers = { 0 };

    ghost claims = { record { table = record { words = 0; slots = 0; views_name = 0; atom = 0; block = 0; offset = 0; slot_names = [] }; first = 0; n = 0; seats = 0 } };

    ghost goal = { 0 };
}
