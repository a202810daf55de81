//! Index files: the bytes of an index, with vias or without, written in one pass or by several workers, and read in any pieces.
//!
//! [`encode`] makes the bytes of an index, of version 1, and [`encode_by`] the same in [`Pieces`] that threads make side by side, of
//! either kind of index ([`Encodable`]); [`encode_via`] and [`encode_via_by`] make those of an index with its vias, of version 2. An
//! [`IndexReader`] reads either again as a [`StoredIndex`], or answers the first fault; `laws` has the laws of the
//! format. It stands on hub_index (`Index`, `SplitIndex`, and `IndexRows`, which both lend), entry_vias (`TracedIndex`, `Vias`),
//! rank_table, walk_laws (`Entry`), desk_io (`Feed`, `Reader`) and byteorder. Its callers' clauses use
//! `specs/Layout` (`index_bytes`, `via_bytes`: the format as a function of the index), `specs/Judging` (`index_of`, `fault_within`:
//! what any bytes stand for, or their first fault) and `specs/Stored` (`without_vias`).
#![tactic(auto)]

mod accepting;
mod done;
mod encodable;
mod encoding;
mod fault;
mod field;
mod index_reader;
pub mod laws;
mod naming;
mod next;
mod part_row;
mod pieces;
mod progress;
mod runs;
mod stored_index;

pub use encodable::Encodable;
pub use encoding::{encode, encode_via};
pub use fault::IndexFault;
pub use index_reader::IndexReader;
pub use pieces::Pieces;
pub use runs::{encode_by, encode_via_by};
pub use stored_index::StoredIndex;
