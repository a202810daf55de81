//! A file for each command that builds nothing: it reads its inputs one after another, and then works.

mod audit;
mod degree;
mod near;
mod open;
mod path;
mod query;
mod rank;
mod text;
mod trace;
mod upgrade;

pub use audit::audit_output;
pub use degree::degree_output;
pub use near::near_output;
pub use open::open_output;
pub use path::path_output;
pub use query::{query_output, replies_text};
pub use rank::rank_output;
pub use text::text_output;
pub use trace::trace_output;
pub use upgrade::upgrade_output;
