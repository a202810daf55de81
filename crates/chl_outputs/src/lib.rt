//! The commands that build no index. Each reads its inputs one after another and then works: [`audit_output`], [`degree_output`],
//! [`near_output`], [`open_output`], [`path_output`], [`query_output`], [`rank_output`], [`trace_output`] and [`upgrade_output`]
//! make its bytes, and have one clause: that the call goes as the command's stage may. The bytes of any command go by [`give`] where [`out_file`] says. The commands that
//! build stand above, in chl_cmd, since what they build by is proved late; with these they share [`traced_file`] and [`stop_at`]. It stands on chl_answers, whose words its clauses use,
//! and on the crates that read, work and print.
#![tactic(auto)]

mod commands;
mod giving;
mod index_bytes;
mod stops;

pub use commands::{
    audit_output, degree_output, near_output, open_output, path_output, query_output, rank_output,
    replies_text, text_output, trace_output, upgrade_output,
};
pub use giving::{give, out_file};
pub use index_bytes::traced_file;
pub use stops::stop_at;
