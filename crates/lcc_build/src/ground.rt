//! What the workers of a build stand on.

use label_rows::Rows;
use renumbering::Job;
use root_claims::Claims;

/// What all workers of a build grow their trees by: its job, and the claims and the rows at which each has a seat.
#[derive(Clone, Copy)]
pub struct Ground<'a> {
    pub job: &'a Job<'a>,
    pub claims: &'a Claims,
    pub rows: &'a Rows,
}
