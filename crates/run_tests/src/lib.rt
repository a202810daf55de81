//! Runs over a desk in memory, whose calls move few bytes or fail: tests alone.
#![tactic(auto)]

#[cfg(test)]
mod tests;
