//! Builds by many workers, watched by gates: tests alone.
#![tactic(auto)]

#[cfg(test)]
mod tests;
