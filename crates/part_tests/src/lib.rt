//! Calls of single parts: trees, the order of new numbers, cleaning, seats and pools. Tests alone, apart from the crates whose
//! calls they make, so that each of these is proved once, and beside them.
#![tactic(auto)]

#[cfg(test)]
mod tests;
