//! Tests of journals and of durable stores, over trees in memory.
#![tactic(auto)]

#[cfg(test)]
mod tests;
