//! Tests of stores: objects, their recovery and locks, transactions, runs and workers.
#![tactic(auto)]

#[cfg(test)]
mod tests;
