//! Tests of the program below its commands: its types, and the texts that it reads and writes.
#![tactic(auto)]

#[cfg(test)]
mod tests;
