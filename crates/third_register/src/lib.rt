// A register of one pool that no table holds, and the gate's calls over it.
#![tactic(auto)]

pub mod single;
#[cfg(test)]
mod single_tests;
