// Keys with a total order, and the one lookup for all of them.
#![tactic(auto)]

mod halving;
pub mod key;
pub mod search;
