// The trade's words, each with its number and the values that the rules attach to it.
#![tactic(auto)]

pub mod buying;
pub mod letter;
pub mod market;
pub mod notice;
pub mod phase;
pub mod price;
pub mod range;
pub mod refusal;
pub mod side;
