// The law over the histories of a trading day, the calls that it stands on, and worked examples of the rules.
#![tactic(auto)]

pub mod closing;
pub mod examples;
pub mod law;
pub mod reading;
pub mod shares;
