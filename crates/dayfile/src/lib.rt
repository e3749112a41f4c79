// The day part of the input: its groups of lines, judged whole and then loaded into the lent tables.
#![tactic(auto)]

mod group;
mod judging;
mod kinds;
pub mod lent;
pub mod loaded;
pub mod loading;
pub mod plan;
mod rows;
pub mod run;
