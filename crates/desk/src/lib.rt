// The event part of the input: each event's work and its printed line, and the whole answer to an input.
#![tactic(auto)]

pub mod event;
mod line;
pub mod output;
mod printing;
mod reading;
mod session;
pub mod sink;
