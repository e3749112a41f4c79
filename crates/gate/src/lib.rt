// One trading day of one market: loading, trading, closed.
#![tactic(auto)]

mod balance;
pub mod booking;
pub mod cancelling;
pub mod closing;
pub mod day;
pub mod ending;
pub mod figures;
pub mod noticing;
mod numbering;
pub mod opening;
pub mod pass;
pub mod reading;
mod requesting;
pub mod sending;
pub mod stepping;
pub mod trading;
