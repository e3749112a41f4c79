// Rows of the lent tables, and the one type that owns them.
#![tactic(auto)]

pub mod owner;
pub mod rows;
pub mod table;
