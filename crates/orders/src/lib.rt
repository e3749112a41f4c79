// Orders: their records, when a record is sound, and what each call makes of one.
#![tactic(auto)]

pub mod ending;
pub mod filling;
pub mod moving;
pub mod order;
pub mod soundness;
