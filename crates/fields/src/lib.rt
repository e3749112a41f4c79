// The fields and the lines of a day's input, their written forms, and the faults that they are refused by.
#![tactic(auto)]

mod digits;
pub mod fault;
pub mod field;
pub mod line;
pub mod rest;
