use fields::rest::Rest;

// What a D line says: its numbers, which only `LoadingDay::open` judges by what they name.
#[derive(Clone, Copy, PartialEq, Eq, Debug)]
pub struct Opening {
    pub market: u64,
    pub date: u64,
    pub quota: u64,
}

// How many rows of each table: those that a file has, or those that there is room for.
#[derive(Clone, Copy, PartialEq, Eq, Debug)]
pub struct Counts {
    pub securities: usize,
    pub holdings: usize,
    pub account_holdings: usize,
    pub designations: usize,
}

// A day part as it is judged: its opening, how many lines its groups have, and what is left for the events.
#[derive(Clone, Copy, PartialEq, Eq, Debug)]
pub struct Plan<'a> {
    pub opening: Opening,
    pub counts: Counts,
    pub events: Rest<'a>,
}
