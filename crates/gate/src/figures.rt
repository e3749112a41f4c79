use rules::market::Market;
use rules::phase::Phase;

// The numbers of a day: money in fen, and how many orders were taken.
#[derive(Clone, Copy, PartialEq, Eq, Debug)]
pub struct Figures {
    pub market: Market,
    pub date: u64,
    pub quota: u64,
    pub balance: i64,
    pub phase: Phase,
    pub shut: bool,
    pub count: u64,
}
