use super::rows::{day_rows, lent, tables};
use super::turns::{Call, make, number_of};
use gate::day::TradingDay;
use gate::pass::Pass;
use orders::order::{Cancel, Order, Request, State};
use rules::refusal::Refusal;
use rules::side::Side;

// A live order of participant 101 of which nothing is traded yet, with or without a cancel asked.
pub(super) fn live(side: Side, cancel: Cancel) -> Order {
    Order {
        participant: 101,
        account: 0,
        code: 600_000,
        side,
        price: 1000,
        shares: 100,
        filled: 0,
        returned: 0,
        traded: 0,
        pool: 0,
        state: State::Live(cancel),
    }
}

// The same order held at the gate.
pub(super) fn held(side: Side) -> Order {
    Order {
        state: State::Held,
        ..live(side, Cancel::Unasked)
    }
}

// The same order later: the shares traded, the shares returned, what those traded are worth, and the state.
pub(super) fn later(order: Order, filled: u32, returned: u32, traded: u64, state: State) -> Order {
    Order {
        filled,
        returned,
        traded,
        state,
        ..order
    }
}

// Reserves an order over a list of one security and registers all of whose shares may still be sold.
pub(super) fn reserved(
    day: &mut TradingDay,
    book: &mut [Order],
    request: Request,
) -> Result<Pass, Refusal> {
    let mut rows = day_rows(100);
    let mut tables = tables(&mut rows, 1, 1);
    let (list, mut participants, mut accounts) = lent(&mut tables);
    day.reserve(list, &mut participants, &mut accounts, book, request)
}

// Makes a call over such a list and such registers.
pub(super) fn made(day: &mut TradingDay, book: &mut [Order], call: Call) -> Result<(), Refusal> {
    let mut rows = day_rows(100);
    let mut tables = tables(&mut rows, 1, 1);
    let (list, mut participants, mut accounts) = lent(&mut tables);
    make(day, list, &mut participants, &mut accounts, book, call)
}

// What a call is answered over such a list and such registers: a refusal's number, or 0.
pub(super) fn answer(day: &mut TradingDay, book: &mut [Order], call: Call) -> u64 {
    number_of(made(day, book, call))
}

// What a pass is handed to.
#[derive(Clone, Copy, Debug)]
pub(super) enum Using {
    Send,
    Void,
}

// Uses a pass up on a day, over such registers.
pub(super) fn used(day: &mut TradingDay, book: &mut [Order], pass: Pass, using: Using) -> u64 {
    let mut rows = day_rows(100);
    let mut tables = tables(&mut rows, 1, 1);
    let (_, mut participants, mut accounts) = lent(&mut tables);
    number_of(match using {
        Using::Send => day.send(book, pass),
        Using::Void => day.void(&mut participants, &mut accounts, book, pass),
    })
}

// A trade of order 1.
pub(super) fn trade(shares: u64, price: u64) -> Call {
    Call::Trade(1, shares, price)
}

// A cancel of order 1.
pub(super) fn cancel(participant: u64) -> Call {
    Call::Cancel(1, participant)
}
