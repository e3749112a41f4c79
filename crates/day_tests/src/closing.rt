use super::one_order::{Using, held, later, live, made, reserved, used};
use super::turns::{Call, buy, open, opened, played, request, sell, sell_for_account};
use gate::day::TradingDay;
use gate::figures::Figures;
use orders::order::{Cancel, Order, State};
use rules::market::Market;
use rules::phase::Phase;
use rules::refusal::Refusal;
use rules::side::Side;
use std::test::Fail;

// Takes two orders, makes the steps, and closes the day over a book; answers the number of the refusal, or 0, and
// whether the figures are the same after it.
fn closed_over(steps: u8, book: &[Order]) -> Result<(u64, bool), Refusal> {
    let mut day = opened(1, 20_190_215, 1_000_000)?;
    let mut rows = [Order::default(); 2];
    let first = made(&mut day, &mut rows, buy(1000, 100));
    let second = made(&mut day, &mut rows, buy(1000, 100));
    for _ in 0..steps {
        let _ = day.step();
    }
    let before = day.figures();
    let (after, answer) = match day.close(book) {
        Ok(closed) => (closed.figures(), 0),
        Err(back) => {
            let (day, refusal) = back;
            (day.leave(), refusal.number())
        }
    };
    first?;
    second?;
    Ok((answer, after == before))
}

#[test]
fn a_day_is_closed_over_done_orders_alone(rt: HostRuntime) -> Result<(), Fail> {
    let unasked = live(Side::Buy, Cancel::Unasked);
    let asked = live(Side::Sell, Cancel::Asked);
    let in_part = later(unasked, 40, 0, 40_000, unasked.state);
    let filled = later(unasked, 100, 0, 100_000, State::Done);
    let returned = later(asked, 0, 100, 0, State::Done);
    let ended = later(unasked, 40, 60, 40_000, State::Done);
    let broken = later(unasked, 0, 101, 0, State::Done);
    for (why, steps, first, second, answer) in [
        ("both done", 4, filled, returned, 0),
        ("one traded and returned", 4, ended, filled, 0),
        ("one held", 4, held(Side::Buy), filled, 21),
        ("the first live", 4, unasked, filled, 21),
        ("the last live", 4, returned, unasked, 21),
        ("a cancel asked", 4, asked, filled, 21),
        ("one traded in part", 4, filled, in_part, 21),
        ("before the last phase", 3, filled, returned, 21),
        ("a broken record", 4, filled, broken, 19),
        ("one live, one broken", 4, unasked, broken, 19),
        ("one broken, and too early", 0, broken, filled, 19),
    ] {
        let closed = closed_over(steps, &[first, second])?;
        assert_eq!(rt; closed, (answer, true), "{why}");
    }
    Ok(())
}

#[test]
fn a_day_is_closed_over_a_book_that_has_its_orders(rt: HostRuntime) -> Result<(), Fail> {
    let live_order = live(Side::Buy, Cancel::Unasked);
    let done = later(live_order, 100, 0, 100_000, State::Done);
    let broken = later(live_order, 0, 101, 0, State::Done);
    assert_eq!(rt; closed_over(4, &[done])?, (19, true), "a short book");
    assert_eq!(rt; closed_over(0, &[live_order])?, (19, true), "and too early");
    let longer = [done, done, broken];
    assert_eq!(rt; closed_over(4, &longer)?, (0, true), "a row past the count");
    Ok(())
}

// Tries to close a day that holds an order at the gate, voids the order, and tries again.
fn refusals_of_a_held_order(day: &mut TradingDay) -> Result<[Option<Refusal>; 2], Refusal> {
    let mut book = [Order::default(); 1];
    let pass = reserved(day, &mut book, request(Side::Buy, 1000, 100))?;
    for _ in 0..4 {
        let _ = day.step();
    }
    let first = day.closing_refusal(&book);
    used(day, &mut book, pass, Using::Void);
    Ok([first, day.closing_refusal(&book)])
}

#[test]
fn a_held_order_keeps_the_day_open_until_its_pass_is_used(rt: HostRuntime) -> Result<(), Fail> {
    let mut day = opened(1, 20_190_215, 1_000_000)?;
    let refusals = refusals_of_a_held_order(&mut day);
    day.leave();
    assert_eq!(rt; refusals, Ok([Some(Refusal::Business), None]));
    Ok(())
}

// Whether nothing is left of an order.
fn is_over(order: Order) -> bool {
    order.state == State::Done && order.remainder() == 0
}

// A buy that is traded, a sell that is traded in part and returned, an account's sell whose cancel is confirmed, and a
// buy that is voided.
#[test]
fn a_day_that_is_closed_leaves_each_order_done(rt: HostRuntime) -> Result<(), Fail> {
    let ended = played(
        &rt,
        1_000_000,
        &[
            open(buy(1000, 100), 0, 900_000, 500, 300),
            open(sell(1000, 500), 0, 900_000, 0, 300),
            open(sell_for_account(1000, 300), 0, 900_000, 0, 0),
            open(Call::Void(request(Side::Buy, 1000, 900)), 0, 900_000, 0, 0),
            open(sell(1000, 1), 2, 900_000, 0, 0),
            open(Call::Trade(1, 100, 990), 0, 901_000, 0, 0),
            open(Call::Trade(2, 200, 1010), 0, 1_103_000, 0, 0),
            open(Call::Cancel(3, 102), 0, 1_103_000, 0, 0),
            open(Call::Step, 0, 1_103_000, 0, 0),
            open(Call::Step, 0, 1_103_000, 0, 0),
            open(Call::Step, 0, 1_103_000, 0, 0),
            open(Call::Step, 0, 1_103_000, 0, 0),
            open(sell(1000, 1), 1, 1_103_000, 0, 0),
            open(Call::Return(2), 0, 1_103_000, 300, 0),
            open(Call::Confirm(3), 0, 1_103_000, 300, 300),
        ],
    )?;
    assert_eq!(rt; ended.closing, None);
    assert!(rt; ended.book.iter().all(|order| is_over(*order)));
    let figures = Figures {
        market: Market::Shanghai,
        date: 20_190_215,
        quota: 1_000_000,
        balance: 1_103_000,
        phase: Phase::AfterHours,
        shut: false,
        count: 4,
    };
    assert_eq!(rt; ended.figures, figures);
    Ok(())
}
