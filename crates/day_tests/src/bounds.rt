use super::one_order::{Using, answer, held, live, made, reserved, trade, used};
use super::rows::{day_rows, lent, tables};
use super::turns::{Call, make, opened, request, sell};
use gate::day::TradingDay;
use orders::order::{Cancel, Order};
use registers::Register;
use rules::refusal::Refusal;
use rules::side::Side;
use std::test::Fail;
use tables::table::SecurityList;

// A live sell of a million shares at any price.
fn great_sell() -> Order {
    Order {
        price: 1,
        shares: 1_000_000,
        ..live(Side::Sell, Cancel::Unasked)
    }
}

// Trades a million shares of order 1 at the highest price so many times; the book has the same live record each time.
fn trade_often(day: &mut TradingDay, times: u64) {
    for _ in 0..times {
        let _ = day.trade(&mut [great_sell()], 1, 1_000_000, 999_999);
    }
}

// Voids order 1, for which another day of the same numbers has made the pass, over a book that has it held.
fn voided(day: &mut TradingDay) -> Result<u64, Refusal> {
    let mut other = opened(1, 20_190_215, 1_000_000)?;
    let pass = reserved(
        &mut other,
        &mut [Order::default()],
        request(Side::Buy, 1000, 100),
    );
    other.leave();
    Ok(used(day, &mut [held(Side::Buy)], pass?, Using::Void))
}

// 10^15 and 999,000 times 999,999,000,000 are 999,999,001,000,000,000: up to 10^18 there is room for 999,000,000,000.
#[test]
fn the_balance_stays_within_its_bound(rt: HostRuntime) -> Result<(), Fail> {
    let mut day = opened(1, 20_190_215, 1_000_000_000_000_000)?;
    let taken = made(&mut day, &mut [Order::default()], sell(1000, 100));
    trade_often(&mut day, 999_000);
    let near = 999_999_001_000_000_000;
    let most = 1_000_000_000_000_000_000;
    let great = great_sell();
    let buy = live(Side::Buy, Cancel::Unasked);
    let asked = live(Side::Buy, Cancel::Asked);
    for (why, record, call, number, balance) in [
        ("past the bound", great, trade(1_000_000, 999_999), 19, near),
        ("no fill", great, trade(1_000_001, 999_999), 15, near),
        ("to the bound", great, trade(1_000_000, 999_000), 0, most),
        ("a fen past it", great, trade(1, 1), 19, most),
        ("a buy at its limit", buy, trade(100, 1000), 0, most),
        ("a buy a fen below", buy, trade(1, 999), 19, most),
        ("a return", buy, Call::Return(1), 19, most),
        ("a confirmation", asked, Call::Confirm(1), 19, most),
        ("a decline", asked, Call::Decline(1), 0, most),
    ] {
        assert_eq!(rt; answer(&mut day, &mut [record], call), number, "{why}");
        assert_eq!(rt; day.figures().balance, balance, "{why}");
    }
    let void = voided(&mut day);
    let balance = day.leave().balance;
    taken?;
    assert_eq!(rt; void, Ok(19));
    assert_eq!(rt; balance, most);
    Ok(())
}

// Sells a share so many times over some registers.
fn sell_over<P: Register, A: Register>(
    day: &mut TradingDay,
    list: &mut SecurityList,
    participants: &mut P,
    accounts: &mut A,
    book: &mut [Order],
    times: u64,
) -> (u64, Option<Refusal>) {
    for taken in 0..times {
        let answer = make(day, list, participants, accounts, book, sell(1000, 1));
        if let Err(refusal) = answer {
            return (taken, Some(refusal));
        }
    }
    (times, None)
}

// Sells a share so many times, and sends each order; answers how many orders were taken, and the first refusal.
fn sell_often(day: &mut TradingDay, book: &mut [Order], times: u64) -> (u64, Option<Refusal>) {
    let mut rows = day_rows(9_999_999_999);
    let mut tables = tables(&mut rows, 1, 1);
    let (list, mut participants, mut accounts) = lent(&mut tables);
    sell_over(day, list, &mut participants, &mut accounts, book, times)
}

#[test]
fn a_day_takes_50000_orders_and_no_more(rt: HostRuntime) -> Result<(), Fail> {
    let mut book = vec![in rt.alloc(); Order::default(); 50_001]?;
    let mut day = opened(1, 20_190_215, 100_000)?;
    let answer = sell_often(&mut day, &mut book, 50_001);
    let figures = day.leave();
    assert_eq!(rt; answer, (50_000, Some(Refusal::Full)));
    assert_eq!(rt; figures.count, 50_000);
    Ok(())
}
