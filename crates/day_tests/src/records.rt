use super::one_order::{Using, answer, cancel, held, later, live, made, reserved, trade, used};
use super::turns::{Call, buy, opened, request};
use gate::day::TradingDay;
use orders::order::{Cancel, Order, State};
use rules::refusal::Refusal;
use rules::side::Side;
use std::test::Fail;

// What a call on order 1 is answered, on a day that has taken one order, where the book has another record in its
// place; and whether the book and the figures stay as they were.
fn answer_over(record: Order, call: Call) -> Result<(u64, bool), Refusal> {
    let mut day = opened(1, 20_190_215, 100_000)?;
    let mut book = [Order::default(); 1];
    let taken = made(&mut day, &mut book, buy(1000, 100));
    let before = day.figures();
    book = [record];
    let answer = answer(&mut day, &mut book, call);
    let same = day.leave() == before && book == [record];
    taken?;
    Ok((answer, same))
}

// The same order at another price, and of other shares.
fn of(order: Order, price: u32, shares: u32) -> Order {
    Order {
        price,
        shares,
        ..order
    }
}

// A call of each kind on the number of an order, that fits a live order of participant 101.
fn every_call(number: u64) -> [Call; 5] {
    [
        Call::Trade(number, 1, 1000),
        Call::Return(number),
        Call::Cancel(number, 101),
        Call::Confirm(number),
        Call::Decline(number),
    ]
}

#[test]
fn a_broken_record_is_unsound_to_every_call(rt: HostRuntime) -> Result<(), Fail> {
    let sound = live(Side::Buy, Cancel::Asked);
    let state = sound.state;
    for (why, record) in [
        ("price 0", of(sound, 0, 100)),
        ("price 1000000", of(sound, 1_000_000, 100)),
        ("no shares", of(sound, 1000, 0)),
        ("1000001 shares", of(sound, 1000, 1_000_001)),
        ("returned too many", later(sound, 60, 41, 0, state)),
        ("traded too many", later(sound, u32::MAX, 0, 0, state)),
        ("worth too much", later(sound, 1, 0, 1_000_000, state)),
        ("live with none left", later(sound, 60, 40, 0, state)),
        ("done with some left", later(sound, 60, 39, 0, State::Done)),
    ] {
        for call in every_call(1) {
            assert_eq!(rt; answer_over(record, call)?, (19, true), "{why}: {call:?}");
        }
    }
    Ok(())
}

// 4,294,967,296 is the first number that a record has no room for.
#[test]
fn a_request_of_wider_numbers_has_no_record(rt: HostRuntime) -> Result<(), Fail> {
    for (price, shares, has) in [
        (4_294_967_295, 4_294_967_295, true),
        (4_294_967_296, 100, false),
        (1000, 4_294_967_296, false),
    ] {
        let record = request(Side::Buy, price, shares).held(0);
        assert_eq!(rt; record.is_some(), has, "{shares} at {price}");
    }
    Ok(())
}

// The registers' pool has all of its shares, so that it takes none back; and there is no second pool.
#[test]
fn of_two_rules_that_a_call_breaks_the_first_is_answered(rt: HostRuntime) -> Result<(), Fail> {
    let buy = live(Side::Buy, Cancel::Unasked);
    let sell = live(Side::Sell, Cancel::Unasked);
    let asked = live(Side::Sell, Cancel::Asked);
    let broken = later(buy, 0, 0, 0, State::Done);
    let done = later(buy, 0, 100, 0, State::Done);
    let of_no_pool = Order { pool: 1, ..sell };
    let of_account = Order {
        account: 80_000_001,
        ..sell
    };
    for (why, record, call, answer) in [
        ("order and record", broken, cancel(102), 13),
        ("order and state", done, cancel(102), 13),
        ("record and state of a cancel", broken, cancel(101), 19),
        ("record and state of a trade", broken, trade(0, 1000), 19),
        ("record and state of a return", broken, Call::Return(1), 19),
        (
            "record and state of a decline",
            broken,
            Call::Decline(1),
            19,
        ),
        ("state and fill", held(Side::Buy), trade(0, 1000), 14),
        ("done, and no fill", done, trade(0, 1000), 14),
        ("no fill", buy, trade(0, 1000), 15),
        ("state and restore", held(Side::Sell), Call::Return(1), 14),
        ("not asked, and restore", sell, Call::Confirm(1), 14),
        ("the restore of a return", sell, Call::Return(1), 19),
        ("the restore of a confirmation", asked, Call::Confirm(1), 19),
        ("the restore to no pool", of_no_pool, Call::Return(1), 19),
        ("the restore to an account", of_account, Call::Return(1), 19),
    ] {
        assert_eq!(rt; answer_over(record, call)?, (answer, true), "{why}");
    }
    Ok(())
}

// What a call is answered on a day that has taken one order, over the first rows of a book of two.
fn answer_in_rows(rows: usize, call: Call) -> Result<u64, Refusal> {
    let mut day = opened(1, 20_190_215, 100_000)?;
    let mut book = [live(Side::Buy, Cancel::Asked); 2];
    let taken = made(&mut day, &mut book, buy(1000, 100));
    let answer = answer(&mut day, &mut book[..rows.min(2)], call);
    day.leave();
    taken?;
    Ok(answer)
}

#[test]
fn a_number_without_a_record_is_no_order(rt: HostRuntime) -> Result<(), Fail> {
    for (why, number, rows) in [
        ("0", 0, 2),
        ("above the count", 2, 2),
        ("the greatest number", u64::MAX, 2),
        ("past the book's end", 1, 0),
    ] {
        for call in every_call(number) {
            let answer = answer_in_rows(rows, call)?;
            assert_eq!(rt; answer, 13, "{why}: {call:?}");
        }
    }
    Ok(())
}

// A pass of some day, the book that it comes to, and what Send and Void have to answer.
#[derive(Clone, Copy)]
struct Passing {
    market: u64,
    date: u64,
    // how many orders were taken before that of the pass
    earlier: u8,
    rows: usize,
    record: Order,
    sent: u64,
    voided: u64,
}

// A pass of the very numbers of the day's only order, which has this record.
fn of_the_day(record: Order, sent: u64, voided: u64) -> Passing {
    Passing {
        market: 1,
        date: 20_190_215,
        earlier: 0,
        rows: 1,
        record,
        sent,
        voided,
    }
}

// A pass that is not good for a held order: its market and date, how many orders were taken before its own, and how
// many rows the book has.
fn foreign(market: u64, date: u64, earlier: u8, rows: usize) -> Passing {
    Passing {
        market,
        date,
        earlier,
        rows,
        ..of_the_day(held(Side::Buy), 20, 20)
    }
}

// Takes the one order of the day, has the other day make the pass, and uses it on the first.
fn passed_on(
    day: &mut TradingDay,
    other: &mut TradingDay,
    case: &Passing,
    using: Using,
) -> Result<u64, Refusal> {
    let mut book = [Order::default(); 1];
    made(day, &mut book, buy(1000, 100))?;
    let mut other_book = [Order::default(); 2];
    for _ in 0..case.earlier {
        made(other, &mut other_book, buy(1000, 100))?;
    }
    let pass = reserved(other, &mut other_book, request(Side::Buy, 1000, 100))?;
    book = [case.record];
    Ok(used(day, &mut book[..case.rows.min(1)], pass, using))
}

// What a pass is answered on the day of Shanghai, 15 February 2019.
fn passed(case: &Passing, using: Using) -> Result<u64, Refusal> {
    let mut day = opened(1, 20_190_215, 1_000_000)?;
    let mut other = match opened(case.market, case.date, 1_000_000) {
        Ok(other) => other,
        Err(refusal) => {
            day.leave();
            return Err(refusal);
        }
    };
    let answer = passed_on(&mut day, &mut other, case, using);
    day.leave();
    other.leave();
    answer
}

#[test]
fn a_pass_is_good_for_a_held_order_of_its_day(rt: HostRuntime) -> Result<(), Fail> {
    let live_order = live(Side::Buy, Cancel::Unasked);
    let asked = live(Side::Buy, Cancel::Asked);
    let done = later(held(Side::Buy), 0, 100, 0, State::Done);
    let broken = of(held(Side::Buy), 1000, 0);
    let live_and_broken = of(live_order, 1000, 0);
    let broken_and_foreign = Passing {
        record: broken,
        ..foreign(1, 20_190_216, 0, 1)
    };
    for (why, case) in [
        ("a held order", of_the_day(held(Side::Buy), 0, 0)),
        ("another market", foreign(2, 20_190_215, 0, 1)),
        ("another date", foreign(1, 20_190_216, 0, 1)),
        ("a number above the count", foreign(1, 20_190_215, 1, 1)),
        ("a book without rows", foreign(1, 20_190_215, 0, 0)),
        ("a live order", of_the_day(live_order, 20, 20)),
        ("a cancel asked", of_the_day(asked, 20, 20)),
        ("a done order", of_the_day(done, 20, 20)),
        ("a broken record", of_the_day(broken, 19, 19)),
        ("live and broken", of_the_day(live_and_broken, 20, 20)),
        ("broken, and another date", broken_and_foreign),
        (
            "a sell, all of it there",
            of_the_day(held(Side::Sell), 0, 19),
        ),
    ] {
        assert_eq!(rt; passed(&case, Using::Send)?, case.sent, "sent: {why}");
        assert_eq!(rt; passed(&case, Using::Void)?, case.voided, "voided: {why}");
    }
    Ok(())
}

// Reserves an order and uses its pass up; answers the number of the pass.
fn number_of_next(day: &mut TradingDay, book: &mut [Order], using: Using) -> Result<u64, Refusal> {
    let pass = reserved(day, book, request(Side::Buy, 1000, 100))?;
    let number = pass.number();
    used(day, book, pass, using);
    Ok(number)
}

#[test]
fn orders_are_numbered_from_1_in_book_order(rt: HostRuntime) -> Result<(), Fail> {
    let mut book = [Order::default(); 3];
    let mut day = opened(1, 20_190_215, 1_000_000)?;
    let first = number_of_next(&mut day, &mut book, Using::Send);
    let second = number_of_next(&mut day, &mut book, Using::Void);
    let third = number_of_next(&mut day, &mut book, Using::Send);
    let fourth = number_of_next(&mut day, &mut book, Using::Send);
    day.leave();
    assert_eq!(rt; [first, second, third], [Ok(1), Ok(2), Ok(3)]);
    assert_eq!(rt; fourth, Err(Refusal::Full));
    assert_eq!(rt; book[0].state, State::Live(Cancel::Unasked));
    assert_eq!(rt; book[1].state, State::Done);
    assert_eq!(rt; book[2].state, State::Live(Cancel::Unasked));
    Ok(())
}
