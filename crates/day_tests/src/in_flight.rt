use super::turns::{Call, buy, open, played, request, sell, sell_for_account, shut};
use orders::order::{Cancel, Order, State};
use rules::side::Side;
use std::test::Fail;

// What became of an order: the shares traded, the shares returned, the value traded, and the state.
fn fate(order: Order) -> (u32, u32, u64, State) {
    (order.filled, order.returned, order.traded, order.state)
}

// The quota of 250,000 pays for 200 shares at 10 yuan; 60 of them are bought at 9.50 yuan, and 140 at 10.
#[test]
fn a_buy_is_traded_in_parts_until_it_is_done(rt: HostRuntime) -> Result<(), Fail> {
    let book = played(
        &rt,
        250_000,
        &[
            open(buy(1000, 200), 0, 50_000, 500, 300),
            open(Call::Trade(1, 60, 950), 0, 53_000, 500, 300),
            open(Call::Trade(1, 141, 1000), 15, 53_000, 500, 300),
            open(Call::Trade(1, 139, 1000), 0, 53_000, 500, 300),
            open(Call::Trade(1, 1, 1000), 0, 53_000, 500, 300),
            open(Call::Trade(1, 1, 1000), 14, 53_000, 500, 300),
            open(Call::Return(1), 14, 53_000, 500, 300),
            open(Call::Cancel(1, 101), 14, 53_000, 500, 300),
        ],
    )?
    .book;
    assert_eq!(rt; fate(book[0]), (200, 0, 197_000, State::Done));
    Ok(())
}

#[test]
fn a_sell_is_traded_in_parts_until_it_is_done(rt: HostRuntime) -> Result<(), Fail> {
    let book = played(
        &rt,
        1000,
        &[
            open(sell(1000, 500), 0, 1000, 0, 300),
            open(Call::Trade(1, 1, 1000), 0, 2000, 0, 300),
            open(Call::Trade(1, 400, 1100), 0, 442_000, 0, 300),
            open(Call::Trade(1, 100, 1000), 15, 442_000, 0, 300),
            open(Call::Trade(1, 99, 999), 15, 442_000, 0, 300),
            open(Call::Trade(1, 99, 1000), 0, 541_000, 0, 300),
            open(Call::Trade(1, 1, 1000), 14, 541_000, 0, 300),
        ],
    )?
    .book;
    assert_eq!(rt; fate(book[0]), (500, 0, 540_000, State::Done));
    Ok(())
}

#[test]
fn a_return_after_trades_gives_back_what_is_left(rt: HostRuntime) -> Result<(), Fail> {
    let book = played(
        &rt,
        250_000,
        &[
            open(buy(1000, 200), 0, 50_000, 500, 300),
            open(Call::Trade(1, 50, 900), 0, 55_000, 500, 300),
            open(Call::Return(1), 0, 205_000, 500, 300),
            open(sell(1000, 500), 0, 205_000, 0, 300),
            open(Call::Trade(2, 120, 1000), 0, 325_000, 0, 300),
            open(Call::Return(2), 0, 325_000, 380, 300),
            open(sell_for_account(1000, 300), 0, 325_000, 380, 0),
            open(Call::Trade(3, 299, 1000), 0, 624_000, 380, 0),
            open(Call::Return(3), 0, 624_000, 380, 1),
            open(Call::Return(3), 14, 624_000, 380, 1),
        ],
    )?
    .book;
    assert_eq!(rt; fate(book[0]), (50, 150, 45_000, State::Done));
    assert_eq!(rt; fate(book[1]), (120, 380, 120_000, State::Done));
    assert_eq!(rt; fate(book[2]), (299, 1, 299_000, State::Done));
    Ok(())
}

#[test]
fn a_cancel_is_declined_and_asked_again_and_confirmed(rt: HostRuntime) -> Result<(), Fail> {
    let asked = played(
        &rt,
        250_000,
        &[
            open(buy(1000, 200), 0, 50_000, 500, 300),
            open(Call::Cancel(1, 101), 0, 50_000, 500, 300),
            open(Call::Cancel(1, 101), 14, 50_000, 500, 300),
            open(Call::Trade(1, 50, 1000), 0, 50_000, 500, 300),
        ],
    )?
    .book;
    assert_eq!(rt; fate(asked[0]), (50, 0, 50_000, State::Live(Cancel::Asked)));
    let declined = played(
        &rt,
        250_000,
        &[
            open(buy(1000, 200), 0, 50_000, 500, 300),
            open(Call::Cancel(1, 101), 0, 50_000, 500, 300),
            open(Call::Decline(1), 0, 50_000, 500, 300),
            open(Call::Decline(1), 14, 50_000, 500, 300),
            open(Call::Confirm(1), 14, 50_000, 500, 300),
        ],
    )?
    .book;
    assert_eq!(rt; fate(declined[0]), (0, 0, 0, State::Live(Cancel::Unasked)));
    let confirmed = played(
        &rt,
        250_000,
        &[
            open(buy(1000, 200), 0, 50_000, 500, 300),
            open(Call::Cancel(1, 101), 0, 50_000, 500, 300),
            open(Call::Decline(1), 0, 50_000, 500, 300),
            open(Call::Trade(1, 50, 1000), 0, 50_000, 500, 300),
            open(Call::Cancel(1, 101), 0, 50_000, 500, 300),
            open(Call::Confirm(1), 0, 200_000, 500, 300),
            open(Call::Confirm(1), 14, 200_000, 500, 300),
        ],
    )?
    .book;
    assert_eq!(rt; fate(confirmed[0]), (50, 150, 50_000, State::Done));
    Ok(())
}

#[test]
fn a_voided_order_gives_back_all_that_it_took(rt: HostRuntime) -> Result<(), Fail> {
    let book = played(
        &rt,
        250_000,
        &[
            open(
                Call::Void(request(Side::Buy, 1000, 200)),
                0,
                250_000,
                500,
                300,
            ),
            open(
                Call::Void(request(Side::Sell, 1000, 500)),
                0,
                250_000,
                500,
                300,
            ),
            open(Call::Trade(1, 100, 1000), 14, 250_000, 500, 300),
            open(Call::Return(2), 14, 250_000, 500, 300),
        ],
    )?
    .book;
    assert_eq!(rt; fate(book[0]), (0, 200, 0, State::Done));
    assert_eq!(rt; fate(book[1]), (0, 500, 0, State::Done));
    Ok(())
}

// The wrong habit: a trade of a buy adds its shares to those that may be sold.
#[test]
fn a_buy_of_today_credits_no_sellable_shares(rt: HostRuntime) -> Result<(), Fail> {
    played(
        &rt,
        250_000,
        &[
            open(sell(1000, 500), 0, 250_000, 0, 300),
            open(buy(1000, 100), 0, 150_000, 0, 300),
            open(Call::Trade(2, 100, 1000), 0, 150_000, 0, 300),
            open(sell(1000, 1), 9, 150_000, 0, 300),
            open(Call::Return(1), 0, 150_000, 500, 300),
            open(sell(1000, 501), 9, 150_000, 500, 300),
        ],
    )?;
    Ok(())
}

// The wrong habit: what an order set aside is freed when its cancel is sent.
#[test]
fn a_cancel_that_is_sent_frees_nothing(rt: HostRuntime) -> Result<(), Fail> {
    played(
        &rt,
        100_000,
        &[
            open(sell(1000, 500), 0, 100_000, 0, 300),
            open(Call::Cancel(1, 101), 0, 100_000, 0, 300),
            open(sell(1000, 1), 9, 100_000, 0, 300),
            open(sell_for_account(1000, 300), 0, 100_000, 0, 0),
            open(Call::Cancel(2, 102), 0, 100_000, 0, 0),
            open(sell_for_account(1000, 1), 9, 100_000, 0, 0),
            open(buy(1000, 100), 0, 0, 0, 0),
            open(Call::Cancel(3, 101), 0, 0, 0, 0),
            open(buy(1000, 100), 12, 0, 0, 0),
            open(Call::Confirm(1), 0, 0, 500, 0),
            open(Call::Confirm(2), 0, 0, 500, 300),
            open(Call::Confirm(3), 0, 100_000, 500, 300),
        ],
    )?;
    Ok(())
}

// The wrong habit: the quota pays the limit for shares that were bought below it.
#[test]
fn a_trade_of_a_buy_is_charged_at_its_price_and_not_at_the_limit(
    rt: HostRuntime,
) -> Result<(), Fail> {
    let book = played(
        &rt,
        100_000,
        &[
            open(buy(1000, 100), 0, 0, 500, 300),
            open(Call::Trade(1, 50, 900), 0, 5000, 500, 300),
            open(Call::Trade(1, 50, 1), 0, 54_950, 500, 300),
        ],
    )?
    .book;
    assert_eq!(rt; fate(book[0]), (100, 0, 45_050, State::Done));
    Ok(())
}

#[test]
fn quota_that_is_lost_in_the_opening_call_may_come_back(rt: HostRuntime) -> Result<(), Fail> {
    let lost_and_regained = [
        open(buy(1000, 200), 0, -100_000, 500, 300),
        open(buy(1000, 100), 12, -100_000, 500, 300),
        open(Call::Return(1), 0, 100_000, 500, 300),
        open(buy(1000, 100), 0, 0, 500, 300),
        open(buy(1000, 100), 12, 0, 500, 300),
        open(Call::Trade(2, 1, 999), 0, 1, 500, 300),
        open(buy(1000, 100), 0, -99_999, 500, 300),
    ];
    played(&rt, 100_000, &lost_and_regained)?;
    let [first, second, third, fourth, fifth, sixth, seventh] = lost_and_regained;
    played(
        &rt,
        100_000,
        &[
            open(Call::Step, 0, 100_000, 500, 300),
            first,
            second,
            third,
            fourth,
            fifth,
            sixth,
            seventh,
        ],
    )?;
    Ok(())
}

#[test]
fn buying_that_was_shut_in_continuous_trading_stays_shut(rt: HostRuntime) -> Result<(), Fail> {
    played(
        &rt,
        100_000,
        &[
            open(Call::Step, 0, 100_000, 500, 300),
            open(Call::Step, 0, 100_000, 500, 300),
            shut(buy(1000, 100), 0, 0, 500, 300),
            shut(Call::Return(1), 0, 100_000, 500, 300),
            shut(buy(1000, 100), 12, 100_000, 500, 300),
            shut(sell(1000, 500), 0, 100_000, 0, 300),
            shut(Call::Trade(2, 500, 1000), 0, 600_000, 0, 300),
            shut(buy(1000, 100), 12, 600_000, 0, 300),
            shut(Call::Step, 0, 600_000, 0, 300),
            shut(buy(1000, 100), 12, 600_000, 0, 300),
        ],
    )?;
    Ok(())
}

#[test]
fn the_step_into_continuous_trading_shuts_buying_at_a_low_balance(
    rt: HostRuntime,
) -> Result<(), Fail> {
    played(
        &rt,
        100_000,
        &[
            open(buy(1000, 100), 0, 0, 500, 300),
            open(Call::Step, 0, 0, 500, 300),
            shut(Call::Step, 0, 0, 500, 300),
            shut(Call::Return(1), 0, 100_000, 500, 300),
            shut(buy(1000, 100), 12, 100_000, 500, 300),
        ],
    )?;
    played(
        &rt,
        100_000,
        &[
            open(buy(1000, 100), 0, 0, 500, 300),
            open(Call::Step, 0, 0, 500, 300),
            open(Call::Trade(1, 1, 999), 0, 1, 500, 300),
            open(Call::Step, 0, 1, 500, 300),
            open(Call::Step, 0, 1, 500, 300),
            shut(buy(1000, 100), 0, -99_999, 500, 300),
            shut(Call::Step, 0, -99_999, 500, 300),
        ],
    )?;
    Ok(())
}

#[test]
fn a_cancel_waits_out_the_phases_without_cancelling(rt: HostRuntime) -> Result<(), Fail> {
    played(
        &rt,
        200_000,
        &[
            open(buy(1000, 100), 0, 100_000, 500, 300),
            open(Call::Step, 0, 100_000, 500, 300),
            open(Call::Cancel(1, 101), 17, 100_000, 500, 300),
            open(Call::Cancel(1, 102), 13, 100_000, 500, 300),
            open(Call::Decline(1), 14, 100_000, 500, 300),
            open(Call::Step, 0, 100_000, 500, 300),
            open(Call::Cancel(1, 101), 0, 100_000, 500, 300),
            open(Call::Step, 0, 100_000, 500, 300),
            open(Call::Cancel(1, 101), 14, 100_000, 500, 300),
            open(Call::Decline(1), 0, 100_000, 500, 300),
            open(Call::Cancel(1, 101), 17, 100_000, 500, 300),
            open(Call::Step, 0, 100_000, 500, 300),
            open(Call::Cancel(1, 101), 17, 100_000, 500, 300),
            open(Call::Step, 16, 100_000, 500, 300),
            open(Call::Return(1), 0, 200_000, 500, 300),
        ],
    )?;
    Ok(())
}

#[test]
fn a_notice_suspends_buying_and_leaves_orders_alone(rt: HostRuntime) -> Result<(), Fail> {
    played(
        &rt,
        200_000,
        &[
            open(buy(1000, 100), 0, 100_000, 500, 300),
            open(Call::Notice(600_000, 28, 100), 0, 100_000, 500, 300),
            open(buy(1000, 100), 11, 100_000, 500, 300),
            open(Call::Trade(1, 100, 1000), 0, 100_000, 500, 300),
            open(sell(1000, 100), 0, 100_000, 400, 300),
            open(Call::Notice(600_001, 101, 100), 3, 100_000, 400, 300),
            open(Call::Notice(600_000, 101, 100), 18, 100_000, 400, 300),
            open(Call::Notice(600_000, 26, 100), 0, 100_000, 400, 300),
            open(buy(1000, 100), 0, 0, 400, 300),
        ],
    )?;
    Ok(())
}
