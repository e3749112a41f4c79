use super::single::Single;
use gate::day::{LoadingDay, TradingDay};
use history::closing::close;
use history::reading::balance;
use orders::order::{Order, Request};
use registers::Register;
use rules::buying::Buying;
use rules::price::PriceBand;
use rules::refusal::Refusal;
use rules::side::Side;
use std::test::Fail;
use tables::rows::Security;
use tables::table::SecurityList;

const SECURITY: Security = Security {
    code: 600_000,
    buying: Buying::Open,
    close: 1000,
    band: PriceBand::Ten,
};

// A day with a quota of 200,000 in its first phase.
fn trading() -> Result<TradingDay, Refusal> {
    match (LoadingDay {}).open(1, 20_190_215, 200_000) {
        Ok(day) => Ok(day),
        Err(back) => {
            let (LoadingDay {}, refusal) = back;
            Err(refusal)
        }
    }
}

// A request for shares of the security at 10 yuan.
fn request(side: Side, participant: u64, account: u64, shares: u64) -> Request {
    Request {
        participant,
        account,
        code: 600_000,
        side,
        price: 1000,
        shares,
    }
}

// Reserves an order, and sends it if it is taken.
fn sent<P: Register, A: Register>(
    day: &mut TradingDay,
    participants: &mut P,
    accounts: &mut A,
    book: &mut [Order],
    request: Request,
) -> Result<(), Refusal> {
    let mut securities = [SECURITY];
    let list = SecurityList::over(&mut securities, 1);
    let pass = day.reserve(&list, participants, accounts, book, request)?;
    day.send(book, pass)
}

// How many shares of the participant and of the account may still be sold.
fn left(participants: &Single, accounts: &Single) -> (Option<u64>, Option<u64>) {
    (participants.sellable(600_000), accounts.sellable(600_000))
}

#[test]
fn a_sell_draws_on_the_register_that_it_names(rt: HostRuntime) -> Result<(), Fail> {
    let mut participants = Single::new(101, 0, 600_000, 500)?;
    let mut accounts = Single::new(102, 80_000_001, 600_000, 300)?;
    let mut book = [Order::default(); 4];
    let mut day = trading()?;
    for (participant, account, shares, answer, own, of_account) in [
        (101, 0, 300, Ok(()), 200, 300),
        (101, 0, 201, Err(Refusal::ShortBalance), 200, 300),
        (101, 0, 200, Ok(()), 0, 300),
        (101, 0, 1, Err(Refusal::ShortBalance), 0, 300),
        (102, 0, 1, Err(Refusal::NoPosition), 0, 300),
        (102, 80_000_001, 301, Err(Refusal::ShortBalance), 0, 300),
        (102, 80_000_001, 300, Ok(()), 0, 0),
        (102, 80_000_002, 1, Err(Refusal::Account), 0, 0),
        (101, 80_000_001, 1, Err(Refusal::NoPosition), 0, 0),
    ] {
        let request = request(Side::Sell, participant, account, shares);
        let given = sent(
            &mut day,
            &mut participants,
            &mut accounts,
            &mut book,
            request,
        );
        assert_eq!(rt;
            given,
            answer,
            "{shares} shares of {participant} and {account}"
        );
        assert_eq!(rt;
            left(&participants, &accounts),
            (Some(own), Some(of_account))
        );
    }
    let count = day.leave().count;
    assert_eq!(rt; count, 3);
    Ok(())
}

// Sells 500 shares of the participant and 300 of the account, and buys 100.
fn three_sent(
    day: &mut TradingDay,
    participants: &mut Single,
    accounts: &mut Single,
    book: &mut [Order],
) -> Result<(), Refusal> {
    for request in [
        request(Side::Sell, 101, 0, 500),
        request(Side::Sell, 102, 80_000_001, 300),
        request(Side::Buy, 101, 0, 100),
    ] {
        sent(day, participants, accounts, book, request)?;
    }
    Ok(())
}

// Trades 200 shares of the first order and returns the rest, cancels the second, trades the third, and steps to the end
// of the day.
fn worked_off(
    day: &mut TradingDay,
    participants: &mut Single,
    accounts: &mut Single,
    book: &mut [Order],
) -> Result<(), Refusal> {
    day.trade(book, 1, 200, 1010)?;
    day.give_back(participants, accounts, book, 1)?;
    day.cancel(book, 2, 102)?;
    day.confirm(participants, accounts, book, 2)?;
    day.trade(book, 3, 100, 990)?;
    for _ in 0..4 {
        day.step()?;
    }
    Ok(())
}

// The quota of 200,000 less 99,000 for what is bought, and plus 202,000 for what is sold.
#[test]
fn what_is_not_sold_comes_back_and_the_day_closes(rt: HostRuntime) -> Result<(), Fail> {
    let mut securities = [SECURITY];
    let list = SecurityList::over(&mut securities, 1);
    let mut participants = Single::new(101, 0, 600_000, 500)?;
    let mut accounts = Single::new(102, 80_000_001, 600_000, 300)?;
    let mut book = [Order::default(); 3];
    let mut day = trading()?;
    let taken = three_sent(&mut day, &mut participants, &mut accounts, &mut book);
    assert_eq!(rt; taken, Ok(()));
    assert_eq!(rt; left(&participants, &accounts), (Some(0), Some(0)));
    assert_eq!(rt;
        balance(&day, &list, &participants, &accounts, &book),
        100_000
    );
    let worked = worked_off(&mut day, &mut participants, &mut accounts, &mut book);
    assert_eq!(rt; worked, Ok(()));
    assert_eq!(rt; left(&participants, &accounts), (Some(300), Some(300)));
    assert_eq!(rt;
        balance(&day, &list, &participants, &accounts, &book),
        303_000
    );
    let closed = match close(day, &list, &participants, &accounts, &book) {
        Ok(closed) => Ok(closed.figures().balance),
        Err(back) => {
            let (day, refusal) = back;
            day.leave();
            Err(refusal)
        }
    };
    assert_eq!(rt; closed, Ok(303_000));
    Ok(())
}

// A register of all of whose shares may still be sold takes none back, nor does one without the order's pool.
#[test]
fn a_restore_that_a_register_refuses_is_unsound(rt: HostRuntime) -> Result<(), Fail> {
    let mut participants = Single::new(101, 0, 600_000, 500)?;
    let mut fresh = Single::new(101, 0, 600_000, 500)?;
    let mut of_another_code = Single::new(101, 0, 600_001, 500)?;
    let mut accounts = Single::new(102, 80_000_001, 600_000, 300)?;
    let mut book = [Order::default(); 1];
    let mut day = trading()?;
    let request = request(Side::Sell, 101, 0, 500);
    let taken = sent(
        &mut day,
        &mut participants,
        &mut accounts,
        &mut book,
        request,
    );
    let to_fresh = day.give_back(&mut fresh, &mut accounts, &mut book, 1);
    let to_another = day.give_back(&mut of_another_code, &mut accounts, &mut book, 1);
    let to_its_own = day.give_back(&mut participants, &mut accounts, &mut book, 1);
    day.leave();
    assert_eq!(rt; taken, Ok(()));
    assert_eq!(rt; to_fresh, Err(Refusal::Unsound));
    assert_eq!(rt; to_another, Err(Refusal::Unsound));
    assert_eq!(rt; to_its_own, Ok(()));
    assert_eq!(rt; participants.sellable(600_000), Some(500));
    Ok(())
}

#[test]
fn a_register_has_as_many_shares_as_a_holding_may_have(rt: HostRuntime) {
    assert!(rt; Single::new(101, 0, 600_000, 1).is_ok());
    assert!(rt; Single::new(101, 0, 600_000, 9_999_999_999).is_ok());
    for shares in [0, 10_000_000_000] {
        assert_eq!(rt;
            Single::new(101, 0, 600_000, shares).err(),
            Some(Refusal::Range)
        );
    }
}
