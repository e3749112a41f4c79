use super::rows::{day_rows, lent, tables};
use super::turns::{Call, make, number_of, opened, request};
use gate::day::TradingDay;
use orders::order::{Order, Request};
use registers::Register;
use rules::refusal::Refusal;
use rules::side::Side;
use std::test::Fail;
use tables::table::SecurityList;

// A request, the hour and the book that it comes to, and what it has to be answered: a refusal's number, or 0.
#[derive(Clone, Copy)]
struct Case {
    // how many steps the day has made
    steps: u8,
    // how many rows the book has, two at the most
    rows: usize,
    // whether a buy has taken the quota, and a row of the book
    spent: bool,
    request: Request,
    answer: u64,
}

// A request in the opening call that comes to an empty book of two rows and a whole quota.
fn early(request: Request, answer: u64) -> Case {
    Case {
        steps: 0,
        rows: 2,
        spent: false,
        request,
        answer,
    }
}

// The same with the quota spent.
fn spent(request: Request, answer: u64) -> Case {
    Case {
        spent: true,
        ..early(request, answer)
    }
}

// The same after so many steps.
fn after(steps: u8, case: Case) -> Case {
    Case { steps, ..case }
}

// The same with so many rows in the book.
fn over(rows: usize, case: Case) -> Case {
    Case { rows, ..case }
}

// A buy of 100 shares that breaks no rule.
fn buy() -> Request {
    request(Side::Buy, 1000, 100)
}

// A sell of 100 shares of participant 101 that breaks no rule.
fn sell() -> Request {
    request(Side::Sell, 1000, 100)
}

// A sell of 100 shares of account 80000001 that breaks no rule.
fn account_sell() -> Request {
    by(102, of(80_000_001, sell()))
}

// The same request of another participant.
fn by(participant: u64, request: Request) -> Request {
    Request {
        participant,
        ..request
    }
}

// The same request for an account.
fn of(account: u64, request: Request) -> Request {
    Request { account, ..request }
}

// The same request for another security.
fn code(code: u64, request: Request) -> Request {
    Request { code, ..request }
}

// The same request at another price.
fn at(price: u64, request: Request) -> Request {
    Request { price, ..request }
}

// The same request for other shares.
fn for_shares(shares: u64, request: Request) -> Request {
    Request { shares, ..request }
}

// Spends the quota where the case wants it, makes the steps, and answers the request; an order that is taken is sent.
fn asked<P: Register, A: Register>(
    day: &mut TradingDay,
    list: &mut SecurityList,
    participants: &mut P,
    accounts: &mut A,
    book: &mut [Order],
    case: &Case,
) -> Result<(), Refusal> {
    if case.spent {
        make(day, list, participants, accounts, book, Call::Send(buy()))?;
    }
    for _ in 0..case.steps {
        day.step()?;
    }
    let request = Call::Send(case.request);
    make(day, list, participants, accounts, book, request)
}

// What a case's request is answered on a day whose quota is worth one buy of 100 shares.
fn answer(case: &Case) -> Result<u64, Refusal> {
    let mut rows = day_rows(500);
    let mut tables = tables(&mut rows, 3, 3);
    let (list, mut participants, mut accounts) = lent(&mut tables);
    let mut book = [Order::default(); 2];
    let mut day = opened(1, 20_190_215, 100_000)?;
    let answer = asked(
        &mut day,
        list,
        &mut participants,
        &mut accounts,
        &mut book[..case.rows.min(2)],
        case,
    );
    day.leave();
    Ok(number_of(answer))
}

// Each rule of a buy alone. Security 600001 may only be sold, buying of 600002 is suspended, and 600003 is not listed.
#[test]
fn a_buy_is_refused_for_each_rule_that_it_breaks(rt: HostRuntime) -> Result<(), Fail> {
    for (why, case) in [
        ("no rule is broken", early(buy(), 0)),
        ("the lowest price", early(at(900, buy()), 0)),
        ("the highest price", early(at(1100, buy()), 0)),
        ("after hours", after(4, early(buy(), 1))),
        ("a book of no rows", over(0, early(buy(), 2))),
        ("not listed", early(code(600_003, buy()), 3)),
        ("below the lowest price", early(at(899, buy()), 4)),
        ("above the highest price", early(at(1101, buy()), 4)),
        ("no shares", early(for_shares(0, buy()), 5)),
        ("not in hundreds", early(for_shares(150, buy()), 5)),
        ("too many shares", early(for_shares(1_000_100, buy()), 5)),
        ("participant 0", early(by(0, buy()), 6)),
        ("participant 100000", early(by(100_000, buy()), 6)),
        ("for an account", early(of(80_000_001, buy()), 6)),
        ("to be sold only", early(code(600_001, buy()), 10)),
        ("suspended", early(code(600_002, buy()), 11)),
        ("no quota", spent(buy(), 12)),
    ] {
        assert_eq!(rt; answer(&case)?, case.answer, "{why}");
    }
    Ok(())
}

// Each rule of a sell alone. Account 80000001 has named participant 102, and no other account is known.
#[test]
fn a_sell_is_refused_for_each_rule_that_it_breaks(rt: HostRuntime) -> Result<(), Fail> {
    for (why, case) in [
        ("no rule is broken", early(sell(), 0)),
        ("none, for an account", early(account_sell(), 0)),
        ("to be sold only", early(code(600_001, sell()), 0)),
        ("suspended", early(code(600_002, sell()), 0)),
        ("no quota", spent(sell(), 0)),
        ("an odd lot", early(for_shares(1, sell()), 0)),
        ("all that is held", early(for_shares(500, sell()), 0)),
        ("after hours", after(4, early(sell(), 1))),
        ("a book of no rows", over(0, early(sell(), 2))),
        ("no row left", over(1, spent(sell(), 2))),
        ("not listed", early(code(600_003, sell()), 3)),
        ("below the lowest price", early(at(899, sell()), 4)),
        ("above the highest price", early(at(1101, sell()), 4)),
        ("no shares", early(for_shares(0, sell()), 5)),
        ("too many shares", early(for_shares(1_000_001, sell()), 5)),
        ("participant 0", early(by(0, sell()), 6)),
        ("participant 100000", early(by(100_000, sell()), 6)),
        ("an unknown account", early(of(80_000_002, sell()), 6)),
        ("not designated", early(of(80_000_001, sell()), 7)),
        ("not held", early(by(102, sell()), 8)),
        (
            "not in the account",
            early(code(600_001, account_sell()), 8),
        ),
        ("more than held", early(for_shares(501, sell()), 9)),
        (
            "more than the account has",
            early(for_shares(301, account_sell()), 9),
        ),
    ] {
        assert_eq!(rt; answer(&case)?, case.answer, "{why}");
    }
    Ok(())
}

// Each two rules of a buy that follow one another and can be broken together.
#[test]
fn of_two_rules_that_a_buy_breaks_the_first_is_answered(rt: HostRuntime) -> Result<(), Fail> {
    let unlisted = code(600_003, buy());
    let nobody = by(0, buy());
    let for_account = of(80_000_001, buy());
    for (why, case) in [
        ("hours and full", over(0, after(4, early(buy(), 1)))),
        ("full and code", over(0, early(unlisted, 2))),
        ("code and price", early(at(0, unlisted), 3)),
        ("price and lot", early(at(899, for_shares(150, buy())), 4)),
        ("lot and participant", early(for_shares(150, nobody), 5)),
        ("lot and account", early(for_shares(150, for_account), 5)),
        ("participant and account", early(by(0, for_account), 6)),
        ("participant and sell only", early(code(600_001, nobody), 6)),
        ("participant and suspended", early(code(600_002, nobody), 6)),
        (
            "account and sell only",
            early(code(600_001, for_account), 6),
        ),
        (
            "account and suspended",
            early(code(600_002, for_account), 6),
        ),
        ("account and quota", spent(for_account, 6)),
        ("sell only and quota", spent(code(600_001, buy()), 10)),
        ("suspended and quota", spent(code(600_002, buy()), 11)),
    ] {
        assert_eq!(rt; answer(&case)?, case.answer, "{why}");
    }
    Ok(())
}

// Each two rules of a sell that follow one another. An unknown account has named nobody, and where nothing is held, the
// balance is short.
#[test]
fn of_two_rules_that_a_sell_breaks_the_first_is_answered(rt: HostRuntime) -> Result<(), Fail> {
    let unlisted = code(600_003, sell());
    let unknown = of(80_000_002, sell());
    let undesignated = of(80_000_001, sell());
    for (why, case) in [
        ("hours and full", over(0, after(4, early(sell(), 1)))),
        ("full and code", over(0, early(unlisted, 2))),
        ("code and price", early(at(0, unlisted), 3)),
        ("price and lot", early(at(1101, for_shares(0, sell())), 4)),
        (
            "lot and participant",
            early(for_shares(0, by(0, sell())), 5),
        ),
        ("lot and account", early(for_shares(0, unknown), 5)),
        ("participant and account", early(by(0, unknown), 6)),
        ("participant and designation", early(by(0, undesignated), 6)),
        ("participant and holding", early(by(100_000, sell()), 6)),
        ("account and designation", early(unknown, 6)),
        (
            "designation and holding",
            early(code(600_001, undesignated), 7),
        ),
        (
            "holding and balance",
            early(by(102, for_shares(501, sell())), 8),
        ),
    ] {
        assert_eq!(rt; answer(&case)?, case.answer, "{why}");
    }
    Ok(())
}
