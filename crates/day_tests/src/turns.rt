ghost use Rattle.std.specs.Prelude.{◌≡◌, IfOk};
ghost use Rattle.gate.specs.Opened.{OpenedBy};

use super::rows::{day_rows, lent, tables};
use gate::day::{LoadingDay, TradingDay};
use gate::figures::Figures;
use history::closing::close;
use history::reading::balance;
use orders::order::{Order, Request};
use registers::Register;
use rules::refusal::Refusal;
use rules::side::Side;
use std::process::Abort;
use std::test::Fail;
use tables::table::SecurityList;

// A call of a day with its arguments; an order that is taken is sent at once, or voided at once.
#[derive(Clone, Copy, Debug)]
pub(super) enum Call {
    Send(Request),
    Void(Request),
    Trade(u64, u64, u64),
    Return(u64),
    Cancel(u64, u64),
    Confirm(u64),
    Decline(u64),
    Step,
    Notice(u64, u64, u64),
}

// What a call answers, a refusal's number or 0, and what it leaves: the balance, whether buying is shut, and how many
// shares of the participant's and of the account's pool may still be sold.
#[derive(Clone, Copy, PartialEq, Eq, Debug)]
pub(super) struct Left {
    answer: u64,
    balance: i64,
    shut: bool,
    own: Option<u64>,
    account: Option<u64>,
}

// A call, and what it has to answer and to leave.
#[derive(Clone, Copy)]
pub(super) struct Turn {
    call: Call,
    left: Left,
}

// A call that leaves buying open.
pub(super) fn open(call: Call, answer: u64, balance: i64, own: u64, account: u64) -> Turn {
    let left = Left {
        answer,
        balance,
        shut: false,
        own: Some(own),
        account: Some(account),
    };
    Turn { call, left }
}

// A call that leaves buying shut.
pub(super) fn shut(call: Call, answer: u64, balance: i64, own: u64, account: u64) -> Turn {
    let turn = open(call, answer, balance, own, account);
    Turn {
        left: Left {
            shut: true,
            ..turn.left
        },
        ..turn
    }
}

// Participant 101 asks for shares of security 600000.
pub(super) fn request(side: Side, price: u64, shares: u64) -> Request {
    Request {
        participant: 101,
        account: 0,
        code: 600_000,
        side,
        price,
        shares,
    }
}

// Participant 101 buys.
pub(super) fn buy(price: u64, shares: u64) -> Call {
    Call::Send(request(Side::Buy, price, shares))
}

// Participant 101 sells shares of its own.
pub(super) fn sell(price: u64, shares: u64) -> Call {
    Call::Send(request(Side::Sell, price, shares))
}

// Participant 102 sells shares of account 80000001.
pub(super) fn sell_for_account(price: u64, shares: u64) -> Call {
    Call::Send(Request {
        participant: 102,
        account: 80_000_001,
        ..request(Side::Sell, price, shares)
    })
}

// Why a loading day came back, which is then given up.
pub(super) fn refusal_of(back: (LoadingDay, Refusal)) -> Refusal
    ensures { result ≡ back.1 }
{
    let (LoadingDay {}, refusal) = back;
    refusal
}

// A day of a market, a date and a quota in its first phase.
pub(super) fn opened(market: u64, date: u64, quota: u64) -> Result<TradingDay, Refusal>
    ensures { IfOk result (λ day. OpenedBy market date quota day.figures) }
{
    match (LoadingDay {}).open(market, date, quota) {
        Ok(day) => Ok(day),
        Err(back) => Err(refusal_of(back)),
    }
}

// Makes a call.
pub(super) fn make<P: Register, A: Register>(
    day: &mut TradingDay,
    list: &mut SecurityList,
    participants: &mut P,
    accounts: &mut A,
    book: &mut [Order],
    call: Call,
) -> Result<(), Refusal> {
    match call {
        Call::Send(request) => match day.reserve(list, participants, accounts, book, request) {
            Ok(pass) => day.send(book, pass),
            Err(refusal) => Err(refusal),
        },
        Call::Void(request) => match day.reserve(list, participants, accounts, book, request) {
            Ok(pass) => day.void(participants, accounts, book, pass),
            Err(refusal) => Err(refusal),
        },
        Call::Trade(number, shares, price) => day.trade(book, number, shares, price),
        Call::Return(number) => day.give_back(participants, accounts, book, number),
        Call::Cancel(number, participant) => day.cancel(book, number, participant),
        Call::Confirm(number) => day.confirm(participants, accounts, book, number),
        Call::Decline(number) => day.decline(book, number),
        Call::Step => day.step(),
        Call::Notice(code, foreign, total) => day.notice(list, code, foreign, total),
    }
}

// The number of a refusal; 0 where there is none.
pub(super) fn number_of(answer: Result<(), Refusal>) -> u64 {
    match answer {
        Ok(()) => 0,
        Err(refusal) => refusal.number(),
    }
}

// How a day was left: its book, its figures, and why it could not be closed, if it could not.
#[derive(Clone, Copy, PartialEq, Eq, Debug)]
pub(super) struct Ended {
    pub(super) book: [Order; 4],
    pub(super) figures: Figures,
    pub(super) closing: Option<Refusal>,
}

// Makes the calls one after another, checks what each answers and leaves, and then closes the day.
fn play<P: Register, A: Register>(
    rt: &impl Abort,
    mut day: TradingDay,
    list: &mut SecurityList,
    participants: &mut P,
    accounts: &mut A,
    turns: &[Turn],
) -> Ended {
    let mut book = [Order::default(); 4];
    for (place, turn) in turns.iter().enumerate() {
        let answer = make(&mut day, list, participants, accounts, &mut book, turn.call);
        let left = Left {
            answer: number_of(answer),
            balance: balance(&day, list, participants, accounts, &book),
            shut: day.figures().shut,
            own: participants.sellable(0),
            account: accounts.sellable(0),
        };
        assert_eq!(rt; left, turn.left, "after the call at place {place}");
    }
    let (figures, closing) = match close(day, list, participants, accounts, &book) {
        Ok(closed) => (closed.figures(), None),
        Err(back) => {
            let (day, refusal) = back;
            (day.leave(), Some(refusal))
        }
    };
    Ended {
        book,
        figures,
        closing,
    }
}

// Plays the calls on a day of a quota, on which participant 101 holds 500 shares and account 80000001 holds 300, and
// then closes it.
pub(super) fn played(rt: &impl Abort, quota: u64, turns: &[Turn]) -> Result<Ended, Fail> {
    let mut rows = day_rows(500);
    let mut tables = tables(&mut rows, 1, 1);
    let (list, mut participants, mut accounts) = lent(&mut tables);
    let day = opened(1, 20_190_215, quota)?;
    Ok(play(rt, day, list, &mut participants, &mut accounts, turns))
}
