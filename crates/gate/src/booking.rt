ghost use Rattle.std.specs.Prelude.{◌≡◌, ◌+◌, ◌*◌, ◌<◌, ◌≤◌, true, false, pos, IfOk, Some, int_le, unsigned_abs};
ghost use Rattle.rules.specs.Rules.{first_broken, kept_or, refusal_in};
ghost use Rattle.rules.specs.Sides.{by_side};
ghost use Rattle.tables.specs.Tables.{lines_of};
ghost use Rattle.gate.specs.Balances.{most_balance, most_orders, shut_in_time};
ghost use Rattle.gate.specs.Desks.{by_account, desk};
ghost use Rattle.gate.specs.Reserves.{accounts_drawn, drawn_for, found, or_zero, participants_drawn, pool_for, reserved_by, sell_rules, side_faults};
ghost use Rattle.gate.specs.Calls.{Did};
ghost use Rattle.gate.specs.Calls.{reserve as a_reserve};

use super::balance::{lowered, settle};
use super::day::TradingDay;
use super::figures::Figures;
use super::pass::Pass;
use super::requesting::{check_buy, security_for};
use orders::order::{Order, Request};
use registers::Register;
use rules::refusal::Refusal;
use rules::side::Side;
use tables::rows::Security;
use tables::table::SecurityList;

// Finds the pool of a sell, and draws its shares.
fn draw_for<R: Register>(register: &mut R, request: Request) -> Result<usize, Refusal>
    ensures answer { refusal_in result ≡ first_broken (sell_rules (R.Register.meaning register.old) request) }
    ensures pool { IfOk result (λ k. k ≡ or_zero (found (R.Register.meaning register.old) request)) }
    ensures after { R.Register.meaning register.new ≡ kept_or (refusal_in result) (R.Register.meaning register.old) (drawn_for (R.Register.meaning register.old) request) }
{
    let pool = register.find(request.participant, request.account, request.code)?;
    register.draw(pool, request.shares)?;
    Ok(pool)
}

// Checks the further rules of a request's side, and takes a sell's shares; answers the pool.
fn take_for<P: Register, A: Register>(
    f: Figures,
    security: Security,
    participants: &mut P,
    accounts: &mut A,
    request: Request,
) -> Result<usize, Refusal>
    ensures answer { refusal_in result ≡ first_broken (side_faults f (Some security) (P.Register.meaning participants.old) (A.Register.meaning accounts.old) request) }
    ensures pool { IfOk result (λ k. k ≡ pool_for (by_account request.account (P.Register.meaning participants.old) (A.Register.meaning accounts.old)) request) }
    ensures participants { P.Register.meaning participants.new ≡ kept_or (refusal_in result) (P.Register.meaning participants.old) (participants_drawn (P.Register.meaning participants.old) request) }
    ensures accounts { A.Register.meaning accounts.new ≡ kept_or (refusal_in result) (A.Register.meaning accounts.old) (accounts_drawn (A.Register.meaning accounts.old) request) }
{
    match request.side {
        Side::Buy => check_buy(f, security, request).and(Ok(0)),
        Side::Sell if request.account == 0 => draw_for(participants, request),
        Side::Sell => draw_for(accounts, request),
    }
}

// The figures after an accepted request.
fn reserved(f: Figures, request: Request) -> Figures
    requires bounded { unsigned_abs f.balance ≤ most_balance }
    requires few { f.count < most_orders }
    requires above { by_side request.side (int_le f.balance (pos 0)) false ≡ false }
    requires small { request.price * request.shares ≤ most_balance }
    ensures value { result ≡ reserved_by f request }
    ensures timely { shut_in_time result ≡ true }
    ensures bounded { unsigned_abs result.balance ≤ most_balance }
{
    let balance = match request.side {
        Side::Buy => lowered(f.balance, request.price * request.shares),
        Side::Sell => f.balance,
    };
    settle(Figures {
        balance,
        count: f.count + 1,
        ..f
    })
}

impl TradingDay {
    // Takes an order: the quota of a buy and the shares of a sell are set aside, and the pass lets it be sent.
    pub fn reserve<P: Register, A: Register>(
        &mut self,
        list: &SecurityList,
        participants: &mut P,
        accounts: &mut A,
        book: &mut [Order],
        request: Request,
    ) -> Result<Pass, Refusal>
        ensures did { Did (desk self.old.figures (lines_of list.now) (P.Register.meaning participants.old) (A.Register.meaning accounts.old) book.old) (a_reserve request) (refusal_in result) (desk self.new.figures (lines_of list.now) (P.Register.meaning participants.new) (A.Register.meaning accounts.new) book.new) }
        ensures pass { IfOk result (λ pass. pass ≡ record { market = self.old.figures.market; date = self.old.figures.date; number = self.old.figures.count + 1 }) }
    {
        let f = self.figures;
        let security = security_for(f, list, book.len(), request)?;
        let pool = take_for(f, security, participants, accounts, request)?;
        let Some(order) = request.held(pool) else {
            unreachable!()
        };
        book[f.count as usize] = order;
        self.figures = reserved(f, request);
        Ok(Pass {
            market: f.market,
            date: f.date,
            number: f.count + 1,
        })
    }
}
