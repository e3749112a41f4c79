ghost use Rattle.std.specs.Prelude.{◌≡◌, ◌≤◌, List, None};
ghost use Rattle.rules.specs.Rules.{kept_or, refusal_in};
ghost use Rattle.rules.specs.Sides.{by_side};
ghost use Rattle.tables.specs.declared.rows.Security.{Security as a_security};
ghost use Rattle.registers.specs.Meaning.{restore_answer};
ghost use Rattle.orders.specs.Outcomes.{ended as an_end, ended_by, freed};
ghost use Rattle.orders.specs.Records.{remainder};
ghost use Rattle.gate.specs.Balances.{most_balance, raised_by};
ghost use Rattle.gate.specs.Desks.{by_account, desk};
ghost use Rattle.gate.specs.Calls.{Did, accounts_restored, end_rule, participants_restored};
ghost use Rattle.gate.specs.Calls.{confirm as a_confirm, give_back as a_return};

use super::balance::raised;
use super::day::TradingDay;
use super::numbering::place_of;
use orders::order::{Order, Outcome};
use registers::Register;
use rules::refusal::Refusal;
use rules::side::Side;

// Gives a sell's remainder back to the pool that it came from.
fn put_back<P: Register, A: Register>(
    participants: &mut P,
    accounts: &mut A,
    order: Order,
) -> Result<(), Refusal>
    ensures answer { refusal_in result ≡ by_side order.side None (refusal_in (restore_answer (by_account order.account (P.Register.meaning participants.old) (A.Register.meaning accounts.old)) order.pool (remainder order))) }
    ensures participants { P.Register.meaning participants.new ≡ kept_or (refusal_in result) (P.Register.meaning participants.old) (participants_restored (P.Register.meaning participants.old) order) }
    ensures accounts { A.Register.meaning accounts.new ≡ kept_or (refusal_in result) (A.Register.meaning accounts.old) (accounts_restored (A.Register.meaning accounts.old) order) }
{
    match order.side {
        Side::Buy => Ok(()),
        Side::Sell if order.account == 0 => participants.restore(order.pool, order.remainder()),
        Side::Sell => accounts.restore(order.pool, order.remainder()),
    }
}

impl TradingDay {
    // Ends an order's remainder: the quota of a buy and the shares of a sell go back where they were taken.
    pub(super) fn finish<P: Register, A: Register>(
        &mut self,
        participants: &mut P,
        accounts: &mut A,
        order: &mut Order,
        ended: Outcome,
    ) -> Result<(), Refusal>
        requires ended { ended ≡ an_end order.old }
        requires small { ended.raise ≤ most_balance }
        ensures answer { refusal_in result ≡ end_rule self.old.figures (P.Register.meaning participants.old) (A.Register.meaning accounts.old) order.old }
        ensures figures { self.new.figures ≡ kept_or (refusal_in result) self.old.figures (raised_by self.old.figures (freed order.old)) }
        ensures participants { P.Register.meaning participants.new ≡ kept_or (refusal_in result) (P.Register.meaning participants.old) (participants_restored (P.Register.meaning participants.old) order.old) }
        ensures accounts { A.Register.meaning accounts.new ≡ kept_or (refusal_in result) (A.Register.meaning accounts.old) (accounts_restored (A.Register.meaning accounts.old) order.old) }
        ensures order { order.new ≡ kept_or (refusal_in result) order.old (ended_by order.old) }
    {
        let figures = raised(self.figures, ended.raise)?;
        put_back(participants, accounts, *order)?;
        *order = ended.order;
        self.figures = figures;
        Ok(())
    }

    // The market returns what is left of an order.
    pub fn give_back<P: Register, A: Register>(
        &mut self,
        participants: &mut P,
        accounts: &mut A,
        book: &mut [Order],
        number: u64,
    ) -> Result<(), Refusal>
        ensures { (list : List a_security) → Did (desk self.old.figures list (P.Register.meaning participants.old) (A.Register.meaning accounts.old) book.old) (a_return number) (refusal_in result) (desk self.new.figures list (P.Register.meaning participants.new) (A.Register.meaning accounts.new) book.new) }
    {
        let place = place_of(self.figures, book, number, Refusal::Order)?;
        let order = &mut book[place];
        let ended = order.give_back()?;
        self.finish(participants, accounts, order, ended)
    }

    // The market confirms the cancel of an order.
    pub fn confirm<P: Register, A: Register>(
        &mut self,
        participants: &mut P,
        accounts: &mut A,
        book: &mut [Order],
        number: u64,
    ) -> Result<(), Refusal>
        ensures { (list : List a_security) → Did (desk self.old.figures list (P.Register.meaning participants.old) (A.Register.meaning accounts.old) book.old) (a_confirm number) (refusal_in result) (desk self.new.figures list (P.Register.meaning participants.new) (A.Register.meaning accounts.new) book.new) }
    {
        let place = place_of(self.figures, book, number, Refusal::Order)?;
        let order = &mut book[place];
        let ended = order.confirm()?;
        self.finish(participants, accounts, order, ended)
    }
}
