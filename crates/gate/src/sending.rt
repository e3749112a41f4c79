ghost use Rattle.std.specs.Prelude.{◌≡◌, List};
ghost use Rattle.rules.specs.Rules.{refusal_in};
ghost use Rattle.tables.specs.declared.rows.Security.{Security as a_security};
ghost use Rattle.registers.specs.Meaning.{Meaning};
ghost use Rattle.gate.specs.Desks.{desk};
ghost use Rattle.gate.specs.Calls.{Did};
ghost use Rattle.gate.specs.Calls.{send as a_send, void as a_void};

use super::balance::settle;
use super::day::TradingDay;
use super::numbering::{place_of, spend};
use super::pass::Pass;
use orders::order::Order;
use registers::Register;
use rules::refusal::Refusal;

impl TradingDay {
    // Sends the order of a pass to the market; the pass is used up.
    pub fn send(&mut self, book: &mut [Order], pass: Pass) -> Result<(), Refusal>
        ensures { (list : List a_security) (p a : Meaning) → Did (desk self.old.figures list p a book.old) (a_send pass) (refusal_in result) (desk self.new.figures list p a book.new) }
    {
        let f = self.figures;
        let number = spend(f, pass)?;
        let place = place_of(f, book, number, Refusal::Pass)?;
        book[place] = book[place].send()?;
        self.figures = settle(f);
        Ok(())
    }

    // Keeps the order of a pass from the market and ends it; the pass is used up.
    pub fn void<P: Register, A: Register>(
        &mut self,
        participants: &mut P,
        accounts: &mut A,
        book: &mut [Order],
        pass: Pass,
    ) -> Result<(), Refusal>
        ensures { (list : List a_security) → Did (desk self.old.figures list (P.Register.meaning participants.old) (A.Register.meaning accounts.old) book.old) (a_void pass) (refusal_in result) (desk self.new.figures list (P.Register.meaning participants.new) (A.Register.meaning accounts.new) book.new) }
    {
        let number = spend(self.figures, pass)?;
        let place = place_of(self.figures, book, number, Refusal::Pass)?;
        let order = &mut book[place];
        let ended = order.void()?;
        self.finish(participants, accounts, order, ended)
    }
}
