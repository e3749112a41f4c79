ghost use Rattle.std.specs.Prelude.{◌≡◌, List};
ghost use Rattle.rules.specs.Rules.{refusal_in};
ghost use Rattle.tables.specs.declared.rows.Security.{Security as a_security};
ghost use Rattle.registers.specs.Meaning.{Meaning};
ghost use Rattle.gate.specs.Desks.{desk};
ghost use Rattle.gate.specs.Calls.{Did};
ghost use Rattle.gate.specs.Calls.{cancel as a_cancel, decline as a_decline};

use super::balance::settle;
use super::day::TradingDay;
use super::numbering::place_of;
use orders::order::Order;
use rules::refusal::Refusal;

impl TradingDay {
    // A participant asks for the cancel of its order, which frees nothing yet.
    pub fn cancel(
        &mut self,
        book: &mut [Order],
        number: u64,
        participant: u64,
    ) -> Result<(), Refusal>
        ensures { (list : List a_security) (p a : Meaning) → Did (desk self.old.figures list p a book.old) (a_cancel number participant) (refusal_in result) (desk self.new.figures list p a book.new) }
    {
        let f = self.figures;
        let place = place_of(f, book, number, Refusal::Order)?;
        let asked = book[place].ask_cancel(participant)?;
        if !f.phase.cancels() {
            return Err(Refusal::NoCancel);
        }
        book[place] = asked;
        self.figures = settle(f);
        Ok(())
    }

    // The market declines the cancel of an order.
    pub fn decline(&mut self, book: &mut [Order], number: u64) -> Result<(), Refusal>
        ensures { (list : List a_security) (p a : Meaning) → Did (desk self.old.figures list p a book.old) (a_decline number) (refusal_in result) (desk self.new.figures list p a book.new) }
    {
        let f = self.figures;
        let place = place_of(f, book, number, Refusal::Order)?;
        book[place] = book[place].decline()?;
        self.figures = settle(f);
        Ok(())
    }
}
