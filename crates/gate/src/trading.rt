ghost use Rattle.std.specs.Prelude.{◌≡◌, List};
ghost use Rattle.rules.specs.Rules.{refusal_in};
ghost use Rattle.tables.specs.declared.rows.Security.{Security as a_security};
ghost use Rattle.registers.specs.Meaning.{Meaning};
ghost use Rattle.gate.specs.Desks.{desk};
ghost use Rattle.gate.specs.Calls.{Did};
ghost use Rattle.gate.specs.Calls.{trade as a_trade};

use super::balance::raised;
use super::day::TradingDay;
use super::numbering::place_of;
use orders::order::Order;
use rules::refusal::Refusal;

impl TradingDay {
    // The market has traded shares of an order at a price.
    pub fn trade(
        &mut self,
        book: &mut [Order],
        number: u64,
        shares: u64,
        price: u64,
    ) -> Result<(), Refusal>
        ensures { (list : List a_security) (p a : Meaning) → Did (desk self.old.figures list p a book.old) (a_trade number shares price) (refusal_in result) (desk self.new.figures list p a book.new) }
    {
        let f = self.figures;
        let place = place_of(f, book, number, Refusal::Order)?;
        let filled = book[place].fill(shares, price)?;
        self.figures = raised(f, filled.raise)?;
        book[place] = filled.order;
        Ok(())
    }
}
