ghost use Rattle.std.specs.Prelude.{◌≡◌, List};
ghost use Rattle.rules.specs.Rules.{refusal_in};
ghost use Rattle.tables.specs.declared.rows.Security.{Security as a_security};
ghost use Rattle.registers.specs.Meaning.{Meaning};
ghost use Rattle.orders.specs.declared.order.Order.{Order as an_order};
ghost use Rattle.gate.specs.Desks.{desk};
ghost use Rattle.gate.specs.Calls.{Did};
ghost use Rattle.gate.specs.Calls.{step as a_step};

use super::balance::settle;
use super::day::TradingDay;
use super::figures::Figures;
use rules::refusal::Refusal;

impl TradingDay {
    // One phase forward.
    pub fn step(&mut self) -> Result<(), Refusal>
        ensures { (list : List a_security) (p a : Meaning) (book : List an_order) → Did (desk self.old.figures list p a book) a_step (refusal_in result) (desk self.new.figures list p a book) }
    {
        let f = self.figures;
        let Some(phase) = f.phase.next() else {
            return Err(Refusal::Phase);
        };
        self.figures = settle(Figures { phase, ..f });
        Ok(())
    }
}
