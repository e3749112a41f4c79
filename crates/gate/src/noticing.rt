ghost use Rattle.std.specs.Prelude.{◌≡◌, List, drop};
ghost use Rattle.rules.specs.Rules.{refusal_in};
ghost use Rattle.tables.specs.Tables.{lines_of};
ghost use Rattle.registers.specs.Meaning.{Meaning};
ghost use Rattle.orders.specs.declared.order.Order.{Order as an_order};
ghost use Rattle.gate.specs.Desks.{desk};
ghost use Rattle.gate.specs.Calls.{Did};
ghost use Rattle.gate.specs.Calls.{notice as a_notice};

use super::balance::settle;
use super::day::TradingDay;
use rules::notice::{NoticeBand, is_unfit};
use rules::refusal::Refusal;
use tables::table::SecurityList;

impl TradingDay {
    // A notice of how many shares of a security foreign investors hold, and how many there are in all.
    pub fn notice(
        &mut self,
        list: &mut SecurityList,
        code: u64,
        foreign: u64,
        total: u64,
    ) -> Result<(), Refusal>
        ensures did { (p a : Meaning) (book : List an_order) → Did (desk self.old.figures (lines_of list.old) p a book) (a_notice code foreign total) (refusal_in result) (desk self.new.figures (lines_of list.new) p a book) }
        ensures counted { list.new.count ≡ list.old.count }
        ensures rest { drop list.new.count list.new.rows ≡ drop list.old.count list.old.rows }
    {
        let Some(place) = list.place(&code) else {
            return Err(Refusal::Code);
        };
        if is_unfit(foreign, total) {
            return Err(Refusal::Foreign);
        }
        list.note(place, NoticeBand::of(foreign, total));
        self.figures = settle(self.figures);
        Ok(())
    }
}
