ghost use Rattle.std.specs.Prelude.{◌≡◌, IfOk, Some, MatchResult};
ghost use Rattle.rules.specs.Rules.{first_broken};
ghost use Rattle.tables.specs.Tables.{lines_of};
ghost use Rattle.gate.specs.Closed.{ClosedOver, closing_rules};
ghost use Rattle.gate.specs.Desks.{desk};
ghost use Rattle.history.specs.History.{Cleared};

use gate::day::{ClosedDay, TradingDay};
use orders::order::Order;
use registers::Register;
use rules::refusal::Refusal;
use tables::table::SecurityList;

// Ends the day after hours, where each of its orders is sound and done; then, in every history that led to it and to this list, these registers and this
// book, nothing is reserved any more.
pub fn close<P: Register, A: Register>(
    day: TradingDay,
    list: &SecurityList,
    participants: &P,
    accounts: &A,
    book: &[Order],
) -> Result<ClosedDay, (TradingDay, Refusal)>
    ensures answer { MatchResult result (λ closed. ClosedOver day.figures book.now closed.figures) (λ back. (first_broken (closing_rules day.figures book.now) ≡ Some back.1) × (back.0.figures ≡ day.figures)) }
    ensures law { IfOk result (λ closed. Cleared (desk closed.figures (lines_of list.now) (P.Register.meaning participants.now) (A.Register.meaning accounts.now) book.now)) }
{
    day.close(book)
}
