ghost use Rattle.std.specs.Prelude.{◌≡◌};
ghost use Rattle.tables.specs.Tables.{lines_of};
ghost use Rattle.gate.specs.Desks.{desk};
ghost use Rattle.history.specs.History.{Kept};

use gate::day::TradingDay;
use orders::order::Order;
use registers::Register;
use tables::table::SecurityList;

// The quota's balance; in every history that led to this day, list, registers and book it is what the law says.
pub fn balance<P: Register, A: Register>(
    day: &TradingDay,
    list: &SecurityList,
    participants: &P,
    accounts: &A,
    book: &[Order],
) -> i64
    ensures value { result ≡ day.now.figures.balance }
    ensures law { Kept (desk day.now.figures (lines_of list.now) (P.Register.meaning participants.now) (A.Register.meaning accounts.now) book.now) }
{
    day.figures().balance
}
