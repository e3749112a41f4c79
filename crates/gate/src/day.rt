ghost use Rattle.std.specs.Prelude.{◌≡◌, ◌≤◌, true, unsigned_abs};
ghost use Rattle.gate.specs.Balances.{most_balance, most_orders, shut_in_time};

use super::figures::Figures;

// A day before it opens: its tables are being loaded, and it has no number yet.
pub struct LoadingDay {}

// A day on which orders are taken.
pub struct TradingDay {
    pub(super) figures: Figures,
    ghost bounded: { unsigned_abs figures.balance ≤ most_balance },
    ghost counted: { figures.count ≤ most_orders },
    ghost timely: { shut_in_time figures ≡ true },
}

// A day that has ended with nothing in flight.
pub struct ClosedDay {
    pub(super) figures: Figures,
}
