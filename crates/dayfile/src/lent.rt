ghost use Rattle.std.specs.Prelude.{◌≡◌};

use super::plan::Counts;
use tables::table::{AccountHoldings, Designations, Holdings, SecurityList};

// The four lent tables of a day.
#[derive(Drop)]
pub struct Tables<'a> {
    pub securities: SecurityList<'a>,
    pub holdings: Holdings<'a>,
    pub account_holdings: AccountHoldings<'a>,
    pub designations: Designations<'a>,
}

impl Tables<'_> {
    ghost use Rattle.dayfile.specs.Loads.{room_of};

    // How many rows each table has room for.
    pub fn room(&self) -> Counts
        ensures { result ≡ room_of self.now }
    {
        Counts {
            securities: self.securities.room(),
            holdings: self.holdings.room(),
            account_holdings: self.account_holdings.room(),
            designations: self.designations.room(),
        }
    }
}
