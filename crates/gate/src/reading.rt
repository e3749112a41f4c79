ghost use Rattle.std.specs.Prelude.{◌≡◌};

use super::day::TradingDay;
use super::figures::Figures;
use super::pass::Pass;

impl TradingDay {
    // The day's figures as they stand.
    pub fn figures(&self) -> Figures
        ensures { result ≡ self.now.figures }
    {
        self.figures
    }
}

impl Pass {
    // The number of the order that the pass is for.
    pub fn number(&self) -> u64
        ensures { result ≡ self.now.number }
    {
        self.number
    }
}
