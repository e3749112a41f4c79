ghost use Rattle.std.specs.Prelude.{◌≡◌};
ghost use Rattle.rules.specs.Sides.{side_rules};

use super::range::Range;

#[derive(Clone, Copy, PartialEq, Eq, Debug)]
pub enum Side {
    Buy,
    Sell,
}

impl Side {
    // How many shares an order of this side may be of.
    pub fn lot(self) -> Range
        ensures { result ≡ (side_rules self).lot }
    {
        match self {
            Side::Buy => Range {
                least: 100,
                most: 1_000_000,
                unit: 100,
            },
            Side::Sell => Range {
                least: 1,
                most: 1_000_000,
                unit: 1,
            },
        }
    }
}
