ghost use Rattle.std.specs.Prelude.{◌≡◌};
ghost use Rattle.history.specs.Examples.{Examples};

use rules::price::PriceBand;

// The price limits of a day after a close at 10.05 yuan, with the examples of which they are the first.
pub fn examples_stand() -> (u128, u128)
    ensures limits { (result.0 ≡ 905) × (result.1 ≡ 1106) }
    ensures examples { Examples }
{
    let close = 1005;
    (PriceBand::Ten.lowest(close), PriceBand::Ten.highest(close))
}
