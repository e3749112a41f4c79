ghost use Rattle.std.specs.Prelude.{◌≡◌};
ghost use Rattle.std.specs.Option.{ok_or};
ghost use Rattle.rules.specs.Markets.{market_numbered};
ghost use Rattle.rules.specs.declared.refusal.Refusal.TheVariants as refusal;

use super::refusal::Refusal;

#[derive(Clone, Copy, PartialEq, Eq, Debug)]
pub enum Market {
    Shanghai,
    Shenzhen,
}

// The market of a number, if it is one's.
impl TryFrom<u64> for Market {
    type Error = Refusal;

    ghost try_from_gives = { λ n r. r ≡ ok_or (market_numbered n) refusal.Range };

    fn try_from(n: u64) -> Result<Market, Refusal> {
        match n {
            1 => Ok(Market::Shanghai),
            2 => Ok(Market::Shenzhen),
            _ => Err(Refusal::Range),
        }
    }
}
