ghost use Rattle.std.specs.Prelude.{◌≡◌};
ghost use Rattle.std.specs.Option.{ok_or};
ghost use Rattle.rules.specs.Prices.{band_percent, band_of_percent, hundredths, lowest_price, highest_price};
ghost use Rattle.rules.specs.declared.refusal.Refusal.TheVariants as refusal;

use super::refusal::Refusal;

// How far a day's prices may leave the previous close, in percent.
#[derive(Clone, Copy, PartialEq, Eq, Debug)]
pub enum PriceBand {
    Five = 5,
    Ten = 10,
}

// The band of a percentage, if it is one's.
impl TryFrom<u64> for PriceBand {
    type Error = Refusal;

    ghost try_from_gives = { λ n r. r ≡ ok_or (band_of_percent n) refusal.Range };

    fn try_from(n: u64) -> Result<PriceBand, Refusal> {
        match n {
            5 => Ok(PriceBand::Five),
            10 => Ok(PriceBand::Ten),
            _ => Err(Refusal::Range),
        }
    }
}

// So many hundredths of a close, to the nearest fen, a half up.
fn hundredths(close: u64, percent: u64) -> u128
    ensures { result ≡ hundredths close percent }
{
    // A division of 64 bits where that is enough, as it is for every close in range: one of 128 bits takes much longer.
    match close.checked_mul(percent).and_then(|n| n.checked_add(50)) {
        Some(n) => u128::from(n / 100),
        None => (u128::from(close) * u128::from(percent) + 50) / 100,
    }
}

impl PriceBand {
    fn percent(self) -> u64
        ensures { result ≡ band_percent self }
    {
        self as u64
    }

    // The lowest price of the day, in fen.
    pub fn lowest(self, close: u64) -> u128
        ensures { result ≡ lowest_price close self }
    {
        hundredths(close, 100 - self.percent())
    }

    // The highest price of the day, in fen.
    pub fn highest(self, close: u64) -> u128
        ensures { result ≡ highest_price close self }
    {
        hundredths(close, 100 + self.percent())
    }
}
