ghost use Rattle.std.specs.Prelude.{◌≡◌};
ghost use Rattle.std.specs.Option.{ok_or};
ghost use Rattle.rules.specs.Buyings.{buying_rules, buying_numbered, after_notice};
ghost use Rattle.rules.specs.declared.refusal.Refusal.TheVariants as refusal;

use super::notice::NoticeBand;
use super::refusal::Refusal;

// Whether a security may be bought.
#[derive(Clone, Copy, PartialEq, Eq, Debug)]
pub enum Buying {
    Open,
    SellOnly,
    Suspended,
}

// The buying state of a number, if it is one's.
impl TryFrom<u64> for Buying {
    type Error = Refusal;

    ghost try_from_gives = { λ n r. r ≡ ok_or (buying_numbered n) refusal.Range };

    fn try_from(n: u64) -> Result<Buying, Refusal> {
        match n {
            1 => Ok(Buying::Open),
            2 => Ok(Buying::SellOnly),
            3 => Ok(Buying::Suspended),
            _ => Err(Refusal::Range),
        }
    }
}

impl Buying {
    // The refusal that a buy gets: none where the security may be bought.
    pub fn refusal(self) -> Option<Refusal>
        ensures { result ≡ (buying_rules self).refusal }
    {
        match self {
            Buying::Open => None,
            Buying::SellOnly => Some(Refusal::SellOnly),
            Buying::Suspended => Some(Refusal::Suspended),
        }
    }

    // The buying state that a notice of the band leaves.
    pub fn noticed(self, band: NoticeBand) -> Buying
        ensures { result ≡ after_notice self band }
    {
        match (self, band) {
            (Buying::SellOnly, _) => Buying::SellOnly,
            (_, NoticeBand::Suspending) => Buying::Suspended,
            (_, NoticeBand::Between) => self,
            (_, NoticeBand::Reopening) => Buying::Open,
        }
    }
}
