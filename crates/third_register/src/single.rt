ghost use Rattle.std.specs.Prelude.{◌≡◌, ◌≤◌, true, ◌≢◌, MatchResult};
ghost use Rattle.rules.specs.declared.range.Quantity.TheVariants as quantity;
ghost use Rattle.rules.specs.declared.refusal.Refusal.TheVariants as refusal;
ghost use Rattle.rules.specs.Ranges.{in_range, range_of};
ghost use Rattle.registers.specs.Meaning.{most_shares};
ghost use Rattle.third_register.specs.Single.{single_meaning, single_sound};

use registers::Register;
use rules::range::Quantity;
use rules::refusal::Refusal;

// The shares of one security that one participant may sell, its own or those of one account: a register without a
// table. Its only pool has the number of the security.
#[derive(Drop)]
pub struct Single {
    participant: u64,
    account: u64,
    code: u64,
    opening: u64,
    sellable: u64,
    ghost below: { sellable ≤ opening },
    ghost capped: { opening ≤ most_shares },
}

impl Single {
    // So many shares, all of which may still be sold.
    pub fn new(participant: u64, account: u64, code: u64, shares: u64) -> Result<Single, Refusal>
        ensures { MatchResult result (λ s. (in_range (range_of quantity.Holding) shares ≡ true) × (s.participant ≡ participant) × (s.account ≡ account) × (s.code ≡ code) × (s.opening ≡ shares) × (s.sellable ≡ shares)) (λ e. (in_range (range_of quantity.Holding) shares ≢ true) × (e ≡ refusal.Range)) }
    {
        if !Quantity::Holding.has(shares) {
            return Err(Refusal::Range);
        }
        Ok(Single {
            participant,
            account,
            code,
            opening: shares,
            sellable: shares,
        })
    }
}

impl Register for Single {
    ghost meaning = { λ s. single_meaning s.participant s.account s.code s.opening s.sellable };

    ghost sound = { λ s. single_sound s.participant s.account s.code s.opening s.sellable s.below s.capped };

    fn find(&self, participant: u64, account: u64, code: u64) -> Result<usize, Refusal> {
        if account != self.account {
            return Err(Refusal::Account);
        }
        if participant != self.participant || code != self.code {
            return Err(Refusal::NoPosition);
        }
        Ok(self.code as usize)
    }

    fn opening(&self, pool: usize) -> Option<u64> {
        (pool as u64 == self.code).then_some(self.opening)
    }

    fn sellable(&self, pool: usize) -> Option<u64> {
        (pool as u64 == self.code).then_some(self.sellable)
    }

    fn draw(&mut self, pool: usize, shares: u64) -> Result<(), Refusal> {
        if pool as u64 != self.code || shares > self.sellable {
            return Err(Refusal::ShortBalance);
        }
        self.sellable -= shares;
        Ok(())
    }

    fn restore(&mut self, pool: usize, shares: u64) -> Result<(), Refusal> {
        if pool as u64 != self.code || shares > self.opening - self.sellable {
            return Err(Refusal::Unsound);
        }
        self.sellable += shares;
        Ok(())
    }
}
