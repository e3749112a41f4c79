ghost use Rattle.std.specs.Prelude.{◌≡◌};
ghost use Rattle.registers.specs.Meaning.{left_of, again_of};

use rules::refusal::Refusal;

// Shares of one owner and code: how many there were at the opening, and how many may still be sold.
#[derive(Clone, Copy, PartialEq, Eq, Debug)]
pub struct Pool {
    pub opening: u64,
    pub sellable: u64,
}

impl Pool {
    // How many shares may be sold once some are drawn.
    pub(crate) fn left_after(self, shares: u64) -> Result<u64, Refusal>
        ensures { result ≡ left_of self shares }
    {
        self.sellable
            .checked_sub(shares)
            .ok_or(Refusal::ShortBalance)
    }

    // How many shares may be sold once some are given back.
    pub(crate) fn again_after(self, shares: u64) -> Result<u64, Refusal>
        ensures { result ≡ again_of self shares }
    {
        match self.sellable.checked_add(shares) {
            Some(again) if again <= self.opening => Ok(again),
            _ => Err(Refusal::Unsound),
        }
    }
}
