ghost use Rattle.std.specs.Prelude.{◌≡◌, ◌+◌, nat_le};
ghost use Rattle.orders.specs.Records.{remainder, sound_order};

use super::order::{Order, State};
use rules::range::Quantity;

// The highest price that there is.
pub(crate) const MOST_PRICE: u64 = 999_999;

impl Order {
    // The shares that are neither traded nor returned.
    pub fn remainder(self) -> u64
        ensures { result ≡ remainder self }
    {
        let rest = self.shares.saturating_sub(self.filled);
        u64::from(rest.saturating_sub(self.returned))
    }

    // Whether no more is traded and returned than was asked.
    fn is_within(self) -> bool
        ensures { result ≡ nat_le (self.filled + self.returned) self.shares }
    {
        self.filled <= self.shares && self.returned <= self.shares - self.filled
    }

    // Whether the record can be one that the calls of a day have left.
    pub fn is_sound(self) -> bool
        ensures { result ≡ sound_order self }
    {
        if !Quantity::Price.has(u64::from(self.price))
            || !Quantity::Shares.has(u64::from(self.shares))
        {
            return false;
        }
        if !self.is_within() || self.traded > MOST_PRICE * u64::from(self.filled) {
            return false;
        }
        match self.state {
            State::Done => self.remainder() == 0,
            State::Held | State::Live(_) => self.remainder() > 0,
        }
    }
}
