ghost use Rattle.std.specs.Prelude.{◌≡◌, ◌≤◌, true, false, IfOk};
ghost use Rattle.rules.specs.Rules.{first_broken, refusal_in};
ghost use Rattle.orders.specs.Faults.{fill_faults, misfit};
ghost use Rattle.orders.specs.Outcomes.{filled_by, raise, traded};
ghost use Rattle.orders.specs.Records.{most_worth, sound_order};

use super::order::{Order, Outcome, State};
use rules::range::Quantity;
use rules::refusal::Refusal;
use rules::side::Side;

impl Order {
    // Whether a fill does not fit the order.
    fn misfits(self, shares: u64, price: u64) -> bool
        ensures { result ≡ misfit self shares price }
    {
        if shares == 0 || shares > self.remainder() || !Quantity::Price.has(price) {
            return true;
        }
        let limit = u64::from(self.price);
        match self.side {
            Side::Buy => price > limit,
            Side::Sell => price < limit,
        }
    }

    // The record after a fill that fits.
    fn filled(self, shares: u64, price: u64) -> Order
        requires sound { sound_order self ≡ true }
        requires fits { misfit self shares price ≡ false }
        ensures { result ≡ filled_by self shares price }
    {
        let last = self.remainder() == shares;
        Order {
            filled: self.filled + shares as u32,
            traded: self.traded + price * shares,
            state: if last { State::Done } else { self.state },
            ..self
        }
    }

    // What a fill that fits gives back to the balance.
    fn raise(self, shares: u64, price: u64) -> u64
        requires sound { sound_order self ≡ true }
        requires fits { misfit self shares price ≡ false }
        ensures value { result ≡ raise self shares price }
        ensures small { result ≤ most_worth }
    {
        match self.side {
            Side::Buy => (u64::from(self.price) - price) * shares,
            Side::Sell => price * shares,
        }
    }

    // Trades shares of a live order at a price.
    pub fn fill(self, shares: u64, price: u64) -> Result<Outcome, Refusal>
        ensures answer { refusal_in result ≡ first_broken (fill_faults self shares price) }
        ensures after { IfOk result (λ x. x ≡ traded self shares price) }
        ensures small { IfOk result (λ x. x.raise ≤ most_worth) }
    {
        if !self.is_sound() {
            return Err(Refusal::Unsound);
        }
        if !self.state.is_live() {
            return Err(Refusal::State);
        }
        if self.misfits(shares, price) {
            return Err(Refusal::Fill);
        }
        Ok(Outcome {
            order: self.filled(shares, price),
            raise: self.raise(shares, price),
        })
    }
}
