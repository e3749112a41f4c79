ghost use Rattle.std.specs.Prelude.{◌≡◌, ◌≤◌, true, IfOk};
ghost use Rattle.rules.specs.Rules.{first_broken, refusal_in};
ghost use Rattle.orders.specs.Faults.{cancel_asked_faults, pass_faults, return_faults};
ghost use Rattle.orders.specs.Outcomes.{ended, freed};
ghost use Rattle.orders.specs.Records.{most_worth, sound_order};

use super::order::{Cancel, Order, Outcome, State};
use rules::refusal::Refusal;
use rules::side::Side;

impl Order {
    // What the end of the remainder gives back to the balance.
    fn freed(self) -> u64
        requires { sound_order self ≡ true }
        ensures value { result ≡ freed self }
        ensures small { result ≤ most_worth }
    {
        match self.side {
            Side::Buy => u64::from(self.price) * self.remainder(),
            Side::Sell => 0,
        }
    }

    // Ends the remainder of a sound record.
    fn ended(self) -> Outcome
        requires { sound_order self ≡ true }
        ensures is { result ≡ ended self }
        ensures small { result.raise ≤ most_worth }
    {
        let raise = self.freed();
        Outcome {
            order: Order {
                returned: self.returned + self.remainder() as u32,
                state: State::Done,
                ..self
            },
            raise,
        }
    }

    // The market returns a live order's remainder.
    pub fn give_back(self) -> Result<Outcome, Refusal>
        ensures answer { refusal_in result ≡ first_broken (return_faults self) }
        ensures after { IfOk result (λ x. x ≡ ended self) }
        ensures small { IfOk result (λ x. x.raise ≤ most_worth) }
    {
        if !self.is_sound() {
            return Err(Refusal::Unsound);
        }
        if !self.state.is_live() {
            return Err(Refusal::State);
        }
        Ok(self.ended())
    }

    // The market confirms the cancel that was asked for.
    pub fn confirm(self) -> Result<Outcome, Refusal>
        ensures answer { refusal_in result ≡ first_broken (cancel_asked_faults self) }
        ensures after { IfOk result (λ x. x ≡ ended self) }
        ensures small { IfOk result (λ x. x.raise ≤ most_worth) }
    {
        if !self.is_sound() {
            return Err(Refusal::Unsound);
        }
        if self.state != State::Live(Cancel::Asked) {
            return Err(Refusal::State);
        }
        Ok(self.ended())
    }

    // A held order does not go to the market.
    pub fn void(self) -> Result<Outcome, Refusal>
        ensures answer { refusal_in result ≡ first_broken (pass_faults self) }
        ensures after { IfOk result (λ x. x ≡ ended self) }
        ensures small { IfOk result (λ x. x.raise ≤ most_worth) }
    {
        if self.state != State::Held {
            return Err(Refusal::Pass);
        }
        if !self.is_sound() {
            return Err(Refusal::Unsound);
        }
        Ok(self.ended())
    }
}
