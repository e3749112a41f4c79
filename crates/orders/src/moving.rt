ghost use Rattle.std.specs.Prelude.{◌≡◌, cond, IfOk, None, Some};
ghost use Rattle.rules.specs.Rules.{first_broken, refusal_in};
ghost use Rattle.orders.specs.declared.order.Cancel.TheVariants as cancel;
ghost use Rattle.orders.specs.declared.order.State.TheVariants as state;
ghost use Rattle.orders.specs.Faults.{cancel_asked_faults, cancel_faults, pass_faults};
ghost use Rattle.orders.specs.Records.{fits_record, held_order, with_state};

use super::order::{Cancel, Order, Request, State};
use rules::refusal::Refusal;

impl Request {
    // The record of a request that is accepted, with the pool that it draws on; none where a record has no room for its numbers.
    pub fn held(self, pool: usize) -> Option<Order>
        ensures { result ≡ cond (fits_record self) (Some (held_order self pool)) None }
    {
        Some(Order {
            participant: self.participant,
            account: self.account,
            code: self.code,
            side: self.side,
            price: u32::try_from(self.price).ok()?,
            shares: u32::try_from(self.shares).ok()?,
            filled: 0,
            returned: 0,
            traded: 0,
            pool,
            state: State::Held,
        })
    }
}

impl Order {
    // A held order goes to the market.
    pub fn send(self) -> Result<Order, Refusal>
        ensures answer { refusal_in result ≡ first_broken (pass_faults self) }
        ensures after { IfOk result (λ x. x ≡ with_state self (state.Live cancel.Unasked)) }
    {
        if self.state != State::Held {
            return Err(Refusal::Pass);
        }
        if !self.is_sound() {
            return Err(Refusal::Unsound);
        }
        Ok(Order {
            state: State::Live(Cancel::Unasked),
            ..self
        })
    }

    // Its participant asks for a live order's cancel.
    pub fn ask_cancel(self, participant: u64) -> Result<Order, Refusal>
        ensures answer { refusal_in result ≡ first_broken (cancel_faults self participant) }
        ensures after { IfOk result (λ x. x ≡ with_state self (state.Live cancel.Asked)) }
    {
        if self.participant != participant {
            return Err(Refusal::Order);
        }
        if !self.is_sound() {
            return Err(Refusal::Unsound);
        }
        if self.state != State::Live(Cancel::Unasked) {
            return Err(Refusal::State);
        }
        Ok(Order {
            state: State::Live(Cancel::Asked),
            ..self
        })
    }

    // The market declines the cancel that was asked for.
    pub fn decline(self) -> Result<Order, Refusal>
        ensures answer { refusal_in result ≡ first_broken (cancel_asked_faults self) }
        ensures after { IfOk result (λ x. x ≡ with_state self (state.Live cancel.Unasked)) }
    {
        if !self.is_sound() {
            return Err(Refusal::Unsound);
        }
        if self.state != State::Live(Cancel::Asked) {
            return Err(Refusal::State);
        }
        Ok(Order {
            state: State::Live(Cancel::Unasked),
            ..self
        })
    }
}
