ghost use Rattle.std.specs.Prelude.{◌≡◌, false};
ghost use Rattle.orders.specs.Records.{is_live, no_order, sound_order};

use rules::side::Side;

// Whether a live order's cancel was asked for.
#[derive(Clone, Copy, PartialEq, Eq, Debug)]
pub enum Cancel {
    Unasked,
    Asked,
}

// Where an order stands: held at the gate, live at the market, or done.
#[derive(Clone, Copy, PartialEq, Eq, Debug)]
pub enum State {
    Held,
    Live(Cancel),
    Done,
}

impl State {
    // Whether the order is at the market.
    pub(crate) fn is_live(self) -> bool
        ensures { result ≡ is_live self }
    {
        matches!(self, State::Live(_))
    }
}

// The record of an order: what was asked, what became of it, and the pool that a sell draws on, 0 for a buy. It takes 64 bytes, and
// what every call on an order judges stands first.
#[derive(Clone, Copy, PartialEq, Eq, Debug)]
pub struct Order {
    pub price: u32,
    pub shares: u32,
    pub filled: u32,
    pub returned: u32,
    pub traded: u64,
    pub side: Side,
    pub state: State,
    pub participant: u64,
    pub account: u64,
    pub code: u64,
    pub pool: usize,
}

// An empty row of a book, which is no sound record.
impl Default for Order {
    ghost is_default = { λ o. (o ≡ no_order) × (sound_order o ≡ false) };

    fn default() -> Order {
        Order {
            participant: 0,
            account: 0,
            code: 0,
            side: Side::Buy,
            price: 0,
            shares: 0,
            filled: 0,
            returned: 0,
            traded: 0,
            pool: 0,
            state: State::Held,
        }
    }
}

// What a participant asks for: the account is 0 where none is named.
#[derive(Clone, Copy, PartialEq, Eq, Debug)]
pub struct Request {
    pub participant: u64,
    pub account: u64,
    pub code: u64,
    pub side: Side,
    pub price: u64,
    pub shares: u64,
}

// What a call makes of an order: its record after the call, and by how much the balance of the quota rises.
#[derive(Clone, Copy, PartialEq, Eq, Debug)]
pub struct Outcome {
    pub order: Order,
    pub raise: u64,
}
