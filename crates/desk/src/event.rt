ghost use Rattle.std.specs.Prelude.{◌≡◌};
ghost use Rattle.std.specs.Option.{ok_or};
ghost use Rattle.rules.specs.declared.refusal.Refusal.TheVariants as refusal;
ghost use Rattle.desk.specs.Effects.{closed_by};
ghost use Rattle.desk.specs.Events.{event_letter, link_numbered};

use rules::letter::Letter;
use rules::refusal::Refusal;
use rules::side::Side;

// Whether the link to the market is up.
#[derive(Clone, Copy, PartialEq, Eq, Debug)]
pub enum Link {
    Down,
    Up,
}

// The state of the link that a number names.
impl TryFrom<u64> for Link {
    type Error = Refusal;

    ghost try_from_gives = { λ n r. r ≡ ok_or (link_numbered n) refusal.Range };

    fn try_from(n: u64) -> Result<Link, Refusal> {
        match n {
            0 => Ok(Link::Down),
            1 => Ok(Link::Up),
            _ => Err(Refusal::Range),
        }
    }
}

// An event of the trading day, with its numbers.
#[derive(Clone, Copy)]
pub enum Event {
    Step,
    Notice {
        code: u64,
        foreign: u64,
        total: u64,
    },
    Link {
        state: Link,
    },
    Request {
        side: Side,
        participant: u64,
        account: u64,
        code: u64,
        price: u64,
        shares: u64,
    },
    Trade {
        order: u64,
        shares: u64,
        price: u64,
    },
    Return {
        order: u64,
    },
    Confirm {
        order: u64,
    },
    Decline {
        order: u64,
    },
    Cancel {
        order: u64,
        participant: u64,
    },
    Close,
}

impl Event {
    // The letter of the event's line.
    pub(crate) fn letter(self) -> Letter
        ensures { result ≡ event_letter self }
    {
        match self {
            Event::Step => Letter::Step,
            Event::Notice { .. } => Letter::Notice,
            Event::Link { .. } => Letter::Link,
            Event::Request { side, .. } => match side {
                Side::Buy => Letter::Buy,
                Side::Sell => Letter::Sell,
            },
            Event::Trade { .. } => Letter::Trade,
            Event::Return { .. } => Letter::Return,
            Event::Confirm { .. } => Letter::Confirm,
            Event::Decline { .. } => Letter::Decline,
            Event::Cancel { .. } => Letter::Cancel,
            Event::Close => Letter::Close,
        }
    }

    // Whether the event, answered so, has closed the day.
    pub(crate) fn has_closed(self, answer: Result<u64, Refusal>) -> bool
        ensures { result ≡ closed_by self answer }
    {
        matches!(self, Event::Close) && answer.is_ok()
    }
}
