ghost use Rattle.std.specs.Prelude.{◌≡◌};
ghost use Rattle.rules.specs.Refusals.{refusal_number};

// Why business is turned away, or a file: one case for each rule, named by the trade's word.
#[derive(Clone, Copy, PartialEq, Eq, Debug)]
pub enum Refusal {
    Hours = 1,
    Full = 2,
    Code = 3,
    Price = 4,
    Lot = 5,
    Account = 6,
    Undesignated = 7,
    NoPosition = 8,
    ShortBalance = 9,
    SellOnly = 10,
    Suspended = 11,
    Quota = 12,
    Order = 13,
    State = 14,
    Fill = 15,
    Phase = 16,
    NoCancel = 17,
    Foreign = 18,
    Unsound = 19,
    Pass = 20,
    Business = 21,
    Link = 22,
    Letter = 23,
    Length = 24,
    Digits = 25,
    Range = 26,
    Sequence = 27,
    Room = 28,
    Count = 29,
    Designations = 30,
}

impl Refusal {
    // The number by which a refusal is shown.
    pub fn number(self) -> u64
        ensures { result ≡ refusal_number self }
    {
        self as u64
    }
}
