ghost use Rattle.std.specs.Prelude.{◌≡◌, ◌%◌, ◌&&◌, ◌==◌, nat_lt};
ghost use Rattle.rules.specs.Ranges.{from_to, in_range, range_of};

// The numbers from the least to the most, both included, that are multiples of the unit.
#[derive(Clone, Copy, PartialEq, Eq, Debug)]
pub struct Range {
    pub least: u64,
    pub most: u64,
    pub unit: u64,
}

impl Range {
    // Whether a number is a multiple of the unit. Every number is one of 1, which asks for no division.
    fn measures(self, n: u64) -> bool
        ensures { result ≡ (nat_lt 0 self.unit && n % self.unit == 0) }
    {
        self.unit == 1 || (self.unit != 0 && n % self.unit == 0)
    }

    pub fn has(self, n: u64) -> bool
        ensures { result ≡ in_range self n }
    {
        (self.least..=self.most).contains(&n) && self.measures(n)
    }
}

// Each whole number from one to the other.
fn from_to(least: u64, most: u64) -> Range
    ensures { result ≡ from_to least most }
{
    Range {
        least,
        most,
        unit: 1,
    }
}

// The kinds of number that the rules bound.
#[derive(Clone, Copy, PartialEq, Eq, Debug)]
pub enum Quantity {
    Market,
    Date,
    Quota,
    Code,
    Mode,
    Close,
    Band,
    Participant,
    Account,
    Holding,
    Lines,
    Link,
    Price,
    Shares,
    TotalShares,
    AnyNumber,
}

impl Quantity {
    fn range(self) -> Range
        ensures { result ≡ range_of self }
    {
        match self {
            Quantity::Market => from_to(1, 2),
            Quantity::Date => from_to(1, 99_991_231),
            Quantity::Quota => from_to(1, 1_000_000_000_000_000),
            Quantity::Code => from_to(1, 999_999),
            Quantity::Mode => from_to(1, 3),
            Quantity::Close => from_to(1, 900_000),
            Quantity::Band => Range {
                least: 5,
                most: 10,
                unit: 5,
            },
            Quantity::Participant => from_to(1, 99_999),
            Quantity::Account => from_to(80_000_000, 80_099_999),
            Quantity::Holding => from_to(1, 9_999_999_999),
            Quantity::Lines => from_to(0, 16_384),
            Quantity::Link => from_to(0, 1),
            Quantity::Price => from_to(1, 999_999),
            Quantity::Shares => from_to(1, 1_000_000),
            Quantity::TotalShares => from_to(1, 1_000_000_000_000),
            Quantity::AnyNumber => from_to(0, 9_999_999_999_999_999),
        }
    }

    // Whether a number is in the quantity's range.
    pub fn has(self, n: u64) -> bool
        ensures { result ≡ in_range (range_of self) n }
    {
        self.range().has(n)
    }
}
