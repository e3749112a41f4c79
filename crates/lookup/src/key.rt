ghost use Rattle.std.specs.Prelude.{◌≡◌, Some, Option as Maybe};
ghost use Rattle.std.specs.Ordering.{is_lt};
ghost use Rattle.lookup.specs.Orders.{TotalOrder};
ghost use Rattle.std.proofs.Common.{rules};

// A kind of key, which its order tells apart.
pub trait Key: Ord + Copy {
    // Whether this key is before another one.
    fn precedes(self, other: Self) -> bool
        ensures { result ≡ is_lt (Self.cmp self other) };

    ghost total: { TotalOrder Self.cmp };
}

// A row of a table, which has a key, or none where the row is absent.
pub trait Row {
    type Key: Key;

    ghost named: { Self → Maybe Self.Key };

    ghost presumed: { Self → Self.Key };

    fn key(&self) -> Option<Self::Key>
        ensures { result ≡ named self.now };

    // The key of a row that is known to be present: it does not ask whether the row is.
    fn presumed_key(&self) -> Self::Key
        ensures { result ≡ presumed self.now };

    ghost presumed_right: { (x : Self) (k : Self.Key) → named x ≡ Some k → presumed x ≡ k };
}

// A key of two numbers, ordered by the first and then by the second.
#[derive(Clone, Copy, PartialEq, Eq, PartialOrd, Ord, Debug)]
pub struct Pair {
    pub first: u64,
    pub second: u64,
}

impl Key for u64 {
    fn precedes(self, other: u64) -> bool {
        self < other
    }

    ghost total = { Prim.search rules };
}

impl Key for Pair {
    // Both numbers are compared whatever the first says, so that halving has no branch to guess at each row.
    fn precedes(self, other: Pair) -> bool {
        (self.first < other.first) | ((self.first == other.first) & (self.second < other.second))
    }

    ghost total = { Prim.search rules };
}
