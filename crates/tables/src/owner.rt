ghost use Rattle.std.specs.Prelude.{◌≡◌, ℕ, ◌<◌, ◌^◌};
ghost use Rattle.std.proofs.Common.{lit≤};
ghost use Rattle.rules.specs.Ranges.{range_of};
ghost use Rattle.rules.specs.declared.range.Quantity.{Quantity as a_quantity};
ghost use Rattle.rules.specs.declared.range.Quantity.TheVariants as quantity;
ghost use Rattle.tables.specs.Owners.{participant, account};

use rules::range::Quantity;

// Whose shares a holding is of.
pub trait Owner: Copy {
    ghost NUMBERS: { a_quantity };

    ghost number: { Self → ℕ };

    ghost of: { ℕ → Self };

    // A number of 32 bits is enough.
    ghost short: { (range_of NUMBERS).most < 2 ^ 32 };

    // What the owners' numbers are.
    const NUMBERS: Quantity;

    fn number(self) -> u64
        ensures { result ≡ number self };

    // The owner of a number.
    fn of(n: u32) -> Self
        ensures { result ≡ of n };
}

// A participant, by its number.
#[derive(Clone, Copy, PartialEq, Eq, Debug)]
pub struct Participant(pub u32);

// An investor's account, by its number.
#[derive(Clone, Copy, PartialEq, Eq, Debug)]
pub struct Account(pub u32);

impl Owner for Participant {
    ghost NUMBERS = { quantity.Participant };

    ghost number = { λ p. p.0 };

    ghost of = { participant };

    ghost short = { lit≤ tt };

    const NUMBERS: Quantity = Quantity::Participant;

    fn number(self) -> u64 {
        let Participant(number) = self;
        u64::from(number)
    }

    fn of(n: u32) -> Participant {
        Participant(n)
    }
}

impl Owner for Account {
    ghost NUMBERS = { quantity.Account };

    ghost number = { λ a. a.0 };

    ghost of = { account };

    ghost short = { lit≤ tt };

    const NUMBERS: Quantity = Quantity::Account;

    fn number(self) -> u64 {
        let Account(number) = self;
        u64::from(number)
    }

    fn of(n: u32) -> Account {
        Account(n)
    }
}
