ghost use Rattle.std.specs.Prelude.{◌≡◌, ◌&&◌, None, nat_le};
ghost use Rattle.rules.specs.Ranges.{in_range, range_of};
ghost use Rattle.std.proofs.lemmas.Option.{cond_some};
ghost use Rattle.tables.specs.Rows.{pair, security_present, security_key, held_present, held_key, designation_present, designation_key, no_security, no_holding, no_designation};

use super::owner::{Account, Owner, Participant};
use lookup::key::{Pair, Row};
use rules::buying::Buying;
use rules::price::PriceBand;
use rules::range::Quantity;

// A security that is traded: whether it may be bought, and what its prices are held to. The short fields stand last, so that
// a row takes 24 bytes.
#[derive(Clone, Copy, PartialEq, Eq, Debug)]
pub struct Security {
    pub code: u32,
    pub close: u32,
    pub buying: Buying,
    pub band: PriceBand,
}

// What an owner holds of a security.
#[derive(Clone, Copy, PartialEq, Eq, Debug)]
pub struct Holding<O> {
    pub owner: O,
    pub code: u32,
    pub opening: u64,
    pub sellable: u64,
}

// What an investor's account holds of a security.
pub type AccountHolding = Holding<Account>;

// What a participant holds of a security.
pub type ParticipantHolding = Holding<Participant>;

// An account has designated a participant.
#[derive(Clone, Copy, PartialEq, Eq, Debug)]
pub struct Designation {
    pub account: u32,
    pub participant: u32,
}

impl Security {
    // Whether the row is a line: its numbers are in range.
    pub(crate) fn is_present(&self) -> bool
        ensures { result ≡ security_present self.now }
    {
        Quantity::Code.has(u64::from(self.code)) && Quantity::Close.has(u64::from(self.close))
    }
}

impl<O: Owner> Holding<O> {
    // Whether the row is a line: its numbers are in range, and no more may be sold than there was at the opening.
    pub fn is_present(&self) -> bool
        ensures { result ≡ held_present O.NUMBERS O.number self.now }
    {
        O::NUMBERS.has(self.owner.number())
            && Quantity::Code.has(u64::from(self.code))
            && Quantity::Holding.has(self.opening)
            && self.sellable <= self.opening
    }
}

impl Designation {
    // Whether the row is a line: its numbers are in range.
    pub(crate) fn is_present(&self) -> bool
        ensures { result ≡ designation_present self.now }
    {
        Quantity::Account.has(u64::from(self.account))
            && Quantity::Participant.has(u64::from(self.participant))
    }
}

// An empty row of the security list, which is absent.
impl Default for Security {
    ghost is_default = { λ s. (s ≡ no_security) × (security_key s ≡ None) };

    fn default() -> Security {
        Security {
            code: 0,
            buying: Buying::Open,
            close: 0,
            band: PriceBand::Five,
        }
    }
}

// An empty row of holdings, which is absent.
impl<O: Owner> Default for Holding<O> {
    ghost is_default = { λ h. (h ≡ no_holding O.of) × (held_key O.NUMBERS O.number h ≡ None) };

    fn default() -> Holding<O> {
        Holding {
            owner: O::of(0),
            code: 0,
            opening: 0,
            sellable: 0,
        }
    }
}

// An empty row of designations, which is absent.
impl Default for Designation {
    ghost is_default = { λ d. (d ≡ no_designation) × (designation_key d ≡ None) };

    fn default() -> Designation {
        Designation {
            account: 0,
            participant: 0,
        }
    }
}

impl Row for Security {
    type Key = u64;

    ghost named = { security_key };

    ghost presumed = { λ s. s.code };

    fn key(&self) -> Option<u64> {
        self.is_present().then_some(self.presumed_key())
    }

    fn presumed_key(&self) -> u64 {
        u64::from(self.code)
    }

    ghost presumed_right = { λ s k e. (cond_some (security_present s) s.code k e).1 };
}

impl<O: Owner> Row for Holding<O> {
    type Key = Pair;

    ghost named = { held_key O.NUMBERS O.number };

    ghost presumed = { λ h. pair (O.number h.owner) h.code };

    fn key(&self) -> Option<Pair> {
        self.is_present().then_some(self.presumed_key())
    }

    fn presumed_key(&self) -> Pair {
        Pair {
            first: self.owner.number(),
            second: u64::from(self.code),
        }
    }

    ghost presumed_right = { λ h k e. (cond_some (held_present O.NUMBERS O.number h) (pair (O.number h.owner) h.code) k e).1 };
}

impl Row for Designation {
    type Key = Pair;

    ghost named = { designation_key };

    ghost presumed = { λ d. pair d.account d.participant };

    fn key(&self) -> Option<Pair> {
        self.is_present().then_some(self.presumed_key())
    }

    fn presumed_key(&self) -> Pair {
        Pair {
            first: u64::from(self.account),
            second: u64::from(self.participant),
        }
    }

    ghost presumed_right = { λ d k e. (cond_some (designation_present d) (pair d.account d.participant) k e).1 };
}
