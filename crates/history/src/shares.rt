ghost use Rattle.std.specs.Prelude.{◌≡◌, true};
ghost use Rattle.history.specs.Shares.{BuysKeepShares};

// Whether every call about a buy leaves the registers as they were: it does.
pub fn buys_keep_shares() -> bool
    ensures answer { result ≡ true }
    ensures shares { BuysKeepShares }
{
    true
}
