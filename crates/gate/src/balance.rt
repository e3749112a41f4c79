ghost use Rattle.std.specs.Prelude.{◌≡◌, ◌≤◌, true, false, pos, ◌-ℤ◌, IfOk, int_le, unsigned_abs};
ghost use Rattle.rules.specs.declared.refusal.Refusal.TheVariants as refusal;
ghost use Rattle.rules.specs.Rules.{refusal_in, when};
ghost use Rattle.gate.specs.Balances.{most_balance, raised_by, settled, shut_in_time, too_high};

use super::figures::Figures;
use rules::refusal::Refusal;

// The balance stays within so much of 0, either way.
const MOST_BALANCE: i64 = 1_000_000_000_000_000_000;

// After each accepted call a low balance shuts buying.
pub(super) fn settle(f: Figures) -> Figures
    ensures value { result ≡ settled f }
    ensures timely { shut_in_time result ≡ true }
{
    let low = f.phase.shuts() && f.balance <= 0;
    Figures {
        shut: f.shut || low,
        ..f
    }
}

// A balance above 0, less so much.
pub(super) fn lowered(balance: i64, by: u64) -> i64
    requires bounded { unsigned_abs balance ≤ most_balance }
    requires above { int_le balance (pos 0) ≡ false }
    requires small { by ≤ most_balance }
    ensures value { result ≡ balance -ℤ pos by }
    ensures bounded { unsigned_abs result ≤ most_balance }
{
    balance - by as i64
}

// The figures after an accepted call that raises the balance; it is refused where the balance would leave its bounds.
pub(super) fn raised(f: Figures, by: u64) -> Result<Figures, Refusal>
    requires bounded { unsigned_abs f.balance ≤ most_balance }
    requires small { by ≤ most_balance }
    ensures answer { refusal_in result ≡ when (too_high f by) refusal.Unsound }
    ensures value { IfOk result (λ g. g ≡ raised_by f by) }
    ensures timely { IfOk result (λ g. shut_in_time g ≡ true) }
    ensures bounded { IfOk result (λ g. unsigned_abs g.balance ≤ most_balance) }
{
    let balance = f.balance + by as i64;
    if balance > MOST_BALANCE {
        return Err(Refusal::Unsound);
    }
    Ok(settle(Figures { balance, ..f }))
}
