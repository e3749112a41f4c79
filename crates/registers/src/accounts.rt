ghost use Rattle.std.specs.Prelude.{◌≡◌, cond, map};
ghost use Rattle.tables.specs.Rows.{account_holding_key};
ghost use Rattle.tables.specs.Tables.{lines_of};
ghost use Rattle.registers.specs.Registers.{designated_finds, known_account};

use super::held::{Finding, HeldRegister};
use lookup::key::Pair;
use rules::refusal::Refusal;
use tables::owner::Account;
use tables::table::{AccountHoldings, Designations};

// A participant sells an account's shares, if the account has designated it.
#[derive(Clone, Copy)]
pub struct Designated<'n, 'd> {
    pub designations: &'n Designations<'d>,
}

// The shares of investors' accounts, which a designated participant may sell.
pub type AccountRegister<'x, 'a, 'n, 'd> = HeldRegister<'x, 'a, Account, Designated<'n, 'd>>;

impl Designated<'_, '_> {
    // Why an account that has not designated the participant is refused: it has lines, or none at all.
    fn refusal(&self, holdings: &AccountHoldings, account: u64) -> Refusal
        ensures { result ≡ cond (known_account (map account_holding_key (lines_of holdings.now)) (lines_of self.now.designations.now) account) Refusal.Undesignated Refusal.Account }
    {
        if holdings.has(account) || self.designations.has(account) {
            Refusal::Undesignated
        } else {
            Refusal::Account
        }
    }
}

impl Finding<Account> for Designated<'_, '_> {
    ghost finds = { λ s. designated_finds (lines_of s.designations.now) };

    fn find(
        self,
        holdings: &AccountHoldings,
        participant: u64,
        account: u64,
        code: u64,
    ) -> Result<usize, Refusal> {
        let named = Pair {
            first: account,
            second: participant,
        };
        let key = Pair {
            first: account,
            second: code,
        };
        let (designation, holding) = self.designations.places(&named, holdings, &key);
        // A designation is itself a line of the account: only where it is not there is the account looked for.
        if designation.is_none() {
            return Err(self.refusal(holdings, account));
        }
        holding.ok_or(Refusal::NoPosition)
    }
}
