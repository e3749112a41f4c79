use dayfile::lent::Tables;
use registers::accounts::{AccountRegister, Designated};
use registers::participants::{Own, ParticipantRegister};
use rules::buying::Buying;
use rules::price::PriceBand;
use tables::owner::{Account, Participant};
use tables::rows::{AccountHolding, Designation, ParticipantHolding, Security};
use tables::table::{SecurityList, Table};

// Rows to lend to a day's tables: so many of securities, of participants' holdings, of accounts', and of designations.
#[derive(Clone, Copy, PartialEq, Eq, Debug)]
pub(super) struct Rows<const S: usize, const P: usize, const A: usize, const G: usize> {
    pub(super) securities: [Security; S],
    pub(super) holdings: [ParticipantHolding; P],
    pub(super) account_holdings: [AccountHolding; A],
    pub(super) designations: [Designation; G],
}

// The tables of some rows: the list has so many lines, and each of the others, or as many as it has rows.
pub(super) fn tables<const S: usize, const P: usize, const A: usize, const G: usize>(
    rows: &mut Rows<S, P, A, G>,
    listed: usize,
    others: usize,
) -> Tables<'_> {
    let Rows {
        securities,
        holdings,
        account_holdings,
        designations,
    } = rows;
    Tables {
        securities: Table::over(securities, listed),
        holdings: Table::over(holdings, others),
        account_holdings: Table::over(account_holdings, others),
        designations: Table::over(designations, others),
    }
}

// The security list and the two registers of some tables.
pub(super) fn lent<'x, 'a>(
    tables: &'x mut Tables<'a>,
) -> (
    &'x mut SecurityList<'a>,
    ParticipantRegister<'x, 'a>,
    AccountRegister<'x, 'a, 'x, 'a>,
) {
    let participants = ParticipantRegister {
        holdings: &mut tables.holdings,
        rule: Own,
    };
    let accounts = AccountRegister {
        holdings: &mut tables.account_holdings,
        rule: Designated {
            designations: &tables.designations,
        },
    };
    (&mut tables.securities, participants, accounts)
}

// A security that closed at 10 yuan, and may leave that by ten percent.
pub(super) fn security(code: u32, buying: Buying) -> Security {
    Security {
        code,
        buying,
        close: 1000,
        band: PriceBand::Ten,
    }
}

// What participant 101 holds at the opening.
fn own_shares(code: u32, shares: u64) -> ParticipantHolding {
    ParticipantHolding {
        owner: Participant(101),
        code,
        opening: shares,
        sellable: shares,
    }
}

// Three securities, of which 600001 may only be sold and buying of 600002 is suspended. Of 600000 participant 101 holds
// so many shares, and account 80000001, which has named participant 102, holds 300.
pub(super) fn day_rows(own: u64) -> Rows<3, 3, 1, 1> {
    Rows {
        securities: [
            security(600_000, Buying::Open),
            security(600_001, Buying::SellOnly),
            security(600_002, Buying::Suspended),
        ],
        holdings: [
            own_shares(600_000, own),
            own_shares(600_001, 200),
            own_shares(600_002, 100),
        ],
        account_holdings: [AccountHolding {
            owner: Account(80_000_001),
            code: 600_000,
            opening: 300,
            sellable: 300,
        }],
        designations: [Designation {
            account: 80_000_001,
            participant: 102,
        }],
    }
}
