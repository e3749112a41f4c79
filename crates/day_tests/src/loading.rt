ghost use Rattle.std.specs.Prelude.{◌≡◌, ◌-◌, length, Ok, Err};

use super::rows::{Rows, tables};
use dayfile::lent::Tables;
use dayfile::loaded::Loaded;
use dayfile::loading::load;
use fields::fault::{DayFault, FieldFault, LineFault};
use gate::day::LoadingDay;
use gate::figures::Figures;
use lookup::key::Pair;
use rules::buying::Buying;
use rules::letter::Part;
use rules::market::Market;
use rules::phase::Phase;
use rules::price::PriceBand;
use rules::refusal::Refusal;
use tables::owner::{Account, Participant};
use tables::rows::{AccountHolding, Designation, ParticipantHolding, Security};
use tables::table::Table;

// A day part of seven lines and 382 bytes, and an event.
const GOOD: &[u8] = b"\
D               2        20190218          100000
S          600000               1            1000              10
S          600010               2             905               5
P             101          600000             500
A        80000001          600000             300
G        80000001             102
E               2               1               1               1
H
";

// A day part whose last line counts no G line, though there is one.
const MISCOUNTED: &[u8] = b"\
D               2        20190218          100000
S          600000               1            1000              10
P             101          600000             500
A        80000001          600000             300
G        80000001             102
E               1               1               1               0
";

// What an earlier day has left in the rows.
const OLD_SECURITY: Security = Security {
    code: 7,
    buying: Buying::Suspended,
    close: 77,
    band: PriceBand::Five,
};

const OLD_HOLDING: ParticipantHolding = ParticipantHolding {
    owner: Participant(7),
    code: 7,
    opening: 77,
    sellable: 7,
};

const OLD_ACCOUNT_HOLDING: AccountHolding = AccountHolding {
    owner: Account(80_000_007),
    code: 7,
    opening: 77,
    sellable: 7,
};

const OLD_DESIGNATION: Designation = Designation {
    account: 80_000_007,
    participant: 7,
};

// So many rows of each table, as an earlier day has left them.
fn old_rows<const S: usize, const P: usize, const A: usize, const G: usize>() -> Rows<S, P, A, G> {
    Rows {
        securities: [OLD_SECURITY; S],
        holdings: [OLD_HOLDING; P],
        account_holdings: [OLD_ACCOUNT_HOLDING; A],
        designations: [OLD_DESIGNATION; G],
    }
}

// A loaded day's figures, with the place and the line of its first event in the input, or the fault of a refused one.
fn outcome(
    input: &[u8],
    answer: Result<Loaded, (LoadingDay, DayFault)>,
) -> Result<(Figures, usize, u64), DayFault>
    ensures { elim answer.entry [ Ok loaded ↦ result ≡ Ok (loaded.day.figures, length input.now - length loaded.events.bytes.now, loaded.events.line) | Err back ↦ result ≡ Err back.1 ] }
{
    match answer {
        Ok(loaded) => {
            let Loaded { day, events } = loaded;
            let place = input.len().saturating_sub(events.bytes.len());
            Ok((day.leave(), place, events.line))
        }
        Err(back) => {
            let (LoadingDay {}, fault) = back;
            Err(fault)
        }
    }
}

fn pair(first: u64, second: u64) -> Pair {
    Pair { first, second }
}

// What the good day is loaded as.
fn good() -> Result<(Figures, usize, u64), DayFault> {
    let figures = Figures {
        market: Market::Shenzhen,
        date: 20_190_218,
        quota: 100_000,
        balance: 100_000,
        phase: Phase::OpeningCall,
        shut: false,
        count: 0,
    };
    Ok((figures, 382, 8))
}

// The fault of a day part, as its numbers are printed.
fn refused(
    cause: Refusal,
    column: u64,
    letter: u8,
    line: u64,
) -> Result<(Figures, usize, u64), DayFault> {
    let field = FieldFault { cause, column };
    Err(DayFault {
        line: LineFault {
            field,
            letter,
            line,
        },
        part: Part::Day,
    })
}

// Loads a day into tables.
pub(super) fn loaded(input: &[u8], tables: &mut Tables) -> Result<(Figures, usize, u64), DayFault> {
    outcome(input, load(LoadingDay {}, input, tables))
}

#[test]
fn a_good_day_fills_the_rows_from_the_first_on(rt: HostRuntime) {
    let mut rows = old_rows::<3, 2, 2, 2>();
    let answer = loaded(GOOD, &mut tables(&mut rows, 1, 1));
    assert_eq!(rt; answer, good());
    let first = Security {
        code: 600_000,
        buying: Buying::Open,
        close: 1000,
        band: PriceBand::Ten,
    };
    let second = Security {
        code: 600_010,
        buying: Buying::SellOnly,
        close: 905,
        band: PriceBand::Five,
    };
    assert_eq!(rt; rows.securities, [first, second, OLD_SECURITY]);
    let holding = ParticipantHolding {
        owner: Participant(101),
        code: 600_000,
        opening: 500,
        sellable: 500,
    };
    assert_eq!(rt; rows.holdings, [holding, OLD_HOLDING]);
    let of_account = AccountHolding {
        owner: Account(80_000_001),
        code: 600_000,
        opening: 300,
        sellable: 300,
    };
    assert_eq!(rt; rows.account_holdings, [of_account, OLD_ACCOUNT_HOLDING]);
    let designation = Designation {
        account: 80_000_001,
        participant: 102,
    };
    assert_eq!(rt; rows.designations, [designation, OLD_DESIGNATION]);
}

#[test]
fn a_refused_day_leaves_every_row(rt: HostRuntime) {
    let mut rows = old_rows::<3, 2, 2, 2>();
    let answer = loaded(MISCOUNTED, &mut tables(&mut rows, 1, 1));
    assert_eq!(rt; answer, refused(Refusal::Count, 50, b'E', 6));
    assert_eq!(rt; rows, old_rows::<3, 2, 2, 2>());
}

#[test]
fn a_table_has_room_for_its_rows_and_no_more(rt: HostRuntime) {
    let mut enough = old_rows::<2, 1, 1, 1>();
    let answer = loaded(GOOD, &mut tables(&mut enough, 1, 1));
    assert_eq!(rt; answer, good());
    let mut one_security = old_rows::<1, 1, 1, 1>();
    let answer = loaded(GOOD, &mut tables(&mut one_security, 1, 1));
    assert_eq!(rt; answer, refused(Refusal::Room, 1, b'S', 3));
    let mut no_designation = old_rows::<2, 1, 1, 0>();
    let answer = loaded(GOOD, &mut tables(&mut no_designation, 1, 1));
    assert_eq!(rt; answer, refused(Refusal::Room, 1, b'G', 6));
}

#[test]
fn the_lines_of_a_loaded_table_are_those_of_the_file(rt: HostRuntime) {
    let mut rows = old_rows::<3, 2, 2, 2>();
    let mut tables = tables(&mut rows, 3, 2);
    let answer = loaded(GOOD, &mut tables);
    assert_eq!(rt; answer, good());
    assert_eq!(rt;
        (
            tables.securities.place(&600_000),
            tables.securities.place(&600_010),
            tables.securities.place(&7),
        ),
        (Some(0), Some(1), None)
    );
    assert_eq!(rt; tables.securities.line(2), None);
    assert_eq!(rt;
        (
            tables.holdings.place(&pair(101, 600_000)),
            tables.holdings.place(&pair(7, 7))
        ),
        (Some(0), None)
    );
    assert_eq!(rt; tables.holdings.line(1), None);
    assert_eq!(rt;
        (
            tables.account_holdings.place(&pair(80_000_001, 600_000)),
            tables.account_holdings.place(&pair(80_000_007, 7)),
        ),
        (Some(0), None)
    );
    assert_eq!(rt; tables.account_holdings.line(1), None);
    assert_eq!(rt;
        (
            tables.designations.place(&pair(80_000_001, 102)),
            tables.designations.place(&pair(80_000_007, 7)),
        ),
        (Some(0), None)
    );
}

#[test]
fn the_lines_of_a_table_stay_where_a_day_is_refused(rt: HostRuntime) {
    let mut rows = old_rows::<3, 2, 2, 2>();
    rows.designations[1] = Designation {
        account: 80_000_008,
        participant: 8,
    };
    let mut tables = tables(&mut rows, 2, 1);
    let answer = loaded(MISCOUNTED, &mut tables);
    assert_eq!(rt; answer, refused(Refusal::Count, 50, b'E', 6));
    assert_eq!(rt;
        (tables.securities.line(1), tables.securities.line(2)),
        (Some(OLD_SECURITY), None)
    );
    assert_eq!(rt;
        (tables.holdings.line(0), tables.holdings.line(1)),
        (Some(OLD_HOLDING), None)
    );
    assert_eq!(rt;
        (
            tables.account_holdings.line(0),
            tables.account_holdings.line(1)
        ),
        (Some(OLD_ACCOUNT_HOLDING), None)
    );
    assert_eq!(rt;
        (
            tables.designations.place(&pair(80_000_007, 7)),
            tables.designations.place(&pair(80_000_008, 8)),
        ),
        (Some(0), None)
    );
}

// Loads a good day with the loading day that a refused one gave back.
fn loaded_at_last(tables: &mut Tables) -> Result<(Figures, usize, u64), DayFault> {
    match load(LoadingDay {}, MISCOUNTED, tables) {
        Ok(loaded) => outcome(MISCOUNTED, Ok(loaded)),
        Err(back) => {
            let (day, _) = back;
            outcome(GOOD, load(day, GOOD, tables))
        }
    }
}

#[test]
fn a_good_day_may_follow_a_refused_one(rt: HostRuntime) {
    let mut rows = old_rows::<2, 1, 1, 1>();
    let answer = loaded_at_last(&mut tables(&mut rows, 0, 0));
    assert_eq!(rt; answer, good());
}
