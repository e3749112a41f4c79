use registers::Register;
use registers::accounts::{AccountRegister, Designated};
use registers::participants::{Own, ParticipantRegister};
use rules::refusal::Refusal;
use std::test::Fail;
use tables::owner::{Account, Participant};
use tables::rows::{AccountHolding, Designation, ParticipantHolding};
use tables::table::{AccountHoldings, Designations, Holdings};

fn holding(participant: u32, sellable: u64) -> ParticipantHolding {
    ParticipantHolding {
        owner: Participant(participant),
        code: 1,
        opening: 100,
        sellable,
    }
}

#[test]
fn draws_and_restores(rt: HostRuntime) -> Result<(), Fail> {
    let mut rows = [holding(7, 100)];
    let mut holdings = Holdings::over(&mut rows, 1);
    let mut register = ParticipantRegister {
        holdings: &mut holdings,
        rule: Own,
    };
    let pool = register.find(7, 0, 1)?;
    register.draw(pool, 100)?;
    assert_eq!(rt; register.sellable(pool), Some(0));
    assert_eq!(rt; register.draw(pool, 1), Err(Refusal::ShortBalance));
    register.restore(pool, 60)?;
    assert_eq!(rt; register.sellable(pool), Some(60));
    assert_eq!(rt; register.restore(pool, 41), Err(Refusal::Unsound));
    assert_eq!(rt; register.sellable(pool), Some(60));
    assert_eq!(rt; register.opening(pool), Some(100));
    Ok(())
}

#[test]
fn finds_a_participants_line(rt: HostRuntime) {
    let mut rows = [holding(7, 100), holding(8, 100)];
    let mut holdings = Holdings::over(&mut rows, 1);
    let register = ParticipantRegister {
        holdings: &mut holdings,
        rule: Own,
    };
    assert_eq!(rt; register.find(7, 0, 1), Ok(0));
    assert_eq!(rt; register.find(7, 80_000_000, 1), Err(Refusal::Account));
    assert_eq!(rt; register.find(7, 0, 2), Err(Refusal::NoPosition));
    assert_eq!(rt;
        register.find(8, 0, 1),
        Err(Refusal::NoPosition),
        "a row past the lines"
    );
}

#[test]
fn finds_an_accounts_line(rt: HostRuntime) {
    let mut rows = [AccountHolding {
        owner: Account(80_000_000),
        code: 1,
        opening: 5,
        sellable: 5,
    }];
    let mut named = [Designation {
        account: 80_000_000,
        participant: 7,
    }];
    let mut holdings = AccountHoldings::over(&mut rows, 1);
    let designations = Designations::over(&mut named, 1);
    let register = AccountRegister {
        holdings: &mut holdings,
        rule: Designated {
            designations: &designations,
        },
    };
    assert_eq!(rt; register.find(7, 80_000_000, 1), Ok(0));
    assert_eq!(rt; register.find(7, 80_000_001, 1), Err(Refusal::Account));
    assert_eq!(rt; register.find(8, 80_000_000, 1), Err(Refusal::Undesignated));
    assert_eq!(rt; register.find(7, 80_000_000, 2), Err(Refusal::NoPosition));
}

#[test]
fn stops_at_the_first_row_not_before(rt: HostRuntime) {
    let mut rows = [holding(5, 100), holding(3, 100)];
    let mut holdings = Holdings::over(&mut rows, 2);
    let register = ParticipantRegister {
        holdings: &mut holdings,
        rule: Own,
    };
    assert_eq!(rt; register.find(5, 0, 1), Ok(0));
    assert_eq!(rt; register.find(3, 0, 1), Err(Refusal::NoPosition));
}

#[test]
fn passes_over_an_absent_row(rt: HostRuntime) {
    let mut rows = [holding(9, 101), holding(7, 100)];
    let mut holdings = Holdings::over(&mut rows, 2);
    let mut register = ParticipantRegister {
        holdings: &mut holdings,
        rule: Own,
    };
    assert_eq!(rt; register.find(9, 0, 1), Err(Refusal::NoPosition));
    assert_eq!(rt; register.find(7, 0, 1), Ok(1));
    assert_eq!(rt; register.sellable(0), None);
    assert_eq!(rt; register.draw(0, 1), Err(Refusal::ShortBalance));
}
