use lookup::key::Pair;
use registers::Register;
use registers::accounts::{AccountRegister, Designated};
use rules::buying::Buying;
use rules::price::PriceBand;
use rules::refusal::Refusal;
use tables::rows::{AccountHolding, Designation, Security};
use tables::table::{AccountHoldings, Designations, SecurityList};

fn security(code: u32, close: u32) -> Security {
    Security {
        code,
        buying: Buying::Open,
        close,
        band: PriceBand::Ten,
    }
}

fn designation(account: u32, participant: u32) -> Designation {
    Designation {
        account,
        participant,
    }
}

#[test]
fn a_code_is_sought_up_to_the_first_row_that_is_not_before_it(rt: HostRuntime) {
    let mut rows = [
        security(5, 1000),
        security(0, 0),
        security(9, 1000),
        security(7, 1000),
    ];
    let list = SecurityList::over(&mut rows, 4);
    assert_eq!(rt; list.place(&5), Some(0));
    assert_eq!(rt; list.place(&9), Some(2));
    assert_eq!(rt; list.place(&7), None);
    assert_eq!(rt; list.place(&6), None);
    assert_eq!(rt; list.place(&10), None);
}

#[test]
fn every_code_of_a_list_that_rises_is_found_and_no_other(rt: HostRuntime) {
    let mut rows = [
        security(1, 1000),
        security(3, 1000),
        security(5, 1000),
        security(7, 1000),
        security(9, 1000),
    ];
    let list = SecurityList::over(&mut rows, 5);
    assert_eq!(rt; list.place(&1), Some(0));
    assert_eq!(rt; list.place(&3), Some(1));
    assert_eq!(rt; list.place(&5), Some(2));
    assert_eq!(rt; list.place(&7), Some(3));
    assert_eq!(rt; list.place(&9), Some(4));
    assert_eq!(rt; list.place(&0), None);
    assert_eq!(rt; list.place(&4), None);
    assert_eq!(rt; list.place(&6), None);
    assert_eq!(rt; list.place(&10), None);
}

#[test]
fn a_row_out_of_its_ranges_is_passed_over(rt: HostRuntime) {
    let mut rows = [
        security(1_000_000, 1000),
        security(4, 900_001),
        security(4, 0),
        security(4, 900_000),
    ];
    let list = SecurityList::over(&mut rows, 4);
    assert_eq!(rt; list.place(&1_000_000), None);
    assert_eq!(rt; list.place(&4), Some(3));
    let mut rows = [
        designation(80_000_001, 100_000),
        designation(80_100_000, 7),
        designation(80_000_001, 7),
    ];
    let named = Designations::over(&mut rows, 3);
    assert_eq!(rt; named.has(80_100_000), false);
    assert_eq!(rt;
        named.place(&Pair {
            first: 80_000_001,
            second: 100_000,
        }),
        None
    );
    assert_eq!(rt;
        named.place(&Pair {
            first: 80_000_001,
            second: 7,
        }),
        Some(2)
    );
}

#[test]
fn an_account_has_its_line_wherever_it_stands(rt: HostRuntime) {
    let mut rows = [AccountHolding::default(); 1];
    let mut names = [designation(80_000_002, 7), designation(80_000_001, 7)];
    let mut holdings = AccountHoldings::over(&mut rows, 0);
    let designations = Designations::over(&mut names, 2);
    let register = AccountRegister {
        holdings: &mut holdings,
        rule: Designated {
            designations: &designations,
        },
    };
    assert_eq!(rt; register.find(7, 80_000_002, 1), Err(Refusal::NoPosition));
    assert_eq!(rt;
        register.find(7, 80_000_001, 1),
        Err(Refusal::Undesignated),
        "its line stands behind one that is after it"
    );
    assert_eq!(rt; register.find(7, 80_000_003, 1), Err(Refusal::Account));
}
