ghost use Rattle.std.specs.Prelude.{◌≡◌};
ghost use Rattle.registers.specs.Meaning.{opening_of, sellable_of};

use super::loading::loaded;
use super::rows::{Rows, lent, tables};
use registers::Register;
use rules::refusal::Refusal;
use std::test::Fail;
use tables::rows::{AccountHolding, Designation, ParticipantHolding, Security};

// A morning with three holdings of participants, two of accounts, and three designations.
const MORNING: &[u8] = b"\
D               1        20190215   5200000000000
P             101          600000             500
P             101          600016           12000
P             205          600519             300
A        80000001          600000             300
A        80000002          600009            4500
G        80000001             101
G        80000001             205
G        80000002             205
E               0               3               2               3
";

// What a register says of a pool: its opening and its sellable number.
fn pool<R: Register>(register: &R, number: usize) -> (Option<u64>, Option<u64>)
    ensures opening { result.0 ≡ opening_of (R.Register.meaning register.now) number }
    ensures sellable { result.1 ≡ sellable_of (R.Register.meaning register.now) number }
{
    (register.opening(number), register.sellable(number))
}

// Rows for the morning, with one row more than it has holdings, of participants and of accounts.
fn morning_rows() -> Rows<1, 4, 3, 3> {
    Rows {
        securities: [Security::default(); 1],
        holdings: [ParticipantHolding::default(); 4],
        account_holdings: [AccountHolding::default(); 3],
        designations: [Designation::default(); 3],
    }
}

#[test]
fn participants_sell_what_they_hold(rt: HostRuntime) -> Result<(), Fail> {
    let mut rows = morning_rows();
    let mut tables = tables(&mut rows, 0, 0);
    loaded(MORNING, &mut tables)?;
    let (_, mut register, _) = lent(&mut tables);
    assert_eq!(rt; pool(&register, 0), (Some(500), Some(500)));
    assert_eq!(rt; pool(&register, 1), (Some(12_000), Some(12_000)));
    assert_eq!(rt; pool(&register, 2), (Some(300), Some(300)));
    assert_eq!(rt; pool(&register, 3), (None, None));
    assert_eq!(rt; register.find(101, 0, 600_016), Ok(1));
    assert_eq!(rt;
        register.find(101, 80_000_001, 600_016),
        Err(Refusal::Account)
    );
    assert_eq!(rt; register.find(102, 0, 600_016), Err(Refusal::NoPosition));
    assert_eq!(rt; register.draw(1, 12_000), Ok(()));
    assert_eq!(rt; pool(&register, 1), (Some(12_000), Some(0)));
    assert_eq!(rt; register.draw(1, 1), Err(Refusal::ShortBalance));
    assert_eq!(rt; register.restore(1, 12_001), Err(Refusal::Unsound));
    assert_eq!(rt; register.restore(1, 12_000), Ok(()));
    assert_eq!(rt; pool(&register, 1), (Some(12_000), Some(12_000)));
    Ok(())
}

#[test]
fn designated_participants_sell_what_accounts_hold(rt: HostRuntime) -> Result<(), Fail> {
    let mut rows = morning_rows();
    let mut tables = tables(&mut rows, 0, 0);
    loaded(MORNING, &mut tables)?;
    let (_, _, mut register) = lent(&mut tables);
    assert_eq!(rt; pool(&register, 0), (Some(300), Some(300)));
    assert_eq!(rt; pool(&register, 1), (Some(4500), Some(4500)));
    assert_eq!(rt; pool(&register, 2), (None, None));
    assert_eq!(rt; register.find(101, 80_000_001, 600_000), Ok(0));
    assert_eq!(rt;
        register.find(101, 80_000_003, 600_000),
        Err(Refusal::Account)
    );
    assert_eq!(rt;
        register.find(101, 80_000_002, 600_009),
        Err(Refusal::Undesignated)
    );
    assert_eq!(rt;
        register.find(205, 80_000_001, 600_009),
        Err(Refusal::NoPosition)
    );
    assert_eq!(rt; register.find(205, 0, 600_000), Err(Refusal::Account));
    assert_eq!(rt; register.draw(1, 4501), Err(Refusal::ShortBalance));
    assert_eq!(rt; register.draw(1, 4500), Ok(()));
    assert_eq!(rt; pool(&register, 1), (Some(4500), Some(0)));
    assert_eq!(rt; register.restore(2, 0), Err(Refusal::Unsound));
    Ok(())
}
