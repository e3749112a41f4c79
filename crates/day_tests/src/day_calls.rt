ghost use Rattle.std.specs.Prelude.{◌≡◌, IfOk};
ghost use Rattle.gate.specs.Opened.{OpenedBy};

use super::rows::security;
use super::turns::{opened, refusal_of};
use gate::day::{LoadingDay, TradingDay};
use gate::figures::Figures;
use rules::buying::Buying;
use rules::market::Market;
use rules::notice::NoticeBand;
use rules::phase::Phase;
use rules::refusal::Refusal;
use std::process::Abort;
use std::test::Fail;
use tables::table::SecurityList;

// The figures of a day of these numbers in its first phase, or why it does not open.
fn opening(market: u64, date: u64, quota: u64) -> Result<Figures, Refusal>
    ensures { IfOk result (λ figures. OpenedBy market date quota figures) }
{
    Ok(opened(market, date, quota)?.leave())
}

// A day in its first phase.
fn trading() -> Result<TradingDay, Refusal>
    ensures { IfOk result (λ day. OpenedBy 1 20190215 100000 day.figures) }
{
    opened(1, 20_190_215, 100_000)
}

// The figures of that day in a phase.
fn in_phase(phase: Phase) -> Figures {
    Figures {
        market: Market::Shanghai,
        date: 20_190_215,
        quota: 100_000,
        balance: 100_000,
        phase,
        shut: false,
        count: 0,
    }
}

#[test]
fn a_day_opens_with_numbers_in_their_ranges(rt: HostRuntime) {
    assert_eq!(rt;
        opening(1, 20_190_215, 100_000),
        Ok(in_phase(Phase::OpeningCall))
    );
    assert!(rt; opening(1, 1, 1).is_ok());
    assert!(rt; opening(2, 99_991_231, 1_000_000_000_000_000).is_ok());
    assert_eq!(rt; opening(0, 1, 1), Err(Refusal::Range));
    assert_eq!(rt; opening(3, 1, 1), Err(Refusal::Range));
    assert_eq!(rt; opening(1, 0, 1), Err(Refusal::Range));
    assert_eq!(rt; opening(1, 99_991_232, 1), Err(Refusal::Range));
    assert_eq!(rt; opening(1, 1, 0), Err(Refusal::Range));
    assert_eq!(rt; opening(1, 1, 1_000_000_000_000_001), Err(Refusal::Range));
}

// Opens a day after it was refused once.
fn opened_at_last() -> Result<Figures, Refusal> {
    match (LoadingDay {}).open(0, 20_190_215, 100_000) {
        Ok(day) => Ok(day.leave()),
        Err(back) => {
            let (day, _) = back;
            match day.open(1, 20_190_215, 100_000) {
                Ok(day) => Ok(day.leave()),
                Err(back) => Err(refusal_of(back)),
            }
        }
    }
}

#[test]
fn a_day_that_was_not_opened_may_be_opened_again(rt: HostRuntime) {
    assert_eq!(rt; opened_at_last(), Ok(in_phase(Phase::OpeningCall)));
}

// Steps a day; answers the step's answer and the figures after it.
fn stepped(day: &mut TradingDay) -> (Result<(), Refusal>, Figures)
    ensures { result.1 ≡ day.new.figures }
{
    let answer = day.step();
    (answer, day.figures())
}

#[test]
fn steps_go_through_the_phases_and_end_after_hours(rt: HostRuntime) -> Result<(), Fail> {
    let mut day = trading()?;
    let second = stepped(&mut day);
    let third = stepped(&mut day);
    let fourth = stepped(&mut day);
    let fifth = stepped(&mut day);
    let last = stepped(&mut day);
    day.leave();
    assert_eq!(rt; second, (Ok(()), in_phase(Phase::OpeningCallNoCancel)));
    assert_eq!(rt; third, (Ok(()), in_phase(Phase::Continuous)));
    assert_eq!(rt; fourth, (Ok(()), in_phase(Phase::ClosingCall)));
    assert_eq!(rt; fifth, (Ok(()), in_phase(Phase::AfterHours)));
    assert_eq!(rt; last, (Err(Refusal::Phase), in_phase(Phase::AfterHours)));
    Ok(())
}

// Closes a day after so many steps; answers its last figures, or why it is not closed and the figures that it came back
// with.
fn closed_after(steps: u8) -> Result<Figures, (Figures, Refusal)> {
    let mut day = match trading() {
        Ok(day) => day,
        Err(refusal) => return Err((in_phase(Phase::OpeningCall), refusal)),
    };
    for _ in 0..steps {
        let _ = day.step();
    }
    match day.close(&[]) {
        Ok(closed) => Ok(closed.figures()),
        Err(back) => {
            let (day, refusal) = back;
            Err((day.leave(), refusal))
        }
    }
}

#[test]
fn a_day_is_closed_after_hours_alone(rt: HostRuntime) {
    assert_eq!(rt;
        closed_after(0),
        Err((in_phase(Phase::OpeningCall), Refusal::Business))
    );
    assert_eq!(rt;
        closed_after(1),
        Err((in_phase(Phase::OpeningCallNoCancel), Refusal::Business))
    );
    assert_eq!(rt;
        closed_after(2),
        Err((in_phase(Phase::Continuous), Refusal::Business))
    );
    assert_eq!(rt;
        closed_after(3),
        Err((in_phase(Phase::ClosingCall), Refusal::Business))
    );
    assert_eq!(rt; closed_after(4), Ok(in_phase(Phase::AfterHours)));
}

// Gives notices of so many foreign shares in a hundred, and checks the buying state that each leaves the security in.
fn check_notices(
    rt: &impl Abort,
    buying: Buying,
    notices: &[(u64, Buying)],
) -> Result<(), Refusal> {
    let mut day = trading()?;
    let mut rows = [security(600_000, buying)];
    let mut list = SecurityList::over(&mut rows, 1);
    for (foreign, left) in notices {
        let answer = day.notice(&mut list, 600_000, *foreign, 100);
        assert_eq!(rt; answer, Ok(()), "a notice of {foreign} percent");
        let line = security(600_000, *left);
        assert_eq!(rt; list.line(0), Some(line), "after {foreign} percent");
    }
    day.leave();
    Ok(())
}

#[test]
fn a_security_is_suspended_at_28_percent_and_opens_at_26(rt: HostRuntime) -> Result<(), Fail> {
    check_notices(
        &rt,
        Buying::Open,
        &[
            (28, Buying::Suspended),
            (27, Buying::Suspended),
            (26, Buying::Open),
            (27, Buying::Open),
        ],
    )?;
    Ok(())
}

#[test]
fn a_security_that_may_only_be_sold_stays_so(rt: HostRuntime) -> Result<(), Fail> {
    check_notices(
        &rt,
        Buying::SellOnly,
        &[
            (0, Buying::SellOnly),
            (27, Buying::SellOnly),
            (100, Buying::SellOnly),
        ],
    )?;
    Ok(())
}

#[test]
fn a_refused_notice_changes_nothing(rt: HostRuntime) -> Result<(), Fail> {
    let mut day = trading()?;
    let mut rows = [security(600_000, Buying::Open)];
    let mut list = SecurityList::over(&mut rows, 1);
    let unlisted = day.notice(&mut list, 600_001, 28, 100);
    let impossible = day.notice(&mut list, 600_000, 101, 100);
    let figures = day.leave();
    assert_eq!(rt; unlisted, Err(Refusal::Code));
    assert_eq!(rt; impossible, Err(Refusal::Foreign));
    assert_eq!(rt; list.line(0), Some(security(600_000, Buying::Open)));
    assert_eq!(rt; figures, in_phase(Phase::OpeningCall));
    Ok(())
}

#[test]
fn the_bands_of_a_notice_are_exact(rt: HostRuntime) {
    assert!(rt;
        matches!(
            NoticeBand::of(2_799_999_999, 10_000_000_000),
            NoticeBand::Between
        )
    );
    assert!(rt;
        matches!(
            NoticeBand::of(2_800_000_000, 10_000_000_000),
            NoticeBand::Suspending
        )
    );
    assert!(rt;
        matches!(
            NoticeBand::of(2_600_000_001, 10_000_000_000),
            NoticeBand::Between
        )
    );
    assert!(rt;
        matches!(
            NoticeBand::of(2_600_000_000, 10_000_000_000),
            NoticeBand::Reopening
        )
    );
    assert!(rt; matches!(NoticeBand::of(0, 1), NoticeBand::Reopening));
    assert!(rt; matches!(NoticeBand::of(1, 1), NoticeBand::Suspending));
}
