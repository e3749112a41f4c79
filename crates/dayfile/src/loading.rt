ghost use Rattle.std.specs.Prelude.{◌≡◌};
ghost use Rattle.gate.specs.Opened.{OpenedBy};
ghost use Rattle.dayfile.specs.DayPart.{InRange, plan, Planned};
ghost use Rattle.dayfile.specs.Loads.{filled_by, Load, room_of};

use super::group::fill;
use super::judging::judged;
use super::lent::Tables;
use super::loaded::Loaded;
use super::plan::{Opening, Plan};
use fields::fault::DayFault;
use fields::rest::Rest;
use gate::day::{LoadingDay, TradingDay};
use rules::letter::Letter;

// Makes the lines of a planned day part those of the tables.
fn write(made: &Plan, input: &[u8], tables: &mut Tables)
    requires { Planned input.now (room_of tables.old) (plan made.now.opening made.now.counts) }
    ensures { tables.new ≡ filled_by (plan made.now.opening made.now.counts) input.now tables.old }
{
    let counts = made.counts;
    let mut rest = Rest::whole(input);
    rest.pass(Letter::Day);
    fill(&mut tables.securities, &mut rest, counts.securities);
    fill(&mut tables.holdings, &mut rest, counts.holdings);
    fill(
        &mut tables.account_holdings,
        &mut rest,
        counts.account_holdings,
    );
    fill(&mut tables.designations, &mut rest, counts.designations);
}

// The trading day of an opening in range.
fn opened(day: LoadingDay, opening: Opening) -> TradingDay
    requires { InRange opening }
    ensures { OpenedBy opening.market opening.date opening.quota result.figures }
{
    match day.open(opening.market, opening.date, opening.quota) {
        Ok(day) => day,
        Err((LoadingDay {}, _)) => unreachable!(),
    }
}

// Loads a day part into the lent tables and opens the day. A refused one gives the loading day back, and no table changes.
pub fn load<'i>(
    day: LoadingDay,
    input: &'i [u8],
    tables: &mut Tables,
) -> Result<Loaded<'i>, (LoadingDay, DayFault)>
    ensures { Load input.now tables.old result tables.new }
{
    match judged(input, tables.room()) {
        Ok(plan) => {
            write(&plan, input, tables);
            Ok(Loaded {
                day: opened(day, plan.opening),
                events: plan.events,
            })
        }
        Err(fault) => Err((day, fault)),
    }
}
