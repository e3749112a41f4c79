ghost use Rattle.std.specs.Prelude.{◌≡◌, ℕ, ◌+◌, ◌*◌, ◌≤◌, true, length, drop, Ok, Err, IfOk, MatchResult, OnOk, slice_index};
ghost use Rattle.rules.specs.declared.letter.Letter.TheVariants as letter;
ghost use Rattle.rules.specs.declared.letter.Part.TheVariants as part;
ghost use Rattle.rules.specs.declared.range.Quantity.TheVariants as quantity;
ghost use Rattle.rules.specs.Ranges.{in_range, range_of};
ghost use Rattle.fields.specs.Faults.{day_at, line_at};
ghost use Rattle.fields.specs.Layout.{width_of};
ghost use Rattle.dayfile.specs.Rows.{line_of};
ghost use Rattle.dayfile.specs.DayPart.{agreed, day_part, end_line, ending_of, events_at, InRange, opening_of, plan, Planned};

use super::group::counted;
use super::plan::{Counts, Opening, Plan};
use super::rows::out_of_group;
use fields::fault::{DayFault, FieldFault, LineFault};
use fields::line::{DayLine, first_byte};
use fields::rest::Rest;
use rules::letter::{Letter, Part};
use rules::range::Quantity;
use rules::refusal::Refusal;
use tables::rows::{AccountHolding, Designation, ParticipantHolding, Security};

// What the first line says, which has to be a D line.
fn opening(line: &[u8]) -> Result<Opening, FieldFault>
    ensures is { result ≡ line_of letter.Day opening_of line.now }
    ensures long { OnOk result (50 ≤ length line.now) }
    ensures within { IfOk result InRange }
{
    match DayLine::cut(line)? {
        DayLine::Day {
            market,
            date,
            quota,
        } => {
            let market = market.ranged(Quantity::Market)?;
            let date = date.ranged(Quantity::Date)?;
            let quota = quota.ranged(Quantity::Quota)?;
            Ok(Opening {
                market,
                date,
                quota,
            })
        }
        _ => Err(out_of_group(line)),
    }
}

// Whether a count is the file's.
fn agree(column: u64, said: u64, is: usize) -> Result<(), FieldFault>
    ensures { result ≡ agreed column said is }
{
    if said == is as u64 {
        Ok(())
    } else {
        Err(FieldFault {
            cause: Refusal::Count,
            column,
        })
    }
}

// Judges the line after the groups, which has to be an E line with their counts.
fn ending(line: &[u8], file: Counts) -> Result<(), FieldFault>
    ensures is { result ≡ line_of letter.End (ending_of file) line.now }
    ensures long { OnOk result (66 ≤ length line.now) }
{
    match DayLine::cut(line)? {
        DayLine::End {
            securities,
            holdings,
            account_holdings,
            designations,
        } => {
            let s = securities.ranged(Quantity::Lines)?;
            let p = holdings.ranged(Quantity::Lines)?;
            let a = account_holdings.ranged(Quantity::Lines)?;
            let g = designations.ranged(Quantity::Lines)?;
            agree(2, s, file.securities)?;
            agree(18, p, file.holdings)?;
            agree(34, a, file.account_holdings)?;
            agree(50, g, file.designations)
        }
        _ => Err(out_of_group(line)),
    }
}

// Goes past the first line; answers what it says.
fn opening_line(rest: &mut Rest) -> Result<Opening, LineFault>
    ensures is { result ≡ line_at (slice_index rest.old.bytes.now 0) rest.old.line (line_of letter.Day opening_of rest.old.bytes.now) }
    ensures within { IfOk result InRange }
    ensures passed { OnOk result (rest.new.bytes.now ≡ drop (width_of letter.Day) rest.old.bytes.now) }
    ensures whole { OnOk result (width_of letter.Day ≤ length rest.old.bytes.now) }
    ensures numbered { OnOk result (rest.new.line ≡ rest.old.line + 1) }
{
    let (letter, line) = (first_byte(rest.bytes), rest.line);
    let opening = opening(rest.bytes).map_err(|f| (f, letter, line))?;
    rest.pass(Letter::Day);
    Ok(opening)
}

// Goes past the line after the groups.
fn ending_line(rest: &mut Rest, file: Counts) -> Result<(), LineFault>
    ensures is { result ≡ line_at (slice_index rest.old.bytes.now 0) rest.old.line (line_of letter.End (ending_of file) rest.old.bytes.now) }
    ensures passed { OnOk result (rest.new.bytes.now ≡ drop (width_of letter.End) rest.old.bytes.now) }
    ensures whole { OnOk result (width_of letter.End ≤ length rest.old.bytes.now) }
    ensures numbered { OnOk result (rest.new.line ≡ rest.old.line + 1) }
{
    let (letter, line) = (first_byte(rest.bytes), rest.line);
    ending(rest.bytes, file).map_err(|f| (f, letter, line))?;
    rest.pass(Letter::End);
    Ok(())
}

// The whole day part read once, with nothing written.
fn planned(input: &[u8], room: Counts) -> Result<Plan<'_>, LineFault>
    ensures is { MatchResult result (λ p. day_part input.now room ≡ Ok (plan p.opening p.counts)) (λ f. day_part input.now room ≡ Err f) }
    ensures planned { IfOk result (λ p. Planned input.now room (plan p.opening p.counts)) }
    ensures left { IfOk result (λ p. p.events.bytes.now ≡ drop (events_at p.counts) input.now) }
    ensures numbered { IfOk result (λ p. p.events.line ≡ end_line p.counts + 1) }
{
    let mut rest = Rest::whole(input);
    let opening = opening_line(&mut rest)?;
    let counts = Counts {
        securities: counted::<Security>(&mut rest, room.securities)?,
        holdings: counted::<ParticipantHolding>(&mut rest, room.holdings)?,
        account_holdings: counted::<AccountHolding>(&mut rest, room.account_holdings)?,
        designations: counted::<Designation>(&mut rest, room.designations)?,
    };
    ending_line(&mut rest, counts)?;
    Ok(Plan {
        opening,
        counts,
        events: rest,
    })
}

// Judges the day part: what it says, or its first fault.
pub(crate) fn judged(input: &[u8], room: Counts) -> Result<Plan<'_>, DayFault>
    ensures is { MatchResult result (λ p. day_part input.now room ≡ Ok (plan p.opening p.counts)) (λ f. day_at part.Day (day_part input.now room) ≡ Err f) }
    ensures planned { IfOk result (λ p. Planned input.now room (plan p.opening p.counts)) }
    ensures left { IfOk result (λ p. p.events.bytes.now ≡ drop (events_at p.counts) input.now) }
    ensures numbered { IfOk result (λ p. p.events.line ≡ end_line p.counts + 1) }
{
    let plan = planned(input, room).map_err(|f| (f, Part::Day))?;
    Ok(plan)
}
