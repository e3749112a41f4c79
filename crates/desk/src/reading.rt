ghost use Rattle.std.specs.Prelude.{◌≡◌, ◌≤◌, length, IfOk, slice_index};
ghost use Rattle.rules.specs.declared.letter.Part.TheVariants as part;
ghost use Rattle.fields.specs.Faults.{day_at, line_at};
ghost use Rattle.fields.specs.Layout.{width_of};
ghost use Rattle.fields.specs.Lines.{event_letter_of};
ghost use Rattle.desk.specs.Answered.{event_fault, late_fault};
ghost use Rattle.desk.specs.Events.{any_number, event_in, event_letter, event_of, link_read};

use super::event::{Event, Link};
use fields::fault::{DayFault, FieldFault, LineFault};
use fields::field::Field;
use fields::line::{EventLine, first_byte};
use fields::rest::Rest;
use rules::letter::Part;
use rules::range::Quantity;
use rules::refusal::Refusal;

// A field's number, which may be any.
fn any_number(field: Field) -> Result<u64, FieldFault>
    ensures { result ≡ any_number field.entry }
{
    field.ranged(Quantity::AnyNumber)
}

// The state of the link that a field says.
fn link(field: Field) -> Result<Link, FieldFault>
    ensures { result ≡ link_read field.entry }
{
    let n = field.ranged(Quantity::Link)?;
    Link::try_from(n).map_err(|cause| FieldFault { cause, column: 2 })
}

// The event of a line's fields, judged from the left.
fn event_in(line: EventLine) -> Result<Event, FieldFault>
    ensures is { result ≡ event_in line.entry }
    ensures letter { IfOk result (λ e. event_letter e ≡ event_letter_of line.entry) }
{
    Ok(match line {
        EventLine::Step => Event::Step,
        EventLine::Notice {
            code,
            foreign,
            total,
        } => Event::Notice {
            code: any_number(code)?,
            foreign: any_number(foreign)?,
            total: any_number(total)?,
        },
        EventLine::Link { state } => Event::Link {
            state: link(state)?,
        },
        EventLine::Request {
            side,
            participant,
            account,
            code,
            price,
            shares,
        } => Event::Request {
            side,
            participant: any_number(participant)?,
            account: any_number(account)?,
            code: any_number(code)?,
            price: any_number(price)?,
            shares: any_number(shares)?,
        },
        EventLine::Trade {
            order,
            shares,
            price,
        } => Event::Trade {
            order: any_number(order)?,
            shares: any_number(shares)?,
            price: any_number(price)?,
        },
        EventLine::Return { order } => Event::Return {
            order: any_number(order)?,
        },
        EventLine::Confirm { order } => Event::Confirm {
            order: any_number(order)?,
        },
        EventLine::Decline { order } => Event::Decline {
            order: any_number(order)?,
        },
        EventLine::Cancel { order, participant } => Event::Cancel {
            order: any_number(order)?,
            participant: any_number(participant)?,
        },
        EventLine::Close => Event::Close,
    })
}

// The event that the input goes on with.
fn event(rest: &[u8]) -> Result<Event, FieldFault>
    ensures is { result ≡ event_of rest.now }
    ensures long { IfOk result (λ e. width_of (event_letter e) ≤ length rest.now) }
{
    event_in(EventLine::cut(rest)?)
}

// The event in the first line of what is left.
fn line_event(rest: &Rest) -> Result<Event, LineFault>
    ensures is { result ≡ line_at (slice_index rest.now.bytes.now 0) rest.now.line (event_of rest.now.bytes.now) }
    ensures long { IfOk result (λ e. width_of (event_letter e) ≤ length rest.now.bytes.now) }
{
    let (letter, line) = (first_byte(rest.bytes), rest.line);
    let event = event(rest.bytes).map_err(|f| (f, letter, line))?;
    Ok(event)
}

// The event in the first line of what is left of the event part.
pub(crate) fn read_event(rest: &Rest) -> Result<Event, DayFault>
    ensures is { result ≡ day_at part.Event (line_at (slice_index rest.now.bytes.now 0) rest.now.line (event_of rest.now.bytes.now)) }
    ensures long { IfOk result (λ e. width_of (event_letter e) ≤ length rest.now.bytes.now) }
{
    let event = line_event(rest).map_err(|f| (f, Part::Event))?;
    Ok(event)
}

// The fault of a line after an accepted close: its own, or else that it is out of sequence.
fn late_field(rest: &[u8]) -> FieldFault
    ensures { result ≡ late_fault (event_of rest.now) }
{
    match event(rest) {
        Ok(_) => FieldFault {
            cause: Refusal::Sequence,
            column: 1,
        },
        Err(fault) => fault,
    }
}

// The fault of the first line of what follows an accepted close, beside its letter, number and part.
pub(crate) fn late_fault(rest: &Rest) -> DayFault
    ensures { result ≡ event_fault rest.now.bytes.now rest.now.line (late_fault (event_of rest.now.bytes.now)) }
{
    let fault = LineFault::from((late_field(rest.bytes), first_byte(rest.bytes), rest.line));
    DayFault::from((fault, Part::Event))
}
