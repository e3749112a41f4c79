ghost use Rattle.std.specs.Prelude.{◌≡◌, ℕ, List, length, Some, IfOk, MatchOption, vec_len, OnErr, OnOk};
ghost use Rattle.rules.specs.declared.refusal.Refusal.{Refusal as a_refusal};
ghost use Rattle.rules.specs.Rules.{first_broken};
ghost use Rattle.gate.specs.Closed.{ClosedOver, closing_rules};
ghost use Rattle.dayfile.specs.DayPart.{counts};
ghost use Rattle.dayfile.specs.Loads.{room_of};
ghost use Rattle.desk.specs.declared.event.Link.TheVariants.{Up};
ghost use Rattle.desk.specs.Answered.{Ended, EndsDay, after_close, late_answer};
ghost use Rattle.desk.specs.Effects.{session};
ghost use Rattle.desk.specs.Output.{DayAnswer, Output, desk_over, program_orders, program_room};
ghost use Rattle.desk.specs.Printed.{Appends};
ghost use Rattle.desk.specs.Covering.{bytes_of, covered, grown};

use super::event::Link;
use super::printing::Fault;
use super::reading::late_fault;
use super::session::Session;
use super::sink::{FixedText, Sink};
use dayfile::lent::Tables;
use dayfile::loaded::Loaded;
use dayfile::loading::load;
use fields::rest::Rest;
use gate::day::{LoadingDay, TradingDay};
use gate::figures::Figures;
use history::closing::close;
use orders::order::Order;
use registers::Register;
use registers::accounts::{AccountRegister, Designated};
use registers::participants::{Own, ParticipantRegister};
use std::alloc::{AllocError, Global};
use tables::rows::{AccountHolding, Designation, ParticipantHolding, Security};
use tables::table::{SecurityList, Table};

// The most bytes that an input may have.
pub const MOST_INPUT: usize = 32_768;

// The rows of each of the program's tables.
const ROWS: usize = 256;

// The rows of the program's book.
const ORDERS: usize = 512;

// Closes a day over its book, and answers the figures that it closed with; a day that comes back is left where it stands.
fn close_day<P: Register, A: Register>(
    day: TradingDay,
    list: &SecurityList,
    participants: &P,
    accounts: &A,
    book: &[Order],
) -> Option<Figures>
    ensures { MatchOption result ((e : a_refusal) × (first_broken (closing_rules day.figures book.now) ≡ Some e)) (ClosedOver day.figures book.now) }
{
    match close(day, list, participants, accounts, book) {
        Ok(closed) => Some(closed.figures()),
        Err((day, _)) => {
            day.leave();
            None
        }
    }
}

// Answers what follows an accepted close.
fn answer_late<S: Sink>(late: &Rest, out: &mut S) -> Result<(), S::Full>
    ensures { OnOk result (S.Sink.view out.new ≡ S.Sink.after out.old (after_close late.now.line late.now.bytes.now)) }
{
    if late.bytes.is_empty() {
        return Ok(());
    }
    Fault::Day(late_fault(late)).write(out)
}

// Ends a day whose events are answered: closes it, and answers what follows the close, or leaves it where it stands. Answers
// the figures that it closed with, if it did.
fn end_day<P: Register, A: Register, S: Sink>(
    closing: Option<Rest>,
    day: TradingDay,
    list: &SecurityList,
    participants: &P,
    accounts: &A,
    book: &[Order],
    out: &mut S,
) -> Result<Option<Figures>, S::Full>
    ensures text { OnOk result (S.Sink.view out.new ≡ S.Sink.after out.old (late_answer closing.entry)) }
    ensures ends { IfOk result (EndsDay closing.entry day.figures book.now) }
{
    match closing {
        Some(late) => {
            let closed = close_day(day, list, participants, accounts, book);
            answer_late(&late, out)?;
            Ok(closed)
        }
        None => {
            day.leave();
            Ok(None)
        }
    }
}

// Answers a day that is loaded, over registers of its holdings.
fn answer_loaded<S: Sink>(
    loaded: Loaded,
    tables: &mut Tables,
    book: &mut [Order],
    out: &mut S,
) -> Result<Option<Figures>, S::Full>
    ensures { IfOk result (λ closed. Appends S.Sink.view S.Sink.after out.old out.new (Ended (session (desk_over loaded.entry.day.figures tables.old book.old) Up) loaded.entry.events.line loaded.entry.events.bytes.now closed)) }
{
    let Loaded { day, events } = loaded;
    let mut session = Session {
        day,
        list: &mut tables.securities,
        participants: ParticipantRegister {
            holdings: &mut tables.holdings,
            rule: Own,
        },
        accounts: AccountRegister {
            holdings: &mut tables.account_holdings,
            rule: Designated {
                designations: &tables.designations,
            },
        },
        book,
        link: Link::Up,
    };
    let answered = session.answer(events, out);
    let Session {
        day,
        list,
        participants,
        accounts,
        book,
        link: _,
    } = session;
    match answered {
        Ok(closing) => end_day(closing, day, list, &participants, &accounts, book, out),
        Err(error) => {
            day.leave();
            Err(error)
        }
    }
}

// Answers an input of any length over lent tables and a lent book; answers the figures that the day closed with, if it did.
fn answer_on<S: Sink>(
    input: &[u8],
    tables: &mut Tables,
    book: &mut [Order],
    out: &mut S,
) -> Result<Option<Figures>, S::Full>
    ensures { IfOk result (λ closed. Appends S.Sink.view S.Sink.after out.old out.new (DayAnswer input.now (room_of tables.old) (length book.old) closed)) }
{
    match load(LoadingDay {}, input, tables) {
        Ok(loaded) => answer_loaded(loaded, tables, book, out),
        Err(back) => {
            let (LoadingDay {}, fault) = back;
            Fault::Day(fault).write(out)?;
            Ok(None)
        }
    }
}

// Answers an input of any length over lent tables and a lent book, behind a text that grows; answers the figures that the day closed
// with, if it did.
pub fn answer(
    input: &[u8],
    tables: &mut Tables,
    book: &mut [Order],
    out: &mut Vec<u8>,
) -> Result<Option<Figures>, AllocError>
    ensures { IfOk result (λ closed. Appends bytes_of grown out.old.items out.new.items (DayAnswer input.now (room_of tables.old) (length book.old) closed)) }
{
    answer_on(input, tables, book, out)
}

// The rows of a day's tables, and of its book.
#[derive(Drop)]
struct DayRows {
    securities: Vec<Security>,
    holdings: Vec<ParticipantHolding>,
    account_holdings: Vec<AccountHolding>,
    designations: Vec<Designation>,
    book: Vec<Order>,
}

impl DayRows {
    // So many rows for each of the tables, and so many for the book.
    fn new(heap: Global, rows: usize, orders: usize) -> Result<DayRows, AllocError>
        ensures { IfOk result (λ t. (vec_len t.securities ≡ rows) × (vec_len t.holdings ≡ rows) × (vec_len t.account_holdings ≡ rows) × (vec_len t.designations ≡ rows) × (vec_len t.book ≡ orders)) }
    {
        Ok(DayRows {
            securities: vec![in heap; Security::default(); rows]?,
            holdings: vec![in heap; ParticipantHolding::default(); rows]?,
            account_holdings: vec![in heap; AccountHolding::default(); rows]?,
            designations: vec![in heap; Designation::default(); rows]?,
            book: vec![in heap; Order::default(); orders]?,
        })
    }
}

// Answers an input of any length over tables of so many rows and a book of so many orders; answers the figures that the day closed
// with, if it did. Where there is no memory for the rows, nothing is written.
fn replay_on<S: Sink>(
    heap: Global,
    input: &[u8],
    rows: usize,
    orders: usize,
    out: &mut S,
) -> Result<Result<Option<Figures>, S::Full>, AllocError>
    ensures answered { IfOk result (λ written. IfOk written (λ closed. Appends S.Sink.view S.Sink.after out.old out.new (DayAnswer input.now (counts rows rows rows rows) orders closed))) }
    ensures kept { OnErr result (out.new ≡ out.old) }
{
    let mut lent = DayRows::new(heap, rows, orders)?;
    let mut tables = Tables {
        securities: Table::over(&mut lent.securities, 0),
        holdings: Table::over(&mut lent.holdings, 0),
        account_holdings: Table::over(&mut lent.account_holdings, 0),
        designations: Table::over(&mut lent.designations, 0),
    };
    Ok(answer_on(input, &mut tables, &mut lent.book, out))
}

// Answers an input of any length over tables of so many rows and a book of so many orders, behind a text that grows; answers the
// figures that the day closed with, if it did.
pub fn replay(
    heap: Global,
    input: &[u8],
    rows: usize,
    orders: usize,
    out: &mut Vec<u8>,
) -> Result<Option<Figures>, AllocError>
    ensures { IfOk result (λ closed. Appends bytes_of grown out.old.items out.new.items (DayAnswer input.now (counts rows rows rows rows) orders closed)) }
{
    replay_on(heap, input, rows, orders, out)?
}

// The same over a text of a fixed length. Where there is no memory for the rows, it stays as it is.
pub fn replay_over(
    heap: Global,
    input: &[u8],
    rows: usize,
    orders: usize,
    text: &mut FixedText,
) -> Result<Option<Figures>, AllocError>
    ensures answered { IfOk result (λ closed. (line : List ℕ) × (record { bytes = text.new.text.now; size = text.new.length; lent = text.new.text.ghost_name } ≡ covered text.old.text.now text.old.text.ghost_name text.old.length line) × DayAnswer input.now (counts rows rows rows rows) orders closed line) }
    ensures kept { OnErr result (text.new ≡ text.old) }
{
    match replay_on(heap, input, rows, orders, text)? {
        Ok(closed) => Ok(closed),
        Err(never) => match never {},
    }
}

// The whole answer to an input: in every run a history leads to the day that it leaves, and the law holds of it.
pub fn output(heap: Global, input: &[u8]) -> Result<Vec<u8>, AllocError>
    ensures { IfOk result (λ text. Output input.now program_room program_orders text.items) }
{
    let mut out = Vec::new(heap);
    if input.len() > MOST_INPUT {
        Fault::TooLong.write(&mut out)?;
        return Ok(out);
    }
    replay(heap, input, ROWS, ORDERS, &mut out)?;
    Ok(out)
}
