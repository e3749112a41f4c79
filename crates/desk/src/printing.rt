ghost use Rattle.std.specs.Prelude.{◌≡◌, ◌+◌, ◌≤◌, ◌∷◌, ◌++◌, [], length, true, OnOk};
ghost use Rattle.fields.specs.Written.{columned, in_columns};
ghost use Rattle.desk.specs.Printed.{Filled, event_line, fault_line, order_shown, printed_fault, refusal_shown, signed, signed_columns};

use super::line::{put, put_balance, put_byte};
use super::sink::Sink;
use fields::fault::DayFault;
use rules::letter::Letter;
use rules::refusal::Refusal;

// An event's line that has its line feed alone: a letter and three numbers stand before it.
const BLANK: &[u8; 50] = b"                                                 \n";

// A line that has its line feed alone, with more room than a letter, five numbers of twenty digits with a sign, and a line feed take.
fn wide_line() -> [u8; 128]
    ensures { Filled result 127 (10 ∷ []) }
{
    let mut line = [b' '; 128];
    line[127] = b'\n';
    line
}

// Whether a number has room in sixteen columns, behind a minus where it is below 0. It never takes more than twenty-one.
#[tactic(auto, using(crate::proofs::Filling::room_enough, crate::proofs::Filling::signed_most))]
fn has_room(is_negative: bool, magnitude: u64) -> bool
    ensures room { result ≡ true → length (columned 16 (signed is_negative magnitude)) ≡ 16 }
    ensures most { length (columned 16 (signed is_negative magnitude)) ≤ 21 }
{
    if is_negative {
        magnitude < 1_000_000_000_000_000
    } else {
        magnitude < 10_000_000_000_000_000
    }
}

// A form that the lines of events begin as: spaces, a balance in its columns, and a line feed. The balance seldom moves from one
// event to the next, so it is seldom put there anew.
#[derive(Clone, Copy)]
pub(crate) struct Form {
    pub(crate) balance: i64,
    line: [u8; 50],
    ghost filled: { Filled line 33 (signed_columns balance ++ (10 ∷ [])) },
}

impl Form {
    // The form of a balance.
    fn of(balance: i64) -> Form
        requires { length (signed_columns balance) ≡ 16 }
        ensures { result.balance ≡ balance }
    {
        let mut line = *BLANK;
        put_balance(&mut line, 49, balance);
        Form { balance, line }
    }

    // The form of a balance of 0.
    #[tactic(auto, using(crate::proofs::Filling::zero_room))]
    pub(crate) fn new() -> Form {
        Form::of(0)
    }

    // The line that the form begins as.
    pub(crate) fn line(&self) -> [u8; 50]
        ensures { Filled result 33 (signed_columns self.now.balance ++ (10 ∷ [])) }
    {
        self.line
    }

    // Puts a balance on the form, if it has room in its columns; answers whether it has.
    #[tactic(auto, using(crate::proofs::Filling::balance_room))]
    fn bears(&mut self, balance: i64) -> bool
        ensures { result ≡ true → self.new.balance ≡ balance }
    {
        if self.balance == balance {
            return true;
        }
        let fits = has_room(balance.is_negative(), balance.unsigned_abs());
        if fits {
            *self = Form::of(balance);
        }
        fits
    }
}

// What an event is answered with: the number of its order, 0 where it has none, or its refusal; and the balance after it.
#[derive(Clone, Copy)]
pub(crate) struct EventAnswer {
    pub(crate) letter: Letter,
    pub(crate) shows: Result<u64, Refusal>,
    pub(crate) balance: i64,
}

impl EventAnswer {
    // The refusal's number and the order's, each 0 where there is none.
    fn numbers(&self) -> (u64, u64)
        ensures refusal { result.0 ≡ refusal_shown self.now.shows }
        ensures order { result.1 ≡ order_shown self.now.shows }
    {
        match self.shows {
            Ok(order) => (0, order),
            Err(refusal) => (refusal.number(), 0),
        }
    }

    // Whether the refusal's number and the order's have room in their columns.
    fn is_narrow(&self) -> bool
        ensures refusal { result ≡ true → length (in_columns 16 (refusal_shown self.now.shows)) ≡ 16 }
        ensures order { result ≡ true → length (in_columns 16 (order_shown self.now.shows)) ≡ 16 }
        ensures most { length (in_columns 16 (refusal_shown self.now.shows)) + length (in_columns 16 (order_shown self.now.shows)) ≤ 42 }
    {
        let (refusal, order) = self.numbers();
        has_room(false, refusal) & has_room(false, order)
    }

    // Puts what stands before the balance; answers where the line begins.
    pub(crate) fn put(&self, line: &mut [u8], end: usize) -> usize
        requires room { 1 + length (in_columns 16 (refusal_shown self.now.shows)) + length (in_columns 16 (order_shown self.now.shows)) ≤ end }
        requires within { end ≤ length line.old }
        ensures filled { Filled line.old end (signed_columns self.now.balance ++ (10 ∷ [])) → Filled line.new result (event_line self.now.letter self.now.shows self.now.balance) }
        ensures begins { result + (1 + length (in_columns 16 (refusal_shown self.now.shows)) + length (in_columns 16 (order_shown self.now.shows))) ≡ end }
        ensures size { length line.new ≡ length line.old }
    {
        let (refusal, order) = self.numbers();
        let end = put(line, end, order);
        let end = put(line, end, refusal);
        put_byte(line, end, self.letter.byte())
    }

    // Writes the event's line, on a form where each number has room in its columns.
    pub(crate) fn write<S: Sink>(&self, form: &mut Form, out: &mut S) -> Result<(), S::Full>
        ensures { OnOk result (S.Sink.view out.new ≡ S.Sink.after out.old (event_line self.now.letter self.now.shows self.now.balance)) }
    {
        if !self.is_narrow() || !form.bears(self.balance) {
            return self.write_wide(out);
        }
        out.print(self, form)
    }

    // Writes the event's line, however wide.
    #[cold]
    fn write_wide<S: Sink>(&self, out: &mut S) -> Result<(), S::Full>
        requires { length (in_columns 16 (refusal_shown self.now.shows)) + length (in_columns 16 (order_shown self.now.shows)) ≤ 42 }
        ensures { OnOk result (S.Sink.view out.new ≡ S.Sink.after out.old (event_line self.now.letter self.now.shows self.now.balance)) }
    {
        let mut line = wide_line();
        let end = put_balance(&mut line, 127, self.balance);
        let from = self.put(&mut line, end);
        out.write(&line[from..])
    }
}

// Why an input is turned away: it has more bytes than an input may have, or a line of it has a fault.
#[derive(Clone, Copy)]
pub(crate) enum Fault {
    TooLong,
    Day(DayFault),
}

impl Fault {
    // The cause's number, the column, the letter's byte, the line and the part's number.
    fn numbers(&self) -> (u64, u64, u64, u64, u64)
        ensures { fault_line result.0 result.1 result.2 result.3 result.4 ≡ printed_fault self.now }
    {
        match *self {
            Fault::TooLong => (Refusal::Room.number(), 0, 0, 0, 0),
            Fault::Day(DayFault { line, part }) => (
                line.field.cause.number(),
                line.field.column,
                u64::from(line.letter),
                line.line,
                part.number(),
            ),
        }
    }

    // Writes the fault's line.
    #[tactic(auto, using(crate::proofs::Filling::columns_most))]
    pub(crate) fn write<S: Sink>(&self, out: &mut S) -> Result<(), S::Full>
        ensures { OnOk result (S.Sink.view out.new ≡ S.Sink.after out.old (printed_fault self.now)) }
    {
        let (cause, column, letter, line, part) = self.numbers();
        let mut printed = wide_line();
        let end = put(&mut printed, 127, part);
        let end = put(&mut printed, end, line);
        let end = put(&mut printed, end, letter);
        let end = put(&mut printed, end, column);
        let end = put(&mut printed, end, cause);
        let from = put_byte(&mut printed, end, b'!');
        out.write(&printed[from..])
    }
}
