ghost use Rattle.std.specs.Prelude.{◌≡◌, ◌+◌, ◌*◌, ◌<◌, ◌≤◌, length, Ok, Err, MatchResult, slice_index};
ghost use Rattle.rules.specs.declared.letter.Letter.TheVariants as letters;
ghost use Rattle.rules.specs.Sides.{by_side};
ghost use Rattle.fields.specs.Layout.{FieldAt, MadeFrom, closing, opening, day_letters, event_letters, width_of};
ghost use Rattle.fields.specs.declared.field.Field.{Field};
ghost use Rattle.fields.specs.Lines.{day_letter_of, DayFieldsOf, event_letter_of, EventFieldsOf};
ghost use Rattle.fields.specs.Numbers.{ReadsBack};

use super::fault::FieldFault;
use super::field::Field;
use rules::letter::Letter;
use rules::refusal::Refusal;
use rules::side::Side;
use std::array::from_fn;

// A line of the day part: its letter is the case, its fields are parts of the input.
#[derive(Clone, Copy)]
pub enum DayLine<'a> {
    Day {
        market: Field<'a>,
        date: Field<'a>,
        quota: Field<'a>,
    },
    Security {
        code: Field<'a>,
        mode: Field<'a>,
        close: Field<'a>,
        band: Field<'a>,
    },
    Holding {
        participant: Field<'a>,
        code: Field<'a>,
        shares: Field<'a>,
    },
    AccountHolding {
        account: Field<'a>,
        code: Field<'a>,
        shares: Field<'a>,
    },
    Designation {
        account: Field<'a>,
        participant: Field<'a>,
    },
    End {
        securities: Field<'a>,
        holdings: Field<'a>,
        account_holdings: Field<'a>,
        designations: Field<'a>,
    },
}

// A line of the event part.
#[derive(Clone, Copy)]
pub enum EventLine<'a> {
    Step,
    Notice {
        code: Field<'a>,
        foreign: Field<'a>,
        total: Field<'a>,
    },
    Link {
        state: Field<'a>,
    },
    Request {
        side: Side,
        participant: Field<'a>,
        account: Field<'a>,
        code: Field<'a>,
        price: Field<'a>,
        shares: Field<'a>,
    },
    Trade {
        order: Field<'a>,
        shares: Field<'a>,
        price: Field<'a>,
    },
    Return {
        order: Field<'a>,
    },
    Confirm {
        order: Field<'a>,
    },
    Decline {
        order: Field<'a>,
    },
    Cancel {
        order: Field<'a>,
        participant: Field<'a>,
    },
    Close,
}

const LENGTH: FieldFault = FieldFault {
    cause: Refusal::Length,
    column: 1,
};

const LETTER: FieldFault = FieldFault {
    cause: Refusal::Letter,
    column: 1,
};

impl<'a> DayLine<'a> {
    // The day line that the input goes on with, as its fields.
    #[inline(always)]
    pub fn cut(rest: &'a [u8]) -> Result<DayLine<'a>, FieldFault>
        ensures { MatchResult result (λ l. (opening day_letters rest.now ≡ Ok (day_letter_of l)) × DayFieldsOf rest.now l) (λ f. opening day_letters rest.now ≡ Err f) }
    {
        let Some(&letter) = rest.first() else {
            return Err(LENGTH);
        };
        match letter as char {
            'D' => {
                let [market, date, quota] = parts::<_, 3>(rest)?;
                Ok(DayLine::Day {
                    market,
                    date,
                    quota,
                })
            }
            'S' => {
                let [code, mode, close, band] = parts::<_, 4>(rest)?;
                Ok(DayLine::Security {
                    code,
                    mode,
                    close,
                    band,
                })
            }
            'P' => {
                let [participant, code, shares] = parts::<_, 3>(rest)?;
                Ok(DayLine::Holding {
                    participant,
                    code,
                    shares,
                })
            }
            'A' => {
                let [account, code, shares] = parts::<_, 3>(rest)?;
                Ok(DayLine::AccountHolding {
                    account,
                    code,
                    shares,
                })
            }
            'G' => {
                let [account, participant] = parts::<_, 2>(rest)?;
                Ok(DayLine::Designation {
                    account,
                    participant,
                })
            }
            'E' => {
                let [securities, holdings, account_holdings, designations] = parts::<_, 4>(rest)?;
                Ok(DayLine::End {
                    securities,
                    holdings,
                    account_holdings,
                    designations,
                })
            }
            _ => Err(LETTER),
        }
    }
}

impl<'a> EventLine<'a> {
    // The event line that the input goes on with, as its fields.
    pub fn cut(rest: &'a [u8]) -> Result<EventLine<'a>, FieldFault>
        ensures { MatchResult result (λ l. (opening event_letters rest.now ≡ Ok (event_letter_of l)) × EventFieldsOf rest.now l) (λ f. opening event_letters rest.now ≡ Err f) }
    {
        let Some(&letter) = rest.first() else {
            return Err(LENGTH);
        };
        match letter as char {
            'H' => {
                ended(rest, 0)?;
                Ok(EventLine::Step)
            }
            'F' => {
                let [code, foreign, total] = parts::<_, 3>(rest)?;
                Ok(EventLine::Notice {
                    code,
                    foreign,
                    total,
                })
            }
            'U' => {
                let [state] = parts::<_, 1>(rest)?;
                Ok(EventLine::Link { state })
            }
            'B' => EventLine::request(rest, Side::Buy),
            'L' => EventLine::request(rest, Side::Sell),
            'T' => {
                let [order, shares, price] = parts::<_, 3>(rest)?;
                Ok(EventLine::Trade {
                    order,
                    shares,
                    price,
                })
            }
            'R' => {
                let [order] = parts::<_, 1>(rest)?;
                Ok(EventLine::Return { order })
            }
            'Y' => {
                let [order] = parts::<_, 1>(rest)?;
                Ok(EventLine::Confirm { order })
            }
            'N' => {
                let [order] = parts::<_, 1>(rest)?;
                Ok(EventLine::Decline { order })
            }
            'C' => {
                let [order, participant] = parts::<_, 2>(rest)?;
                Ok(EventLine::Cancel { order, participant })
            }
            'Z' => {
                ended(rest, 0)?;
                Ok(EventLine::Close)
            }
            _ => Err(LETTER),
        }
    }

    // The line of an order of the side.
    fn request(line: &'a [u8], side: Side) -> Result<EventLine<'a>, FieldFault>
        ensures { MatchResult result (λ l. (closing line.now 5 ≡ Ok tt) × (event_letter_of l ≡ by_side side letters.Buy letters.Sell) × EventFieldsOf line.now l) (λ f. closing line.now 5 ≡ Err f) }
    {
        let [participant, account, code, price, shares] = parts::<_, 5>(line)?;
        Ok(EventLine::Request {
            side,
            participant,
            account,
            code,
            price,
            shares,
        })
    }
}

// How many bytes a line of the letter takes: lines are read back as they are written.
pub fn line_width(letter: Letter) -> usize
    ensures is { result ≡ width_of letter }
    ensures back { ReadsBack letter }
{
    2 + 16 * letter.fields()
}

// The byte that a line begins with, 0 where no line begins.
pub fn first_byte(line: &[u8]) -> u8
    ensures { result ≡ slice_index line.now 0 }
{
    line.first().copied().unwrap_or(0)
}

// The N fields of a line, if a line feed stands straight after the last. Each is a T that is made of it: no array of
// references has a length that is a parameter.
fn parts<'a, T: From<Field<'a>>, const N: usize>(line: &'a [u8]) -> Result<[T; N], FieldFault>
    requires { N < 6 }
    ensures { MatchResult result (λ xs. (closing line.now N ≡ Ok tt) × MadeFrom T.from_gives line.now xs 0 N) (λ f. closing line.now N ≡ Err f) }
{
    ended(line, N)?;
    Ok(from_fn(
        |j: usize| -> T
            requires few { j < 5 }
            requires long { 17 + 16 * j ≤ length line.now }
            ensures { (f : Field) × FieldAt line.entry.now j f × T.from_gives f result }
        { T::from(part(line, j)) },
    ))
}

// The field j of a line, counted from 0.
fn part(line: &[u8], j: usize) -> Field<'_>
    requires few { j < 5 }
    requires long { 17 + 16 * j ≤ length line.now }
    ensures { FieldAt line.now j result }
{
    let from = 1 + 16 * j;
    let (bytes, _) = line[from..].split_first_chunk::<16>().unwrap();
    Field {
        bytes,
        column: (from + 1) as u16,
    }
}

// Whether a line feed stands straight after the last of n fields.
fn ended(line: &[u8], n: usize) -> Result<(), FieldFault>
    requires { n < 6 }
    ensures { result ≡ closing line.now n }
{
    let at = 1 + 16 * n;
    if line.get(at) == Some(&b'\n') {
        Ok(())
    } else {
        Err(LENGTH)
    }
}
