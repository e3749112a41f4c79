ghost use Rattle.std.specs.Prelude.{◌≡◌, ℕ, ◌<◌, ◌≤◌, ◌^◌, List, [], ◌∷◌, length, Ok, Result as Answer};
ghost use Rattle.rules.specs.declared.letter.Letter.{Letter as a_letter};
ghost use Rattle.tables.specs.declared.rows.Holding.{Holding as a_holding};
ghost use Rattle.fields.specs.Layout.{width_of};
ghost use Rattle.std.proofs.Common.{rules};
ghost use Rattle.rules.specs.declared.letter.Letter.TheVariants as letter;
ghost use Rattle.rules.specs.declared.range.Quantity.TheVariants as quantity;
ghost use Rattle.rules.specs.Ranges.{range_of};
ghost use Rattle.fields.specs.Faults.{and_then};
ghost use Rattle.fields.specs.Reading.{ranging};
ghost use Rattle.fields.specs.declared.fault.FieldFault.{FieldFault as a_fault};
ghost use Rattle.dayfile.specs.Rows.{security_of, held_of, holding_of, account_holding_of, designation_of, out_of_place, misplaced, line_of};

use fields::fault::FieldFault;
use fields::field::Field;
use fields::line::DayLine;
use rules::buying::Buying;
use rules::letter::Letter;
use rules::price::PriceBand;
use rules::range::Quantity;
use rules::refusal::Refusal;
use tables::owner::{Account, Owner, Participant};
use tables::rows::{AccountHolding, Designation, Holding, ParticipantHolding, Security};

// Judges the fields of a line, whatever its kind.
fn judge(line: &[u8]) -> Result<(), FieldFault>
    ensures { out_of_place result ≡ misplaced line.now }
{
    match DayLine::cut(line)? {
        DayLine::Day {
            market,
            date,
            quota,
        } => {
            market.ranged(Quantity::Market)?;
            date.ranged(Quantity::Date)?;
            quota.ranged(Quantity::Quota)?;
        }
        DayLine::Security {
            code,
            mode,
            close,
            band,
        } => {
            code.ranged(Quantity::Code)?;
            mode.ranged(Quantity::Mode)?;
            close.ranged(Quantity::Close)?;
            band.ranged(Quantity::Band)?;
        }
        DayLine::Holding {
            participant,
            code,
            shares,
        } => {
            participant.ranged(Quantity::Participant)?;
            code.ranged(Quantity::Code)?;
            shares.ranged(Quantity::Holding)?;
        }
        DayLine::AccountHolding {
            account,
            code,
            shares,
        } => {
            account.ranged(Quantity::Account)?;
            code.ranged(Quantity::Code)?;
            shares.ranged(Quantity::Holding)?;
        }
        DayLine::Designation {
            account,
            participant,
        } => {
            account.ranged(Quantity::Account)?;
            participant.ranged(Quantity::Participant)?;
        }
        DayLine::End {
            securities,
            holdings,
            account_holdings,
            designations,
        } => {
            securities.ranged(Quantity::Lines)?;
            holdings.ranged(Quantity::Lines)?;
            account_holdings.ranged(Quantity::Lines)?;
            designations.ranged(Quantity::Lines)?;
        }
    }
    Ok(())
}

// The fault of a line where another kind has to stand: a fault of its own fields comes first.
pub(crate) fn out_of_group(line: &[u8]) -> FieldFault
    ensures { result ≡ misplaced line.now }
{
    match judge(line) {
        Ok(()) => FieldFault {
            cause: Refusal::Sequence,
            column: 1,
        },
        Err(f) => f,
    }
}

// The number of a field in the range of a quantity whose numbers have 32 bits.
fn short(field: Field, quantity: Quantity) -> Result<u32, FieldFault>
    requires { (range_of quantity).most < 2 ^ 32 }
    ensures { result ≡ ranging quantity field.entry.bytes.now field.entry.column }
{
    let n = field.ranged(quantity)?;
    Ok(n as u32)
}

// The row of an S line's numbers.
fn listed(code: u32, mode: u64, close: u32, percent: u64) -> Result<Security, FieldFault>
    ensures { result ≡ security_of (code ∷ (mode ∷ (close ∷ (percent ∷ [])))) }
{
    let buying = Buying::try_from(mode).map_err(|cause| FieldFault { cause, column: 18 })?;
    let band = PriceBand::try_from(percent).map_err(|cause| FieldFault { cause, column: 50 })?;
    Ok(Security {
        code,
        buying,
        close,
        band,
    })
}

pub(crate) fn security(line: &[u8]) -> Result<Security, FieldFault>
    ensures { result ≡ line_of letter.Security security_of line.now }
{
    match DayLine::cut(line)? {
        DayLine::Security {
            code,
            mode,
            close,
            band,
        } => {
            let code = short(code, Quantity::Code)?;
            let mode = mode.ranged(Quantity::Mode)?;
            let close = short(close, Quantity::Close)?;
            let percent = band.ranged(Quantity::Band)?;
            listed(code, mode, close, percent)
        }
        _ => Err(out_of_group(line)),
    }
}

// The holding that the fields of a line give: all of the shares may be sold.
fn held<O: Owner>(owner: Field, code: Field, shares: Field) -> Result<Holding<O>, FieldFault>
    ensures { result ≡ and_then (ranging O.NUMBERS owner.entry.bytes.now owner.entry.column) (λ o. and_then (ranging quantity.Code code.entry.bytes.now code.entry.column) (λ c. and_then (ranging quantity.Holding shares.entry.bytes.now shares.entry.column) (λ s. held_of O.of (o ∷ (c ∷ (s ∷ [])))))) }
{
    let owner = O::of(short(owner, O::NUMBERS)?);
    let code = short(code, Quantity::Code)?;
    let opening = shares.ranged(Quantity::Holding)?;
    Ok(Holding {
        owner,
        code,
        opening,
        sellable: opening,
    })
}

// An owner whose holdings have lines of their own.
pub(crate) trait HeldLine: Owner {
    ghost letter: { a_letter };

    ghost gives: { List ℕ → Answer (a_holding Self) a_fault };

    fn letter() -> Letter
        ensures { result ≡ letter };

    fn holding(line: &[u8]) -> Result<Holding<Self>, FieldFault>
        ensures { result ≡ line_of letter gives line.now };

    ghost long: { (line : List ℕ) (x : a_holding Self) → line_of letter gives line ≡ Ok x → width_of letter ≤ length line };
}

impl HeldLine for Participant {
    ghost letter = { letter.Holding };

    ghost gives = { holding_of };

    ghost long = { Prim.search rules };

    fn letter() -> Letter {
        Letter::Holding
    }

    fn holding(line: &[u8]) -> Result<ParticipantHolding, FieldFault> {
        match DayLine::cut(line)? {
            DayLine::Holding {
                participant,
                code,
                shares,
            } => held(participant, code, shares),
            _ => Err(out_of_group(line)),
        }
    }
}

impl HeldLine for Account {
    ghost letter = { letter.AccountHolding };

    ghost gives = { account_holding_of };

    ghost long = { Prim.search rules };

    fn letter() -> Letter {
        Letter::AccountHolding
    }

    fn holding(line: &[u8]) -> Result<AccountHolding, FieldFault> {
        match DayLine::cut(line)? {
            DayLine::AccountHolding {
                account,
                code,
                shares,
            } => held(account, code, shares),
            _ => Err(out_of_group(line)),
        }
    }
}

pub(crate) fn designation(line: &[u8]) -> Result<Designation, FieldFault>
    ensures { result ≡ line_of letter.Designation designation_of line.now }
{
    match DayLine::cut(line)? {
        DayLine::Designation {
            account,
            participant,
        } => {
            let account = short(account, Quantity::Account)?;
            let participant = short(participant, Quantity::Participant)?;
            Ok(Designation {
                account,
                participant,
            })
        }
        _ => Err(out_of_group(line)),
    }
}
