ghost use Rattle.std.specs.Prelude.{◌≡◌, ◌-◌, ◌<◌, IfOk, length};
ghost use Rattle.rules.specs.declared.refusal.Refusal.TheVariants as refusal;
ghost use Rattle.rules.specs.Rules.{refusal_in, when};
ghost use Rattle.gate.specs.Calls.{other_day};
ghost use Rattle.gate.specs.Desks.{no_record};

use super::figures::Figures;
use super::pass::Pass;
use orders::order::Order;
use rules::refusal::Refusal;

// The place of the record of an order's number in the book, or the refusal where there is none.
pub(super) fn place_of(
    f: Figures,
    book: &[Order],
    number: u64,
    otherwise: Refusal,
) -> Result<usize, Refusal>
    ensures answer { refusal_in result ≡ when (no_record f book.now number) otherwise }
    ensures place { IfOk result (λ place. place ≡ number - 1) }
    ensures within { IfOk result (λ place. place < length book.now) }
{
    if number == 0 || number > f.count || number > book.len() as u64 {
        return Err(otherwise);
    }
    Ok((number - 1) as usize)
}

// Uses a pass up, and answers its order's number if it is of this day.
pub(super) fn spend(f: Figures, pass: Pass) -> Result<u64, Refusal>
    ensures answer { refusal_in result ≡ when (other_day f pass) refusal.Pass }
    ensures number { IfOk result (λ number. number ≡ pass.number) }
{
    let Pass {
        market,
        date,
        number,
    } = pass;
    if market != f.market || date != f.date {
        return Err(Refusal::Pass);
    }
    Ok(number)
}
