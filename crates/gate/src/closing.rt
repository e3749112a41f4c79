ghost use Rattle.std.specs.Prelude.{◌≡◌, IfNone, Some, MatchResult};
ghost use Rattle.rules.specs.Rules.{first_broken};
ghost use Rattle.gate.specs.Closed.{ClosedOver, NothingInFlight, all_done, all_sound, closing_rules};

use super::day::{ClosedDay, TradingDay};
use super::figures::Figures;
use orders::order::{Order, State};
use rules::refusal::Refusal;

// Whether each record is sound.
fn are_sound(records: &[Order]) -> bool
    ensures { result ≡ all_sound records.now }
{
    records.iter().all(|order| order.is_sound())
}

// Whether each record is done.
fn are_done(records: &[Order]) -> bool
    ensures { result ≡ all_done records.now }
{
    records.iter().all(|order| order.state == State::Done)
}

impl TradingDay {
    // The first rule of closing that is broken, over the day's book.
    pub fn closing_refusal(&self, book: &[Order]) -> Option<Refusal>
        ensures answer { result ≡ first_broken (closing_rules self.now.figures book.now) }
        ensures flight { IfNone result (NothingInFlight self.now.figures book.now) }
    {
        let count = self.figures.count as usize;
        if book.len() < count {
            return Some(Refusal::Unsound);
        }
        let records = &book[..count];
        if !are_sound(records) {
            return Some(Refusal::Unsound);
        }
        if !self.figures.phase.closes() || !are_done(records) {
            return Some(Refusal::Business);
        }
        None
    }

    // Ends the day with its figures, after hours and where each of its orders is sound and done; else the trading day comes
    // back as it was.
    pub fn close(self, book: &[Order]) -> Result<ClosedDay, (TradingDay, Refusal)>
        ensures { MatchResult result (λ closed. ClosedOver self.figures book.now closed.figures) (λ back. (first_broken (closing_rules self.figures book.now) ≡ Some back.1) × (back.0.figures ≡ self.figures)) }
    {
        if let Some(refusal) = self.closing_refusal(book) {
            return Err((self, refusal));
        }
        let TradingDay { figures } = self;
        Ok(ClosedDay { figures })
    }

    // Leaves the day where it stands, with its figures.
    pub fn leave(self) -> Figures
        ensures { result ≡ self.figures }
    {
        let TradingDay { figures: left } = self;
        left
    }
}

impl ClosedDay {
    // The figures that the day ended with.
    pub fn figures(self) -> Figures
        ensures { result ≡ self.figures }
    {
        let ClosedDay { figures } = self;
        figures
    }
}
