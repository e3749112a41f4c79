ghost use Rattle.std.specs.Prelude.{◌≡◌, Some, None, MatchResult};
ghost use Rattle.rules.specs.Markets.{market_numbered};
ghost use Rattle.rules.specs.Rules.{first_broken};
ghost use Rattle.gate.specs.Opened.{opened, opening_rules, OpenedBy};

use super::day::{LoadingDay, TradingDay};
use super::figures::Figures;
use rules::market::Market;
use rules::phase::Phase;
use rules::range::Quantity;
use rules::refusal::Refusal;

impl LoadingDay {
    // The trading day of a market, a date and a quota. It takes any numbers, the market's too; one that is out of its range
    // gives the loading day back.
    pub fn open(
        self,
        market: u64,
        date: u64,
        quota: u64,
    ) -> Result<TradingDay, (LoadingDay, Refusal)>
        ensures { MatchResult result (λ day. OpenedBy market date quota day.figures) (λ back. Some back.1 ≡ first_broken (opening_rules market date quota)) }
    {
        let Ok(at) = Market::try_from(market) else {
            return Err((self, Refusal::Range));
        };
        if !Quantity::Date.has(date) {
            return Err((self, Refusal::Range));
        }
        if !Quantity::Quota.has(quota) {
            return Err((self, Refusal::Range));
        }
        let LoadingDay {} = self;
        let balance = quota as i64;
        Ok(TradingDay {
            figures: Figures {
                market: at,
                date,
                quota,
                balance,
                phase: Phase::OpeningCall,
                shut: false,
                count: 0,
            },
        })
    }
}
