ghost use Rattle.std.specs.Prelude.{◌≡◌, ◌<◌, true, IfOk, IfSome, Some};
ghost use Rattle.rules.specs.Rules.{first_broken, refusal_in};
ghost use Rattle.tables.specs.Tables.{lines_of};
ghost use Rattle.tables.specs.Rows.{security_present};
ghost use Rattle.gate.specs.Balances.{most_orders};
ghost use Rattle.gate.specs.Desks.{line_of};
ghost use Rattle.gate.specs.Reserves.{request_rules, beyond_limits, buy_rules};

use super::figures::Figures;
use orders::order::Request;
use rules::range::Quantity;
use rules::refusal::Refusal;
use tables::rows::Security;
use tables::table::SecurityList;

// A day takes so many orders at the most.
const MOST_ORDERS: u64 = 50_000;

// The line of a code, if it is listed.
fn line_of(list: &SecurityList, code: u64) -> Option<Security>
    ensures is { result ≡ line_of (lines_of list.now) code }
    ensures present { IfSome result (λ s. security_present s ≡ true) }
{
    list.line(list.place(&code)?)
}

// Whether a price is below the day's lowest of a security, or above its highest.
fn is_beyond_limits(security: Security, price: u64) -> bool
    ensures { result ≡ beyond_limits security price }
{
    let (price, close) = (u128::from(price), u64::from(security.close));
    price < security.band.lowest(close) || price > security.band.highest(close)
}

// The listed security of a request that keeps the rules of every request.
pub(super) fn security_for(
    f: Figures,
    list: &SecurityList,
    room: usize,
    request: Request,
) -> Result<Security, Refusal>
    ensures answer { refusal_in result ≡ first_broken (request_rules f (line_of (lines_of list.now) request.code) room request) }
    ensures line { IfOk result (λ s. line_of (lines_of list.now) request.code ≡ Some s) }
    ensures present { IfOk result (λ s. security_present s ≡ true) }
    ensures few { IfOk result (λ s. f.count < most_orders) }
{
    if !f.phase.takes_orders() {
        return Err(Refusal::Hours);
    }
    if f.count >= room as u64 || f.count >= MOST_ORDERS {
        return Err(Refusal::Full);
    }
    let security = line_of(list, request.code).ok_or(Refusal::Code)?;
    if is_beyond_limits(security, request.price) {
        return Err(Refusal::Price);
    }
    if !request.side.lot().has(request.shares) {
        return Err(Refusal::Lot);
    }
    if !Quantity::Participant.has(request.participant) {
        return Err(Refusal::Account);
    }
    Ok(security)
}

// Whether a buy keeps the further rules of its side.
pub(super) fn check_buy(f: Figures, security: Security, request: Request) -> Result<(), Refusal>
    ensures { refusal_in result ≡ first_broken (buy_rules f (Some security) request) }
{
    if request.account != 0 {
        return Err(Refusal::Account);
    }
    if let Some(refusal) = security.buying.refusal() {
        return Err(refusal);
    }
    if f.shut || f.balance <= 0 {
        return Err(Refusal::Quota);
    }
    Ok(())
}
