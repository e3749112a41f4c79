use rules::market::Market;

// Leave to send one reserved order to the market: it has to be sent or voided, and either uses it up.
pub struct Pass {
    pub(super) market: Market,
    pub(super) date: u64,
    pub(super) number: u64,
}
