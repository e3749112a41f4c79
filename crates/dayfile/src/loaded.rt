use fields::rest::Rest;
use gate::day::TradingDay;

// A day that is loaded: it trades, and its events are what is left of the input.
pub struct Loaded<'a> {
    pub day: TradingDay,
    pub events: Rest<'a>,
}
