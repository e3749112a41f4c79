use rules::price::PriceBand;
use rules::side::Side;

#[test]
fn limits_are_rounded_to_the_nearest_fen_a_half_upwards(rt: HostRuntime) {
    assert_eq!(rt; PriceBand::Ten.lowest(1005), 905);
    assert_eq!(rt; PriceBand::Ten.highest(1005), 1106);
    assert_eq!(rt; PriceBand::Five.lowest(905), 860);
    assert_eq!(rt; PriceBand::Five.highest(905), 950);
    assert_eq!(rt; PriceBand::Ten.lowest(900_000), 810_000);
    assert_eq!(rt; PriceBand::Ten.highest(900_000), 990_000);
}

#[test]
fn buys_are_in_hundreds_and_sells_are_not(rt: HostRuntime) {
    let buy = Side::Buy.lot();
    assert!(rt; buy.has(100));
    assert!(rt; buy.has(1_000_000));
    assert!(rt; !buy.has(0));
    assert!(rt; !buy.has(150));
    assert!(rt; !buy.has(1_000_100));
    let sell = Side::Sell.lot();
    assert!(rt; sell.has(1));
    assert!(rt; sell.has(1_000_000));
    assert!(rt; !sell.has(0));
    assert!(rt; !sell.has(1_000_001));
}
