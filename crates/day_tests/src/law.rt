use history::examples::examples_stand;
use history::law::history_is_conserved;
use history::shares::buys_keep_shares;

#[test]
fn the_law_and_its_examples_stand(rt: HostRuntime) {
    assert!(rt; history_is_conserved());
    assert!(rt; buys_keep_shares());
    assert_eq!(rt; examples_stand(), (905, 1106));
}
