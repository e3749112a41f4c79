use lookup::key::Pair;

// The lines so far of one account: the last one's key, and how many participants it has named.
#[derive(Clone, Copy)]
pub struct Run {
    pub last: Pair,
    pub named: u64,
}
