ghost use Rattle.std.specs.Prelude.{◌≡◌, ℕ, ◌+◌, ◌*◌, ◌<◌, ◌≤◌, true, false, Some, map, length};
ghost use Rattle.lookup.specs.Lookup.{Parted, PartedAmong, is_before, before_at, rise};

use super::key::{Key, Row};

// Whether a row that is present is before the key.
fn is_before<R: Row>(row: &R, key: &R::Key) -> bool
    ensures { result ≡ is_before R.Key.cmp key.now (Some (R.presumed row.now)) }
{
    row.presumed_key().precedes(*key)
}

// How many of three rows are before the key, which stand a quarter apart: where rows rise, these are the first so many. All three
// are compared whatever one of them says, so that there is no branch for the processor to guess, and none waits for another.
fn quarters_before<R: Row>(rows: &[R], from: usize, quarter: usize, key: &R::Key) -> usize
    requires { from + 3 * quarter < length rows.now }
    ensures most { result ≤ 3 }
    ensures below { rise R.Key.cmp R.named rows.now ≡ true → 0 < result → before_at R.Key.cmp key.now (map R.named rows.now) (from + result * quarter) ≡ true }
    ensures at { rise R.Key.cmp R.named rows.now ≡ true → result < 3 → before_at R.Key.cmp key.now (map R.named rows.now) (from + (result + 1) * quarter) ≡ false }
{
    let first = is_before(&rows[from + quarter], key);
    let second = is_before(&rows[from + 2 * quarter], key);
    let third = is_before(&rows[from + 3 * quarter], key);
    usize::from(first) + usize::from(second) + usize::from(third)
}

// The place that parts rows that rise, where it is known to be one of a few: each of these rows that is before the key moves it on.
fn parted_among<R: Row>(rows: &[R], from: usize, size: usize, key: &R::Key) -> usize
    requires { from + size ≤ length rows.now }
    ensures within { result ≤ length rows.now }
    ensures parts { rise R.Key.cmp R.named rows.now ≡ true → PartedAmong R.Key.cmp key.now (map R.named rows.now) from size → Parted R.Key.cmp key.now (map R.named rows.now) result }
{
    let mut parting = from;
    for place in from..from + size {
        parting += usize::from(is_before(&rows[place], key));
    }
    parting
}

// A search by halving: where the rows rise, the place that parts them is among so many of them from one place on.
#[derive(Drop)]
struct Search<'s, R: Row> {
    rows: &'s [R],
    key: &'s R::Key,
    from: usize,
    size: usize,
    ghost within: { from + size ≤ length rows.now },
    ghost among: { rise R.Key.cmp R.named rows.now ≡ true → PartedAmong R.Key.cmp key.now (map R.named rows.now) from size },
}

impl<'s, R: Row> Search<'s, R> {
    // A search among all rows.
    fn of(rows: &'s [R], key: &'s R::Key) -> Search<'s, R>
        ensures rows { result.rows.now ≡ rows.now }
        ensures key { result.key.now ≡ key.now }
    {
        Search {
            rows,
            key,
            from: 0,
            size: rows.len(),
        }
    }
}

impl<R: Row> Search<'_, R> {
    // Halves twice, unless a few rows are left.
    fn narrow(&mut self)
        ensures rows { self.new.rows.now ≡ self.old.rows.now }
        ensures key { self.new.key.now ≡ self.old.key.now }
        ensures most { self.new.size ≤ self.old.size }
        ensures less { 3 < self.old.size → self.new.size < self.old.size }
    {
        if self.size > 3 {
            let quarter = self.size / 4;
            let passed = quarters_before(self.rows, self.from, quarter, self.key);
            *self = Search {
                rows: self.rows,
                key: self.key,
                from: self.from + quarter * passed,
                size: self.size - 3 * quarter,
            };
        }
    }

    // The place that parts the rows: each of those that are left is compared.
    fn parting(&self) -> usize
        ensures within { result ≤ length self.now.rows.now }
        ensures parts { rise R.Key.cmp R.named self.now.rows.now ≡ true → Parted R.Key.cmp self.now.key.now (map R.named self.now.rows.now) result }
    {
        parted_among(self.rows, self.from, self.size, self.key)
    }
}

// The place that parts rows that rise.
pub(crate) fn before<R: Row>(rows: &[R], key: &R::Key) -> usize
    ensures within { result ≤ length rows.now }
    ensures parts { rise R.Key.cmp R.named rows.now ≡ true → Parted R.Key.cmp key.now (map R.named rows.now) result }
{
    let mut search = Search::of(rows, key);
    'quarters: while search.size > 3 {
        search.narrow();
    }
    search.parting()
}

// The places that part two tables of rows, the one search beside the other.
pub(crate) fn both_before<R: Row, S: Row>(
    rows: &[R],
    key: &R::Key,
    others: &[S],
    other: &S::Key,
) -> (usize, usize)
    ensures within { result.0 ≤ length rows.now }
    ensures parts { rise R.Key.cmp R.named rows.now ≡ true → Parted R.Key.cmp key.now (map R.named rows.now) result.0 }
    ensures others_within { result.1 ≤ length others.now }
    ensures others_parts { rise S.Key.cmp S.named others.now ≡ true → Parted S.Key.cmp other.now (map S.named others.now) result.1 }
{
    let mut search = Search::of(rows, key);
    let mut beside = Search::of(others, other);
    'quarters: while search.size > 3 || beside.size > 3 {
        search.narrow();
        beside.narrow();
    }
    (search.parting(), beside.parting())
}
