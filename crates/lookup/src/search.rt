ghost use Rattle.std.specs.Prelude.{◌≡◌, ◌≤◌, length, true, [], ◌∷◌, ◌++◌, map};
ghost use Rattle.lookup.specs.Orders.{pair_order};
ghost use Rattle.lookup.specs.Lookup.{seek, Found, Held, Parted, is_at, is_above, rise, Rising, is_of, some_of};

use super::halving::{before, both_before};
use super::key::{Key, Pair, Row};
use std::cmp::Ordering;

// The place of the first present row that is not before the key, if it has the key.
pub fn find<R: Row>(rows: &[R], key: &R::Key) -> Option<usize>
    ensures is { result ≡ seek R.Key.cmp 0 (map R.named rows.now) key.now }
    ensures means { Found R.Key.cmp (map R.named rows.now) key.now result }
{
    for (i, row) in rows.iter().enumerate() {
        if let Some(k) = row.key() {
            match k.cmp(key) {
                Ordering::Less => {}
                Ordering::Equal => return Some(i),
                Ordering::Greater => return None,
            }
        }
    }
    None
}

// Whether a row that is present has the key.
fn is_at<R: Row>(row: &R, key: &R::Key) -> bool
    ensures { result ≡ is_at R.Key.cmp key.now (Some (R.presumed row.now)) }
{
    row.presumed_key().cmp(key).is_eq()
}

// The place that parts rows that rise, if the row there has the key.
fn found<R: Row>(rows: &[R], parting: usize, key: &R::Key) -> Option<usize>
    requires { parting ≤ length rows.now }
    ensures { rise R.Key.cmp R.named rows.now ≡ true → Parted R.Key.cmp key.now (map R.named rows.now) parting → result ≡ seek R.Key.cmp 0 (map R.named rows.now) key.now }
{
    let row = rows.get(parting)?;
    if is_at(row, key) { Some(parting) } else { None }
}

// What `find` finds where the rows rise, by halving.
fn find_rising<R: Row>(rows: &[R], key: &R::Key) -> Option<usize>
    ensures { rise R.Key.cmp R.named rows.now ≡ true → result ≡ seek R.Key.cmp 0 (map R.named rows.now) key.now }
{
    found(rows, before(rows, key), key)
}

// Whether a row is present and has the key.
fn has_key<R: Row>(row: &R, key: &R::Key) -> bool
    ensures { result ≡ is_at R.Key.cmp key.now (R.named row.now) }
{
    row.key().is_some_and(|k| k.cmp(key).is_eq())
}

// The same, where the row that is found is asked whether it is present, since the rows may not rise.
fn held_rising<R: Row>(rows: &[R], key: &R::Key) -> Option<usize>
    ensures is { rise R.Key.cmp R.named rows.now ≡ true → result ≡ seek R.Key.cmp 0 (map R.named rows.now) key.now }
    ensures held { Held (map R.named rows.now) key.now result }
{
    let place = before(rows, key);
    let row = rows.get(place)?;
    if has_key(row, key) { Some(place) } else { None }
}

// What `find` finds: by halving where the rows are said to rise, else by a walk. Whatever is said of them, a place that is found is
// that of a row of the key.
pub fn look<R: Row>(rows: &[R], key: &R::Key, rising: bool) -> Option<usize>
    ensures is { (rising ≡ true → rise R.Key.cmp R.named rows.now ≡ true) → result ≡ seek R.Key.cmp 0 (map R.named rows.now) key.now }
    ensures means { (rising ≡ true → rise R.Key.cmp R.named rows.now ≡ true) → Found R.Key.cmp (map R.named rows.now) key.now result }
    ensures held { Held (map R.named rows.now) key.now result }
{
    if rising {
        held_rising(rows, key)
    } else {
        find(rows, key)
    }
}

// Whether a key is above the last one, if there is a last one.
fn follows<K: Key>(last: &Option<K>, k: &K) -> bool
    ensures { result ≡ is_above K.cmp last.now k.now }
{
    last.is_none_or(|l| l.cmp(k).is_lt())
}

// Whether every row is present, and each key is above the one before it.
pub fn rises<R: Row>(rows: &[R]) -> bool
    ensures is { result ≡ rise R.Key.cmp R.named rows.now }
    ensures sound { result ≡ true → Rising R.Key.cmp (map R.named rows.now) }
    ensures whole { Rising R.Key.cmp (map R.named rows.now) → result ≡ true }
{
    let mut last: Option<R::Key> = None;
    for row in rows {
        let Some(k) = row.key() else {
            return false;
        };
        if !follows(&last, &k) {
            return false;
        }
        last = Some(k);
    }
    true
}

fn is_of<R: Row<Key = Pair>>(row: &R, first: u64) -> bool
    ensures { result ≡ is_of first (R.named row.now) }
{
    row.key().is_some_and(|k| k.first == first)
}

// Whether some present row has the first number in its key, by a walk.
fn holds_walk<R: Row<Key = Pair>>(rows: &[R], first: u64) -> bool
    ensures { result ≡ some_of first (map R.named rows.now) }
{
    rows.iter().any(|row| is_of(row, first))
}

// The same where the rows rise, by halving: the first row that is not before the least key of the number tells.
fn holds_rising<R: Row<Key = Pair>>(rows: &[R], first: u64) -> bool
    ensures { rise pair_order R.named rows.now ≡ true → result ≡ some_of first (map R.named rows.now) }
{
    let i = before(rows, &Pair { first, second: 0 });
    let Some(row) = rows.get(i) else {
        return false;
    };
    is_of(row, first)
}

// Whether some present row has the first number in its key: by halving where the rows are said to rise, else by a walk.
pub fn holds<R: Row<Key = Pair>>(rows: &[R], first: u64, rising: bool) -> bool
    ensures { (rising ≡ true → rise pair_order R.named rows.now ≡ true) → result ≡ some_of first (map R.named rows.now) }
{
    if rising {
        holds_rising(rows, first)
    } else {
        holds_walk(rows, first)
    }
}

// Whether rows that are known to rise, or not to, rise with one more row behind them.
pub fn rises_with<R: Row>(rows: &[R], row: &R, rising: bool) -> bool
    ensures { rising ≡ rise R.Key.cmp R.named rows.now → result ≡ rise R.Key.cmp R.named (rows.now ++ row.now ∷ []) }
{
    if !rising {
        return false;
    }
    let Some(k) = row.key() else {
        return false;
    };
    match rows.last() {
        Some(last) => follows(&last.key(), &k),
        None => true,
    }
}

// The lines of a table, and whether they are known to rise.
#[derive(Drop)]
pub struct Lines<'a, R: Row> {
    pub rows: &'a [R],
    pub rising: bool,
    ghost known: { rising ≡ true → rise R.Key.cmp R.named rows.now ≡ true },
}

impl<'a, R: Row> Lines<'a, R> {
    // These rows as lines: it asks whether they rise.
    pub fn over(rows: &'a [R]) -> Lines<'a, R>
        ensures rows { result.rows.now ≡ rows.now }
        ensures exact { result.rising ≡ rise R.Key.cmp R.named rows.now }
    {
        Lines {
            rows,
            rising: rises(rows),
        }
    }
}

impl<R: Row> Lines<'_, R> {
    // What `find` finds: by halving where the lines are known to rise, else by a walk.
    pub fn place(&self, key: &R::Key) -> Option<usize>
        ensures is { result ≡ seek R.Key.cmp 0 (map R.named self.now.rows.now) key.now }
        ensures means { Found R.Key.cmp (map R.named self.now.rows.now) key.now result }
    {
        if self.rising {
            find_rising(self.rows, key)
        } else {
            find(self.rows, key)
        }
    }
}

impl<R: Row<Key = Pair>> Lines<'_, R> {
    // Whether some line has the first number in its key: by halving where they are known to rise, else by a
    // walk.
    pub fn has(&self, first: u64) -> bool
        ensures { result ≡ some_of first (map R.named self.now.rows.now) }
    {
        holds(self.rows, first, self.rising)
    }
}

// The places of two keys, each among lines of its own. Where both rise, the one search goes on beside the other, and neither waits
// for the rows that the other asks for.
pub fn places<R: Row, S: Row>(
    lines: &Lines<R>,
    key: &R::Key,
    others: &Lines<S>,
    other: &S::Key,
) -> (Option<usize>, Option<usize>)
    ensures first { result.0 ≡ seek R.Key.cmp 0 (map R.named lines.now.rows.now) key.now }
    ensures first_means { Found R.Key.cmp (map R.named lines.now.rows.now) key.now result.0 }
    ensures second { result.1 ≡ seek S.Key.cmp 0 (map S.named others.now.rows.now) other.now }
    ensures second_means { Found S.Key.cmp (map S.named others.now.rows.now) other.now result.1 }
{
    if !lines.rising || !others.rising {
        return (lines.place(key), others.place(other));
    }
    let (first, second) = both_before(lines.rows, key, others.rows, other);
    (
        found(lines.rows, first, key),
        found(others.rows, second, other),
    )
}
