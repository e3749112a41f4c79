ghost use Rattle.std.specs.Prelude.{◌≡◌, ℕ, ◌+◌, ◌<◌, ◌≤◌, [], ◌∷◌, ◌++◌, map, length, min, take, if◌then◌else◌, nat_lt, IfSome, slice_index_or, slice_set};
ghost use Rattle.std.specs.List.{slice_get};
ghost use Rattle.rules.specs.Rules.{if_ok};
ghost use Rattle.lookup.specs.Lookup.{seek, Found, rise, some_of};
ghost use Rattle.tables.specs.Tables.{Lent, changed_at, lines_of, push_answer};
ghost use Rattle.tables.specs.Rows.{may_sell, no_security, noticed, with_sellable};

use super::owner::Owner;
use super::rows::{AccountHolding, Designation, Holding, ParticipantHolding, Security};
use lookup::key::{Pair, Row};
use lookup::search::{Lines, places, rises, rises_with};
use rules::notice::NoticeBand;
use rules::refusal::Refusal;
use std::marker::Model;

// A lent table: its first rows are its lines, and it knows whether these rise. The rows are the caller's and stay where
// they are, since no call on a table allocates.
#[derive(Drop)]
pub struct Table<'a, R: Row> {
    rows: &'a mut [R],
    count: usize,
    rising: bool,
}

impl<'a, R: Row> Model for Table<'a, R> {
    ghost Value = { Lent R };

    ghost view = { λ t. record { rows = t.rows.now; count = t.count } };

    ghost invariant = { λ t. (t.count ≤ length t.rows.now) × (t.rising ≡ rise R.Key.cmp R.named (take t.count t.rows.now)) };
}

impl<'a, R: Row> Table<'a, R> {
    // The first rows of the table as its lines: so many, or all that there are.
    pub fn over(rows: &'a mut [R], lines: usize) -> Table<'a, R>
        ensures same { result.rows ≡ rows.old }
        ensures most { result.count ≡ min lines (length rows.old) }
    {
        let count = lines.min(rows.len());
        let rising = rises(&rows[..count]);
        Table {
            rows,
            count,
            rising,
        }
    }
}

impl<R: Row> Table<'_, R> {
    // The lines of the table.
    fn lines(&self) -> Lines<'_, R>
        ensures rows { result.rows.now ≡ lines_of self.now }
        ensures exact { result.rising ≡ rise R.Key.cmp R.named (lines_of self.now) }
    {
        Lines {
            rows: &self.rows[..self.count],
            rising: self.rising,
        }
    }

    // How many lines there is room for, which are at least those that there are.
    pub fn room(&self) -> usize
        ensures rows { result ≡ length self.now.rows }
        ensures fits { self.now.count ≤ result }
    {
        self.rows.len()
    }

    // The place of the line of a key.
    pub fn place(&self, key: &R::Key) -> Option<usize>
        ensures is { result ≡ seek R.Key.cmp 0 (map R.named (lines_of self.now)) key.now }
        ensures means { Found R.Key.cmp (map R.named (lines_of self.now)) key.now result }
    {
        self.lines().place(key)
    }

    // The places of the lines of two keys, one in this table and one in another.
    pub fn places<S: Row>(
        &self,
        key: &R::Key,
        table: &Table<'_, S>,
        other: &S::Key,
    ) -> (Option<usize>, Option<usize>)
        ensures first { result.0 ≡ seek R.Key.cmp 0 (map R.named (lines_of self.now)) key.now }
        ensures first_means { Found R.Key.cmp (map R.named (lines_of self.now)) key.now result.0 }
        ensures second { result.1 ≡ seek S.Key.cmp 0 (map S.named (lines_of table.now)) other.now }
        ensures second_means { Found S.Key.cmp (map S.named (lines_of table.now)) other.now result.1 }
    {
        places(&self.lines(), key, &table.lines(), other)
    }

    // Whether the lines rise with one more behind them.
    fn rises_with(&self, row: &R) -> bool
        ensures { result ≡ rise R.Key.cmp R.named (lines_of self.now ++ row.now ∷ []) }
    {
        rises_with(&self.rows[..self.count], row, self.rising)
    }

    // Leaves no line; the rows stay as they are.
    pub fn clear(&mut self)
        ensures kept { self.new.rows ≡ self.old.rows }
        ensures empty { self.new.count ≡ 0 }
    {
        self.count = 0;
        self.rising = true;
    }
}

impl<R: Row + Copy> Table<'_, R> {
    // The line at a place, if there is one.
    pub fn line(&self, place: usize) -> Option<R>
        ensures { result ≡ slice_get (lines_of self.now) place }
    {
        self.rows[..self.count].get(place).copied()
    }

    // Writes the row straight after the last line, and counts it as one.
    pub fn push(&mut self, row: R) -> Result<(), Refusal>
        ensures answer { result ≡ push_answer self.old.count (length self.old.rows) }
        ensures wrote { self.new.rows ≡ if_ok result (slice_set self.old.rows self.old.count row) self.old.rows }
        ensures counted { self.new.count ≡ if_ok result (self.old.count + 1) self.old.count }
        ensures lines { lines_of self.new ≡ if_ok result (lines_of self.old ++ row ∷ []) (lines_of self.old) }
        ensures size { length self.new.rows ≡ length self.old.rows }
    {
        let end = self.count;
        if end >= self.rows.len() {
            return Err(Refusal::Room);
        }
        self.rising = self.rises_with(&row);
        self.rows[end] = row;
        self.count = end + 1;
        Ok(())
    }

    // Puts a row of the same key in the place of a line.
    fn replace(&mut self, place: usize, row: R)
        requires held { place < self.old.count }
        requires same { IfSome (slice_get (lines_of self.old) place) (λ line. R.named row ≡ R.named line) }
        ensures wrote { self.new.rows ≡ slice_set self.old.rows place row }
        ensures counted { self.new.count ≡ self.old.count }
        ensures lines { lines_of self.new ≡ slice_set (lines_of self.old) place row }
    {
        let lines = &mut self.rows[..self.count];
        lines[place] = row;
    }
}

impl<R: Row<Key = Pair>> Table<'_, R> {
    // Whether some present line has the first number in its key.
    pub fn has(&self, first: u64) -> bool
        ensures { result ≡ some_of first (map R.named (lines_of self.now)) }
    {
        self.lines().has(first)
    }
}

impl<O: Owner> Table<'_, Holding<O>> {
    // Changes how many shares of a line may be sold, where the line is present with so many.
    pub fn set_sellable(&mut self, place: usize, sellable: u64) -> bool
        ensures done { result ≡ may_sell O.NUMBERS O.number sellable (slice_get (lines_of self.old) place) }
        ensures wrote { self.new.rows ≡ (if result then changed_at (λ h. with_sellable h sellable) place self.old.rows else self.old.rows) }
        ensures counted { self.new.count ≡ self.old.count }
        ensures lines { lines_of self.new ≡ (if result then changed_at (λ h. with_sellable h sellable) place (lines_of self.old) else lines_of self.old) }
    {
        let Some(line) = self.line(place) else {
            return false;
        };
        if !line.is_present() || sellable > line.opening {
            return false;
        }
        self.replace(place, Holding { sellable, ..line });
        true
    }
}

impl Table<'_, Security> {
    // Moves the buying state of a line by a notice's band, and changes nothing else.
    pub fn note(&mut self, place: usize, band: NoticeBand) -> bool
        ensures done { result ≡ nat_lt place self.old.count }
        ensures wrote { self.new.rows ≡ (if result then slice_set self.old.rows place (noticed (slice_index_or self.old.rows place no_security) band) else self.old.rows) }
        ensures counted { self.new.count ≡ self.old.count }
        ensures lines { lines_of self.new ≡ (if result then slice_set (lines_of self.old) place (noticed (slice_index_or (lines_of self.old) place no_security) band) else lines_of self.old) }
    {
        if place >= self.count {
            return false;
        }
        let line = self.rows[place];
        let buying = line.buying.noticed(band);
        self.replace(place, Security { buying, ..line });
        true
    }
}

// The securities of the day.
pub type SecurityList<'a> = Table<'a, Security>;

// What the participants hold.
pub type Holdings<'a> = Table<'a, ParticipantHolding>;

// What the accounts hold.
pub type AccountHoldings<'a> = Table<'a, AccountHolding>;

// Which participants the accounts have designated.
pub type Designations<'a> = Table<'a, Designation>;
