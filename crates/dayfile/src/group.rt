ghost use Rattle.std.specs.Prelude.{◌≡◌, ℕ, ◌+◌, ◌-◌, ◌*◌, ◌<◌, ◌≤◌, true, false, List, ◌++◌, length, drop, IfSome, is_ok, IfOk, Ok};
ghost use Rattle.fields.specs.Layout.{width_of};
ghost use Rattle.dayfile.specs.Groups.{Kind, Lines, filled, following, group, starts, turn};

use fields::fault::{FieldFault, LineFault};
use fields::rest::Rest;
use lookup::key::Row;
use rules::letter::Letter;
use rules::refusal::Refusal;
use tables::table::Table;

// A kind of line whose rows fill a table.
pub(crate) trait Entry: Row + Copy {
    type State: Copy;

    ghost kind: { Kind Self Self.State };

    fn letter() -> Letter
        ensures { result ≡ kind.letter };

    fn read(line: &[u8]) -> Result<Self, FieldFault>
        ensures { result ≡ kind.reads line.now };

    fn first() -> Self::State
        ensures { result ≡ kind.first };

    fn step(state: Self::State, row: &Self) -> Result<Self::State, FieldFault>
        ensures { result ≡ kind.step state row.now };

    ghost long: { (line : List ℕ) (x : Self) → kind.reads line ≡ Ok x → width_of kind.letter ≤ length line };
}

// What is known after a line, if it may follow.
fn follow<R: Entry>(line: &[u8], state: R::State) -> Result<R::State, FieldFault>
    ensures { result ≡ following R.Entry.kind state line.now }
{
    let row = R::read(line)?;
    R::step(state, &row)
}

// Whether what is left begins with the letter.
fn opens(line: &[u8], letter: Letter) -> bool
    ensures { result ≡ starts letter line.now }
{
    line.len() > 0 && line[0] == letter.byte()
}

// What is known after the next line of a group: none where the group is over.
fn next<R: Entry>(rest: &Rest, state: R::State, full: bool) -> Result<Option<R::State>, LineFault>
    ensures is { result ≡ turn R.Entry.kind full state rest.now.line rest.now.bytes.now }
    ensures good { IfOk result (λ o. IfSome o (λ t. (is_ok (R.Entry.kind.reads rest.now.bytes.now) ≡ true) × (full ≡ false))) }
{
    let letter = R::letter();
    if !opens(rest.bytes, letter) {
        return Ok(None);
    }
    let byte = letter.byte();
    let line = rest.line;
    let after = follow::<R>(rest.bytes, state).map_err(|f| (f, byte, line))?;
    if full {
        return Err(LineFault {
            field: FieldFault {
                cause: Refusal::Room,
                column: 1,
            },
            letter: byte,
            line,
        });
    }
    Ok(Some(after))
}

// How many lines of the kind follow one another, if the table has room for them; goes past them.
pub(crate) fn counted<R: Entry>(rest: &mut Rest, room: usize) -> Result<usize, LineFault>
    ensures is { result ≡ group R.Entry.kind room 0 R.Entry.kind.first rest.old.line rest.old.bytes.now }
    ensures lines { IfOk result (λ n. Lines R.Entry.kind room 0 rest.old.bytes.now n) }
    ensures passed { IfOk result (λ n. rest.new.bytes.now ≡ drop (width_of R.Entry.kind.letter * n) rest.old.bytes.now) }
    ensures numbered { IfOk result (λ n. rest.new.line ≡ rest.old.line + n) }
{
    let mut n = 0;
    let mut state = R::first();
    'lines: while let Some(after) = next::<R>(rest, state, n == room)? {
        state = after;
        n += 1;
        rest.pass(R::letter());
    }
    Ok(n)
}

// Makes the rows of n lines the lines of a table; goes past them.
pub(crate) fn fill<R: Entry>(table: &mut Table<R>, rest: &mut Rest, n: usize)
    requires { Lines R.Entry.kind (length table.old.rows) 0 rest.old.bytes.now n }
    ensures filled { table.new ≡ filled R.Entry.kind n rest.old.bytes.now table.old }
    ensures passed { rest.new.bytes.now ≡ drop (width_of R.Entry.kind.letter * n) rest.old.bytes.now }
{
    table.clear();
    for _ in 0..n {
        if let Ok(row) = R::read(rest.bytes) {
            let _ = table.push(row);
        }
        rest.pass(R::letter());
    }
}
