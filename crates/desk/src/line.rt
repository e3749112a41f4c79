ghost use Rattle.std.specs.Prelude.{◌≡◌, ◌+◌, ◌≤◌, ◌∷◌, ◌++◌, ℕ, List, length};
ghost use Rattle.fields.specs.Written.{columned, in_columns};
ghost use Rattle.desk.specs.Printed.{Filled, signed, signed_columns};

use itoa::write_digits;

// The columns of a number.
const COLUMNS: usize = 16;

// A line that is printed is filled from its right end: what stands from a place on, and spaces before it. Each of these puts
// more straight before what the line has, and answers where it begins.

// Puts a byte.
pub(crate) fn put_byte(line: &mut [u8], end: usize, byte: u8) -> usize
    requires { 1 ≤ end × end ≤ length line.old }
    ensures filled { (text : List ℕ) → Filled line.old end text → Filled line.new result (byte ∷ text) }
    ensures room { result + 1 ≡ end }
    ensures size { length line.new ≡ length line.old }
{
    line[end - 1] = byte;
    end - 1
}

// Puts a number's digits, behind a minus where it is below 0.
fn put_signed(line: &mut [u8], end: usize, is_negative: bool, magnitude: u64) -> usize
    requires { length (signed is_negative magnitude) ≤ end × end ≤ length line.old }
    ensures filled { (text : List ℕ) → Filled line.old end text → Filled line.new result (signed is_negative magnitude ++ text) }
    ensures room { result + length (signed is_negative magnitude) ≡ end }
    ensures size { length line.new ≡ length line.old }
{
    let from = write_digits(magnitude, line, end);
    if is_negative {
        put_byte(line, from, b'-')
    } else {
        from
    }
}

// Puts a number into sixteen columns: a minus stands straight before its digits.
fn put_columns(line: &mut [u8], end: usize, is_negative: bool, magnitude: u64) -> usize
    requires { length (columned 16 (signed is_negative magnitude)) ≤ end × end ≤ length line.old }
    ensures filled { (text : List ℕ) → Filled line.old end text → Filled line.new result (columned 16 (signed is_negative magnitude) ++ text) }
    ensures room { result + length (columned 16 (signed is_negative magnitude)) ≡ end }
    ensures size { length line.new ≡ length line.old }
{
    put_signed(line, end, is_negative, magnitude).min(end - COLUMNS)
}

// Puts a number into sixteen columns.
pub(crate) fn put(line: &mut [u8], end: usize, n: u64) -> usize
    requires { length (in_columns 16 n) ≤ end × end ≤ length line.old }
    ensures filled { (text : List ℕ) → Filled line.old end text → Filled line.new result (in_columns 16 n ++ text) }
    ensures room { result + length (in_columns 16 n) ≡ end }
    ensures size { length line.new ≡ length line.old }
{
    put_columns(line, end, false, n)
}

// Puts a balance into sixteen columns, or as many as it needs.
#[tactic(auto, using(crate::proofs::Filling::signed_most))]
pub(crate) fn put_balance(line: &mut [u8], end: usize, balance: i64) -> usize
    requires { 21 ≤ end × end ≤ length line.old }
    ensures filled { (text : List ℕ) → Filled line.old end text → Filled line.new result (signed_columns balance ++ text) }
    ensures room { result + length (signed_columns balance) ≡ end }
    ensures most { end ≤ result + 21 }
    ensures size { length line.new ≡ length line.old }
{
    put_columns(line, end, balance.is_negative(), balance.unsigned_abs())
}
