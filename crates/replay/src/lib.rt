// The answers to whole inputs, for programs that are not written in Rattle.
#![tactic(auto)]

ghost use Rattle.std.specs.Prelude.{◌≡◌, ◌<◌, ◌≤◌, nat_eq};
ghost use Rattle.gate.specs.Balances.{most_orders};
ghost use Rattle.replay.specs.declared.outcome.Outcome.TheVariants.{Short, TooMany};
ghost use Rattle.replay.specs.Replayed.{Written, most_rows, outcome_number, too_many};

mod outcome;

use desk::output::replay_over;
use desk::sink::FixedText;
use outcome::Outcome;
use std::alloc::Global;

// The most rows that each table may have.
const MOST_ROWS: u64 = 16_384;

// The most orders that the book may have.
const MOST_ORDERS: u64 = 50_000;

// The most rows that each table of a replay may have.
#[unsafe(no_mangle)]
pub extern "C" fn northbound_most_rows() -> u64
    ensures { result ≡ most_rows }
{
    MOST_ROWS
}

// The most orders that the book of a replay may have.
#[unsafe(no_mangle)]
pub extern "C" fn northbound_most_orders() -> u64
    ensures { result ≡ most_orders }
{
    MOST_ORDERS
}

// Answers a whole input of any length over tables of so many rows and a book of so many orders, and says how long the answer is. It
// is written over a text; one that is too short has its beginning.
#[unsafe(no_mangle)]
pub extern "C" fn northbound_replay(
    heap: Global,
    input: &[u8],
    rows: u64,
    orders: u64,
    text: &mut [u8],
    length: &mut usize,
) -> u32
    ensures known { result ≤ outcome_number TooMany }
    ensures sizes { (nat_eq result (outcome_number TooMany)) ≡ too_many rows orders }
    ensures answered { result ≤ outcome_number Short → Written input.now rows orders text.old text.new length.new result }
    ensures kept { outcome_number Short < result → (text.new ≡ text.old) × (length.new ≡ 0) }
{
    *length = 0;
    if rows > MOST_ROWS || orders > MOST_ORDERS {
        return Outcome::TooMany as u32;
    }
    let mut written = FixedText::over(text);
    let Ok(_) = replay_over(heap, input, rows as usize, orders as usize, &mut written) else {
        return Outcome::NoMemory as u32;
    };
    *length = written.length.min(usize::MAX as u128) as usize;
    if written.is_whole() {
        Outcome::Answered as u32
    } else {
        Outcome::Short as u32
    }
}
