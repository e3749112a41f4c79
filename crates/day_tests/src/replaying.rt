use desk::output::{replay, replay_over};
use desk::sink::FixedText;
use gate::figures::Figures;
use rules::market::Market;
use rules::phase::Phase;
use std::alloc::{AllocError, Global};
use std::test::Fail;

// The smallest day part with a security.
const DAY: &[u8] = b"\
D               1        20190215          100000
S          600000               1            1000              10
E               1               0               0               0
";

// Two buys of the whole quota.
const BUYS: &[u8] = b"\
B             101               0          600000            1000             100
B             101               0          600000            1000             100
";

// What they are answered.
const BOUGHT: &[u8] = b"\
B               0               1               0
B              12               0               0
";

// Four steps and a close.
const CLOSED: &[u8] = b"\
H
H
H
H
Z
";

// The day part, and events behind it.
fn day_with(heap: Global, events: &[u8]) -> Result<Vec<u8>, AllocError> {
    let mut input = Vec::new(heap);
    input.extend_from_slice(DAY)?;
    input.extend_from_slice(events)?;
    Ok(input)
}

// What the day part and events are answered over tables of so many rows and a book of so many, and the figures that the day
// closes with.
fn replayed(
    heap: Global,
    events: &[u8],
    rows: usize,
    orders: usize,
) -> Result<(Vec<u8>, Option<Figures>), AllocError> {
    let input = day_with(heap, events)?;
    let mut text = Vec::new(heap);
    let closed = replay(heap, &input, rows, orders, &mut text)?;
    Ok((text, closed))
}

#[test]
fn a_replay_keeps_to_the_rows_that_it_is_given(rt: HostRuntime) -> Result<(), Fail> {
    let answers: [(usize, usize, &[u8]); 4] = [
        (
            0,
            1,
            b"!              28               1              83               2               1\n",
        ),
        (
            1,
            0,
            b"\
B               2               0          100000
B               2               0          100000
",
        ),
        (
            1,
            1,
            b"\
B               0               1               0
B               2               0               0
",
        ),
        (1, 2, BOUGHT),
    ];
    for (rows, orders, answer) in answers {
        let (text, closed) = replayed(rt.alloc(), BUYS, rows, orders)?;
        assert_eq!(rt; text.as_slice(), answer, "{rows} rows, {orders} orders");
        assert_eq!(rt; closed, None, "{rows} rows, {orders} orders");
    }
    Ok(())
}

#[test]
fn a_replay_says_what_the_day_closed_with(rt: HostRuntime) -> Result<(), Fail> {
    let (_, closed) = replayed(rt.alloc(), CLOSED, 1, 0)?;
    let figures = Figures {
        market: Market::Shanghai,
        date: 20_190_215,
        quota: 100_000,
        balance: 100_000,
        phase: Phase::AfterHours,
        shut: false,
        count: 0,
    };
    assert_eq!(rt; closed, Some(figures));
    Ok(())
}

#[test]
fn an_answer_is_written_over_a_text_as_far_as_that_goes(rt: HostRuntime) -> Result<(), Fail> {
    let heap = rt.alloc();
    let input = day_with(heap, BUYS)?;
    for size in [0, 1, 49, 50, 51, 99, 100, 101, 130] {
        let mut text = vec![in heap; b'.'; size]?;
        let mut written = FixedText::over(&mut text);
        replay_over(heap, &input, 1, 2, &mut written)?;
        assert_eq!(rt; written.length, 100, "{size} bytes");
        assert_eq!(rt; written.is_whole(), size >= 100, "{size} bytes");
        for (i, byte) in text.iter().enumerate() {
            let expected = BOUGHT.get(i).copied().unwrap_or(b'.');
            assert_eq!(rt; *byte, expected, "byte {i} of {size}");
        }
    }
    Ok(())
}
