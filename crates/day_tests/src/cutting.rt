ghost use Rattle.std.specs.Prelude.{◌≡◌, ◌++◌, OnOk};

use desk::output::output;
use std::alloc::{AllocError, Global};
use std::test::Fail;

// A day part of 516 bytes, with two lines in each group.
const DAY_LINES: [&[u8]; 10] = [
    b"D               1        20190215          100000\n",
    b"S          600000               1            1005              10\n",
    b"S          600009               2            1250               5\n",
    b"P             101          600000             500\n",
    b"P             205          600009             300\n",
    b"A        80000001          600000             300\n",
    b"A        80000002          600009            4500\n",
    b"G        80000001             101\n",
    b"G        80000002             205\n",
    b"E               2               2               2               2\n",
];

// A day part of 182 bytes and three lines.
const DAY: &[u8] = b"\
D               1        20190215          100000
S          600000               1            1005              10
E               1               0               0               0
";

// Events of each kind, and what they print.
const EVENTS: [(&[u8], &[u8]); 4] = [
    (
        b"U               0\n",
        b"U               0               0          100000\n",
    ),
    (
        b"F          600000              28             100\n",
        b"F               0               0          100000\n",
    ),
    (
        b"H\n",
        b"H               0               0          100000\n",
    ),
    (
        b"F          600001              28             100\n",
        b"F               3               0          100000\n",
    ),
];

// The line of the fault that a line of the part ends too early.
fn ends_early(heap: Global, part: u64, letter: u8, line: u64) -> Result<String, AllocError> {
    format!(in heap; "!              24               1{letter:>16}{line:>16}{part:>16}\n")
}

// Checks the answer wherever the input ends within a line of the part: what the lines before it print, and the fault of
// a line that is begun; a day part is at fault before its next line is begun, too. Puts the line behind the input.
fn check_cuts(
    heap: Global,
    input: &mut Vec<u8>,
    before: &[u8],
    part: u64,
    line: &[u8],
    number: u64,
) -> Result<(), Fail>
    ensures { OnOk result (input.new.items ≡ input.old.items ++ line.now) }
{
    let mut letter = 0;
    for b in line {
        let mut wanted = Vec::new(heap);
        wanted.extend_from_slice(before)?;
        if part == 1 || letter != 0 {
            let fault = ends_early(heap, part, letter, number)?;
            if fault.len() != 82 {
                return Err(Fail::new("the fault expected is not of 82 bytes"));
            }
            wanted.extend_from_slice(fault.as_bytes())?;
        }
        if output(heap, input)?.as_slice() != wanted.as_slice() {
            return Err(Fail::new("the answer is not that of the lines before the cut"));
        }
        if letter == 0 {
            letter = *b;
        }
        input.push(*b)?;
    }
    Ok(())
}

#[test]
fn a_day_part_that_is_cut_off_at_any_byte_is_too_short(rt: HostRuntime) -> Result<(), Fail> {
    let heap = rt.alloc();
    let mut input = Vec::new(heap);
    for (place, line) in DAY_LINES.iter().enumerate() {
        check_cuts(heap, &mut input, &[], 1, line, place as u64 + 1)?;
    }
    assert_eq!(rt; input.len(), 516);
    assert_eq!(rt; output(heap, &input)?.len(), 0);
    Ok(())
}

#[test]
fn an_event_part_that_is_cut_off_keeps_what_was_answered(rt: HostRuntime) -> Result<(), Fail> {
    let heap = rt.alloc();
    let mut input = Vec::new(heap);
    input.extend_from_slice(DAY)?;
    let mut answered = Vec::new(heap);
    for (place, (line, answer)) in EVENTS.iter().enumerate() {
        check_cuts(heap, &mut input, &answered, 2, line, place as u64 + 4)?;
        answered.extend_from_slice(answer)?;
    }
    assert_eq!(rt; input.len(), 302);
    assert_eq!(rt; output(heap, &input)?.as_slice(), answered.as_slice());
    Ok(())
}
