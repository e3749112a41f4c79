use desk::output::output;
use std::test::Fail;

// A step, a notice, and a notice whose foreign shares have a leading zero.
const FAULTY: &[u8] = b"\
D               2        20190218          100000
S               1               1            1005              10
E               1               0               0               0
H
F               1              28             100
F               1             027             100
H
";

const FAULTY_ANSWER: &[u8] = b"\
H               0               0          100000
F               0               0          100000
!              25              31              70               6               2
";

// A balance of sixteen digits leaves no space before it.
const GREATEST: &[u8] = b"\
D               2        999912311000000000000000
E               0               0               0               0
H
";

const GREATEST_ANSWER: &[u8] = b"\
H               0               01000000000000000
";

#[test]
fn answers_stand_in_their_columns(rt: HostRuntime) -> Result<(), Fail> {
    let heap = rt.alloc();
    assert_eq!(rt; output(heap, FAULTY)?.as_slice(), FAULTY_ANSWER);
    assert_eq!(rt; output(heap, GREATEST)?.as_slice(), GREATEST_ANSWER);
    Ok(())
}
