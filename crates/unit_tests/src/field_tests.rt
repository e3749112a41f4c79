use fields::fault::FieldFault;
use fields::field::Field;
use rules::range::Quantity;
use rules::refusal::Refusal;

// What a field in a line's first columns is read as.
fn read(bytes: &[u8; 16]) -> Result<u64, FieldFault> {
    Field { bytes, column: 2 }.read()
}

fn refused(column: u64) -> Result<u64, FieldFault> {
    Err(FieldFault {
        cause: Refusal::Digits,
        column,
    })
}

#[test]
fn numbers_are_read(rt: HostRuntime) {
    assert_eq!(rt; read(b"               7"), Ok(7));
    assert_eq!(rt; read(b"               0"), Ok(0));
    assert_eq!(rt; read(b"9999999999999999"), Ok(9_999_999_999_999_999));
}

#[test]
fn a_zero_in_front_is_refused_at_the_zero(rt: HostRuntime) {
    assert_eq!(rt; read(b"              07"), refused(16));
    assert_eq!(rt; read(b"0000000000000007"), refused(2));
}

#[test]
fn sixteen_spaces_are_refused_at_the_last(rt: HostRuntime) {
    assert_eq!(rt; read(b"                "), refused(17));
}

#[test]
fn other_bytes_are_refused_at_their_column(rt: HostRuntime) {
    assert_eq!(rt; read(b"              \x007"), refused(16));
    assert_eq!(rt; read(b"            1\n23"), refused(15));
    assert_eq!(rt; read(b"           123\xff4"), refused(16));
    assert_eq!(rt; read(b"            12 3"), refused(16));
}

#[test]
fn a_number_out_of_range_is_refused_at_the_first_column(rt: HostRuntime) {
    let field = Field {
        bytes: b"               7",
        column: 34,
    };
    assert_eq!(rt; field.ranged(Quantity::Code), Ok(7));
    assert_eq!(rt;
        field.ranged(Quantity::Mode),
        Err(FieldFault {
            cause: Refusal::Range,
            column: 34,
        })
    );
}
