ghost use Rattle.std.specs.Prelude.{◌≡◌};

use rules::letter::Part;
use rules::refusal::Refusal;

// Why a line is refused, and the column, counted from 1, that shows it.
#[derive(Clone, Copy, PartialEq, Eq, Debug)]
pub struct FieldFault {
    pub cause: Refusal,
    pub column: u64,
}

// A field's fault beside its line's letter, and the line's number, from 1. The letter is the byte that is printed, 0 where
// no line begins.
#[derive(Clone, Copy, PartialEq, Eq, Debug)]
pub struct LineFault {
    pub field: FieldFault,
    pub letter: u8,
    pub line: u64,
}

// A line's fault beside the part of the input that the line stands in.
#[derive(Clone, Copy, PartialEq, Eq, Debug)]
pub struct DayFault {
    pub line: LineFault,
    pub part: Part,
}

impl From<(FieldFault, u8, u64)> for LineFault {
    ghost from_gives = { λ p r. r ≡ record { field = p.0; letter = p.1; line = p.2 } };

    fn from(p: (FieldFault, u8, u64)) -> LineFault {
        LineFault {
            field: p.0,
            letter: p.1,
            line: p.2,
        }
    }
}

impl From<(LineFault, Part)> for DayFault {
    ghost from_gives = { λ p r. r ≡ record { line = p.0; part = p.1 } };

    fn from(p: (LineFault, Part)) -> DayFault {
        DayFault {
            line: p.0,
            part: p.1,
        }
    }
}
