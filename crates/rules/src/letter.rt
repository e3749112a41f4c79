ghost use Rattle.std.specs.Prelude.{◌≡◌, ◌≤◌, length};
ghost use Rattle.rules.specs.Letters.{part_number, letter_rules};

// The two parts of a day's input.
#[derive(Clone, Copy, PartialEq, Eq, Debug)]
pub enum Part {
    Day = 1,
    Event = 2,
}

impl Part {
    pub fn number(self) -> u64
        ensures { result ≡ part_number self }
    {
        self as u64
    }
}

// The kinds of line, each of which has a letter.
#[derive(Clone, Copy, PartialEq, Eq, Debug)]
pub enum Letter {
    Day = b'D' as isize,
    Security = b'S' as isize,
    Holding = b'P' as isize,
    AccountHolding = b'A' as isize,
    Designation = b'G' as isize,
    End = b'E' as isize,
    Step = b'H' as isize,
    Notice = b'F' as isize,
    Link = b'U' as isize,
    Buy = b'B' as isize,
    Sell = b'L' as isize,
    Trade = b'T' as isize,
    Return = b'R' as isize,
    Confirm = b'Y' as isize,
    Decline = b'N' as isize,
    Cancel = b'C' as isize,
    Close = b'Z' as isize,
}

impl Letter {
    // The byte that the line begins with.
    pub fn byte(self) -> u8
        ensures { result ≡ (letter_rules self).byte }
    {
        self as u8
    }

    // How many fields the line has.
    pub fn fields(self) -> usize
        ensures value { result ≡ length (letter_rules self).fields }
        ensures few { result ≤ 5 }
    {
        match self {
            Letter::Step | Letter::Close => 0,
            Letter::Link | Letter::Return | Letter::Confirm | Letter::Decline => 1,
            Letter::Designation | Letter::Cancel => 2,
            Letter::Day
            | Letter::Holding
            | Letter::AccountHolding
            | Letter::Notice
            | Letter::Trade => 3,
            Letter::Security | Letter::End => 4,
            Letter::Buy | Letter::Sell => 5,
        }
    }
}
