ghost use Rattle.std.specs.Prelude.{◌≡◌, ◌+◌, ◌^◌, ◌<◌, ◌≤◌, length, drop, slice_index, if◌then◌else◌, nat_le};
ghost use Rattle.fields.specs.Layout.{width_of};

use super::line::line_width;
use rules::letter::Letter;

// What is left of an input, and the number of its first line, counted from 1.
#[derive(Clone, Copy, PartialEq, Eq, Debug)]
pub struct Rest<'a> {
    pub bytes: &'a [u8],
    pub line: u64,
    ghost few_lines: { line + length bytes.now < 2 ^ 64 },
}

impl<'a> Rest<'a> {
    // A whole input.
    pub fn whole(input: &'a [u8]) -> Rest<'a>
        ensures all { result.bytes.now ≡ input.now }
        ensures first { result.line ≡ 1 }
    {
        Rest {
            bytes: input,
            line: 1,
        }
    }

    // Goes past a line of the letter, or past all that is left where that is shorter.
    pub fn pass(&mut self, letter: Letter)
        ensures left { self.new.bytes.now ≡ drop (width_of letter) self.old.bytes.now }
        ensures counted { self.new.line ≡ (if nat_le (width_of letter) (length self.old.bytes.now) then self.old.line + 1 else self.old.line) }
    {
        let width = line_width(letter);
        if width <= self.bytes.len() {
            *self = Rest {
                bytes: &self.bytes[width..],
                line: self.line + 1,
            };
        } else {
            self.bytes = &[];
        }
    }
}
