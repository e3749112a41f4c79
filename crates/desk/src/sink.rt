ghost use Rattle.std.specs.Prelude.{◌≡◌, ℕ, ◌-◌, ◌^◌, ◌+◌, ◌<◌, ◌≤◌, ◌++◌, List, [], length as length_of, nat_le, take, OnOk};
ghost use Rattle.fields.specs.Written.{in_columns};
ghost use Rattle.desk.specs.Printed.{Paper, event_line, order_shown, over, refusal_shown};
ghost use Rattle.desk.specs.Covering.{bytes_of, covered, grown, nothing_covered, nothing_grown, one_covered, one_grown};

use super::printing::{EventAnswer, Form};
use std::alloc::AllocError;
use std::convert::Infallible;

// What an answer is written on, line after line.
pub(crate) trait Sink {
    // Why a line cannot be written.
    type Full;

    ghost view: { Self → Paper };

    ghost after: { Self → List ℕ → Paper };

    // Writes a line behind all that is written.
    fn write(&mut self, line: &[u8]) -> Result<(), Self::Full>
        ensures { OnOk result (view self.new ≡ after self.old line.now) };

    // Prints an event's line in its place, on a form that has its balance.
    fn print(&mut self, answer: &EventAnswer, form: &Form) -> Result<(), Self::Full>
        requires balance { form.now.balance ≡ answer.now.balance }
        requires refusal { length_of (in_columns 16 (refusal_shown answer.now.shows)) ≡ 16 }
        requires order { length_of (in_columns 16 (order_shown answer.now.shows)) ≡ 16 }
        ensures { OnOk result (view self.new ≡ after self.old (event_line answer.now.letter answer.now.shows answer.now.balance)) };

    ghost nothing: { (x : Self) → view x ≡ after x [] };

    ghost together: { (x y z : Self) (a b : List ℕ) → view y ≡ after x a → view z ≡ after y b → view z ≡ after x (a ++ b) };
}

impl Sink for Vec<u8> {
    type Full = AllocError;

    ghost view = { λ v. bytes_of v.items };

    ghost after = { λ v. grown v.items };

    fn write(&mut self, line: &[u8]) -> Result<(), AllocError> {
        self.extend_from_slice(line)
    }

    fn print(&mut self, answer: &EventAnswer, form: &Form) -> Result<(), AllocError> {
        let from = self.len();
        self.extend_from_slice(&form.line())?;
        answer.put(&mut self[from..], 33);
        Ok(())
    }

    ghost nothing = { λ v. nothing_grown v.items };

    ghost together = { λ x y z a b first then. one_grown x.items y.items (bytes_of z.items) a b first then };
}

// A text of a fixed length that an answer is written over, as far as the text goes, and how long the answer is: it may be longer than
// the text.
#[derive(Drop)]
pub struct FixedText<'t> {
    pub text: &'t mut [u8],
    pub length: u128,
    ghost counted: { length < 2 ^ 128 },
    ghost within: { length_of text.now < 2 ^ 64 },
}

impl<'t> FixedText<'t> {
    // A text on which nothing is written.
    pub fn over(text: &'t mut [u8]) -> FixedText<'t>
        ensures text { result.text.now ≡ text.old }
        ensures length { result.length ≡ 0 }
        ensures lent { result.text.ghost_name ≡ text.entry.ghost_name }
    {
        FixedText { text, length: 0 }
    }
}

impl FixedText<'_> {
    // Whether the text has the whole answer.
    pub fn is_whole(&self) -> bool
        ensures { result ≡ nat_le self.now.length (length_of self.now.text.now) }
    {
        self.length <= self.text.len() as u128
    }

    // Whether the text has room for so many bytes more.
    fn has_room(&self, size: usize) -> bool
        ensures { result ≡ nat_le (self.now.length + size) (length_of self.now.text.now) }
    {
        self.length.saturating_add(size as u128) <= self.text.len() as u128
    }

    // Prints an event's line that has room.
    fn print_whole(&mut self, answer: &EventAnswer, form: &Form)
        requires room { self.old.length + 50 ≤ length_of self.old.text.now }
        requires balance { form.now.balance ≡ answer.now.balance }
        requires refusal { length_of (in_columns 16 (refusal_shown answer.now.shows)) ≡ 16 }
        requires order { length_of (in_columns 16 (order_shown answer.now.shows)) ≡ 16 }
        ensures { record { bytes = self.new.text.now; size = self.new.length; lent = self.new.text.ghost_name } ≡ covered self.old.text.now self.old.text.ghost_name self.old.length (event_line answer.now.letter answer.now.shows answer.now.balance) }
    {
        let from = self.length as usize;
        let line = &mut self.text[from..from + 50];
        line.copy_from_slice(&form.line());
        answer.put(line, 33);
        self.length += 50;
    }

    // Writes a line that has room.
    fn write_whole(&mut self, line: &[u8])
        requires { self.old.length + length_of line.now ≤ length_of self.old.text.now }
        ensures bytes { self.new.text.now ≡ over self.old.length line.now self.old.text.now }
        ensures length { self.new.length ≡ self.old.length }
        ensures lent { self.new.text.ghost_name ≡ self.old.text.ghost_name }
    {
        let from = self.length as usize;
        self.text[from..from + line.len()].copy_from_slice(line);
    }

    // Writes the beginning of a line that has no room, if the text goes on where it would begin.
    #[cold]
    #[tactic(auto, using(crate::specs::Covering::past_end))]
    fn write_beginning(&mut self, line: &[u8])
        requires { length_of self.old.text.now ≤ self.old.length + length_of line.now }
        ensures bytes { self.new.text.now ≡ over self.old.length line.now self.old.text.now }
        ensures length { self.new.length ≡ self.old.length }
        ensures lent { self.new.text.ghost_name ≡ self.old.text.ghost_name }
    {
        if self.is_whole() {
            let left = &mut self.text[self.length as usize..];
            left.copy_from_slice(&line[..left.len()]);
        }
    }
}

impl Sink for FixedText<'_> {
    type Full = Infallible;

    ghost view = { λ x. record { bytes = x.text.now; size = x.length; lent = x.text.ghost_name } };

    ghost after = { λ x. covered x.text.now x.text.ghost_name x.length };

    fn write(&mut self, line: &[u8]) -> Result<(), Infallible> {
        if self.has_room(line.len()) {
            self.write_whole(line);
        } else {
            self.write_beginning(line);
        }
        self.length = self.length.saturating_add(line.len() as u128);
        Ok(())
    }

    fn print(&mut self, answer: &EventAnswer, form: &Form) -> Result<(), Infallible> {
        if self.has_room(50) {
            self.print_whole(answer, form);
            return Ok(());
        }
        let mut line = form.line();
        answer.put(&mut line, 33);
        self.write(&line)
    }

    ghost nothing = { λ x. nothing_covered x.text.now x.text.ghost_name x.length x.counted };

    ghost together = { λ x y z a b first then. one_covered x.text.now y.text.now x.text.ghost_name y.text.ghost_name x.length y.length (record { bytes = z.text.now; size = z.length; lent = z.text.ghost_name }) a b x.within first then };
}
