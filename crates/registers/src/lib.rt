#![tactic(auto)]

ghost use Rattle.std.specs.Prelude.{◌≡◌};
ghost use Rattle.rules.specs.Rules.{if_ok};
ghost use Rattle.registers.specs.Meaning.{Meaning, Sound, drawn, draw_answer, restored, restore_answer, opening_of, sellable_of};

// Registers of the shares that may be sold.
pub mod accounts;
pub mod held;
pub mod participants;
pub mod pool;

use rules::refusal::Refusal;

// A register of pools of shares: an order to sell finds its pool, draws from it, and restores what is not sold.
pub trait Register {
    ghost meaning: { Self → Meaning };

    ghost sound: { (x : Self) → Sound (meaning x) };

    // The pool that an order sells from. The account is the number that the order's line has, 0 where it names none.
    fn find(&self, participant: u64, account: u64, code: u64) -> Result<usize, Refusal>
        ensures { result ≡ (meaning self.now).finds participant account code };

    // How many shares a pool opened with, if there is such a pool.
    fn opening(&self, pool: usize) -> Option<u64>
        ensures { result ≡ opening_of (meaning self.now) pool };

    // How many shares of a pool may still be sold, if there is such a pool.
    fn sellable(&self, pool: usize) -> Option<u64>
        ensures { result ≡ sellable_of (meaning self.now) pool };

    // Takes shares from a pool; a refusal changes nothing.
    fn draw(&mut self, pool: usize, shares: u64) -> Result<(), Refusal>
        ensures answer { result ≡ draw_answer (meaning self.old) pool shares }
        ensures after { meaning self.new ≡ if_ok result (drawn (meaning self.old) pool shares) (meaning self.old) };

    // Gives shares back to a pool; a refusal changes nothing.
    fn restore(&mut self, pool: usize, shares: u64) -> Result<(), Refusal>
        ensures answer { result ≡ restore_answer (meaning self.old) pool shares }
        ensures after { meaning self.new ≡ if_ok result (restored (meaning self.old) pool shares) (meaning self.old) };
}
