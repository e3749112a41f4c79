ghost use Rattle.std.specs.Prelude.{◌≡◌, ℕ, List, map, Option as Maybe, Result as Answer};
ghost use Rattle.std.specs.List.{slice_get};
ghost use Rattle.rules.specs.declared.refusal.Refusal.{Refusal as a_refusal};
ghost use Rattle.lookup.specs.declared.key.Pair.{Pair as a_pair};
ghost use Rattle.tables.specs.Rows.{held_key};
ghost use Rattle.tables.specs.Tables.{lines_of};
ghost use Rattle.registers.specs.Registers.{held_meaning, pool_at};
ghost use Rattle.registers.specs.Sound.{held_sound};

use super::Register;
use super::pool::Pool;
use rules::refusal::Refusal;
use tables::owner::Owner;
use tables::rows::Holding;
use tables::table::Table;

// How an order finds the line of holdings that it sells from.
pub trait Finding<O: Owner>: Copy {
    ghost finds: { Self → List (Maybe a_pair) → ℕ → ℕ → ℕ → Answer ℕ a_refusal };

    fn find(
        self,
        holdings: &Table<'_, Holding<O>>,
        participant: u64,
        account: u64,
        code: u64,
    ) -> Result<usize, Refusal>
        ensures { result ≡ finds self (map (held_key O.NUMBERS O.number) (lines_of holdings.now)) participant account code };
}

// The shares of a table of holdings, which orders find by a rule.
#[derive(Drop)]
pub struct HeldRegister<'x, 'a, O: Owner, F: Finding<O>> {
    pub holdings: &'x mut Table<'a, Holding<O>>,
    pub rule: F,
}

impl<O: Owner, F: Finding<O>> HeldRegister<'_, '_, O, F> {
    fn pool(&self, number: usize) -> Option<Pool>
        ensures { result ≡ pool_at O.NUMBERS O.number (slice_get (lines_of self.now.holdings.now) number) }
    {
        let line = self.holdings.line(number)?;
        let pool = Pool {
            opening: line.opening,
            sellable: line.sellable,
        };
        line.is_present().then_some(pool)
    }
}

impl<O: Owner, F: Finding<O>> Register for HeldRegister<'_, '_, O, F> {
    ghost meaning = { λ s. held_meaning O.NUMBERS O.number (F.finds s.rule) (lines_of s.holdings.now) };

    ghost sound = { λ s. held_sound O.NUMBERS O.number (F.finds s.rule) (lines_of s.holdings.now) };

    fn find(&self, participant: u64, account: u64, code: u64) -> Result<usize, Refusal> {
        self.rule.find(self.holdings, participant, account, code)
    }

    fn opening(&self, pool: usize) -> Option<u64> {
        self.pool(pool).map(|p| p.opening)
    }

    fn sellable(&self, pool: usize) -> Option<u64> {
        self.pool(pool).map(|p| p.sellable)
    }

    fn draw(&mut self, pool: usize, shares: u64) -> Result<(), Refusal> {
        let drawn = self.pool(pool).ok_or(Refusal::ShortBalance)?;
        let left = drawn.left_after(shares)?;
        self.holdings.set_sellable(pool, left);
        Ok(())
    }

    fn restore(&mut self, pool: usize, shares: u64) -> Result<(), Refusal> {
        let restored = self.pool(pool).ok_or(Refusal::Unsound)?;
        let again = restored.again_after(shares)?;
        self.holdings.set_sellable(pool, again);
        Ok(())
    }
}
