ghost use Rattle.registers.specs.Registers.{own_finds};

use super::held::{Finding, HeldRegister};
use lookup::key::Pair;
use rules::refusal::Refusal;
use tables::owner::Participant;
use tables::table::Holdings;

// A participant sells its own shares, and names no account.
#[derive(Clone, Copy)]
pub struct Own;

// The participants' own shares.
pub type ParticipantRegister<'x, 'a> = HeldRegister<'x, 'a, Participant, Own>;

impl Finding<Participant> for Own {
    ghost finds = { λ _. own_finds };

    fn find(
        self,
        holdings: &Holdings,
        participant: u64,
        account: u64,
        code: u64,
    ) -> Result<usize, Refusal> {
        if account != 0 {
            return Err(Refusal::Account);
        }
        let key = Pair {
            first: participant,
            second: code,
        };
        holdings.place(&key).ok_or(Refusal::NoPosition)
    }
}
