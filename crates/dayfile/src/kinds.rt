ghost use Rattle.std.specs.Prelude.{◌≡◌};
ghost use Rattle.dayfile.specs.Kinds.{above, naming, named_next, security_kind, held_kind, designation_kind};
ghost use Rattle.std.proofs.Common.{rules};

use super::group::Entry;
use super::rows::{HeldLine, designation, security};
use super::run::Run;
use fields::fault::FieldFault;
use lookup::key::{Key, Pair, Row};
use rules::letter::Letter;
use rules::refusal::Refusal;
use tables::rows::{Designation, Holding, Security};

// An account may name so many participants.
const MOST_NAMED: u64 = 20;

// The key, if it is above the last one.
fn rising<K: Key>(last: Option<K>, key: K) -> Result<Option<K>, FieldFault>
    ensures { result ≡ above K.cmp last key }
{
    if last.is_none_or(|before| before < key) {
        Ok(Some(key))
    } else {
        Err(FieldFault {
            cause: Refusal::Sequence,
            column: 1,
        })
    }
}

// The lines of an account after one more, if it may name one more.
fn one_more(run: Run, key: Pair) -> Result<Option<Run>, FieldFault>
    ensures { result ≡ named_next run key }
{
    if run.last.first != key.first {
        return Ok(Some(Run {
            last: key,
            named: 1,
        }));
    }
    if run.named < MOST_NAMED {
        return Ok(Some(Run {
            last: key,
            named: run.named + 1,
        }));
    }
    Err(FieldFault {
        cause: Refusal::Designations,
        column: 1,
    })
}

// The lines of an account after a designation that may follow.
fn designated(run: Option<Run>, key: Pair) -> Result<Option<Run>, FieldFault>
    ensures { result ≡ naming run key }
{
    let Some(before) = run else {
        return Ok(Some(Run {
            last: key,
            named: 1,
        }));
    };
    rising(Some(before.last), key)?;
    one_more(before, key)
}

impl Entry for Security {
    type State = Option<u64>;

    ghost kind = { security_kind };

    ghost long = { Prim.search rules };

    fn letter() -> Letter {
        Letter::Security
    }

    fn read(line: &[u8]) -> Result<Security, FieldFault> {
        security(line)
    }

    fn first() -> Option<u64> {
        None
    }

    fn step(last: Option<u64>, row: &Security) -> Result<Option<u64>, FieldFault> {
        rising(last, row.presumed_key())
    }
}

impl<O: HeldLine> Entry for Holding<O> {
    type State = Option<Pair>;

    ghost kind = { held_kind O.letter O.gives O.number };

    ghost long = { O.long };

    fn letter() -> Letter {
        O::letter()
    }

    fn read(line: &[u8]) -> Result<Holding<O>, FieldFault> {
        O::holding(line)
    }

    fn first() -> Option<Pair> {
        None
    }

    fn step(last: Option<Pair>, row: &Holding<O>) -> Result<Option<Pair>, FieldFault> {
        rising(last, row.presumed_key())
    }
}

impl Entry for Designation {
    type State = Option<Run>;

    ghost kind = { designation_kind };

    ghost long = { Prim.search rules };

    fn letter() -> Letter {
        Letter::Designation
    }

    fn read(line: &[u8]) -> Result<Designation, FieldFault> {
        designation(line)
    }

    fn first() -> Option<Run> {
        None
    }

    fn step(run: Option<Run>, row: &Designation) -> Result<Option<Run>, FieldFault> {
        designated(run, row.presumed_key())
    }
}
