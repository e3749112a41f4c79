ghost use Rattle.std.specs.Prelude.{◌≡◌, ◌-◌, ◌≤◌, true, IfOk, Ok, Err, MatchResult};
ghost use Rattle.rules.specs.declared.refusal.Refusal.TheVariants.{Digits};
ghost use Rattle.rules.specs.Ranges.{in_range, range_of};
ghost use Rattle.fields.specs.Examples.{FieldExamples};
ghost use Rattle.fields.specs.Reading.{reading, ranging};
ghost use Rattle.fields.specs.Written.{Spells, RulesOut};

use super::digits::digits;
use super::fault::FieldFault;
use rules::range::Quantity;
use rules::refusal::Refusal;

// Sixteen columns of a line, and the number of the first, counted from 1.
#[derive(Clone, Copy)]
pub struct Field<'a> {
    pub bytes: &'a [u8; 16],
    pub column: u16,
}

impl Field<'_> {
    // The number whose written form the field is.
    pub fn read(&self) -> Result<u64, FieldFault>
        ensures is { result ≡ reading self.now.bytes.now self.now.column }
        ensures means { MatchResult result (λ n. Spells self.now.bytes.now n) (λ f. (f.cause ≡ Digits) × (self.now.column ≤ f.column) × RulesOut self.now.bytes.now (f.column - self.now.column)) }
    {
        let first = u64::from(self.column);
        digits(self.bytes).map_err(|place| FieldFault {
            cause: Refusal::Digits,
            column: first + place as u64,
        })
    }

    // The field's number, which has to lie in the range of a quantity.
    pub fn ranged(&self, quantity: Quantity) -> Result<u64, FieldFault>
        ensures is { result ≡ ranging quantity self.now.bytes.now self.now.column }
        ensures within { IfOk result (λ n. in_range (range_of quantity) n ≡ true) }
    {
        let n = self.read()?;
        if !quantity.has(n) {
            return Err(FieldFault {
                cause: Refusal::Range,
                column: u64::from(self.column),
            });
        }
        Ok(n)
    }
}

// Two examples of a first field: fifteen spaces and 7, fourteen spaces and 07.
pub fn field_examples() -> (Result<u64, FieldFault>, Result<u64, FieldFault>)
    ensures answers { (result.0 ≡ Ok 7) × (result.1 ≡ Err (record { cause = Digits; column = 16 })) }
    ensures means { FieldExamples }
{
    let seven = Field {
        bytes: b"               7",
        column: 2,
    };
    let leading_zero = Field {
        bytes: b"              07",
        column: 2,
    };
    (seven.read(), leading_zero.read())
}
