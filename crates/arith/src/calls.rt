// The public call on numbers.
ghost use Rattle.std.specs.Prelude.{◌≡◌};
ghost use Rattle.arith.specs.Units.{least_multiplier};
ghost use Rattle.arith.specs.Refusals.{number_of};
ghost use Rattle.arith.specs.Answers.{Answered, answer_of};
ghost use Rattle.arith.specs.Calls.{multiplier_refusal};

use crate::checks::Refusal;
use crate::modulus::Modulus;
use crate::residue::{Modular, Residue};

// 1, then 5 for a and for b.
fn multiplier_check(d: u16, a: u16, b: u16) -> Result<(), Refusal>
    ensures { number_of result ≡ multiplier_refusal d a b }
{
    Modulus::new(d)?;
    crate::checks::range(d, a)?;
    crate::checks::range(d, b)
}

// The least multiplier of a and b: of 0, 1, −1, 2, −2 and on the first that fits, as a residue.
#[tactic(auto, unfolding(crate::specs::Refusals::dimension_of, crate::specs::Refusals::range_of))]
pub fn least_multiplier(d: u16, a: u16, b: u16) -> Result<u16, Refusal>
    ensures { Answered (multiplier_refusal d a b) (least_multiplier d a b) (answer_of result) }
{
    multiplier_check(d, a, b)?;
    Ok(crate::divisor::least_multiplier(Residue::below(a, d), Residue::below(b, d), d).value())
}
