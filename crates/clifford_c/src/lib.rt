// The C interface: an export for each call of the crate clifford, whose Result is handed on in C's layout: a refusal's number, or 0, and beside it what was asked. include/clifford.h has the prototypes.
// So the fourteen calls stand twice: a static library exports the entries of its own crate alone, and no crate can use a static library, as a caller in Rattle uses clifford.
// A slice passes as a pointer and a length.

#![tactic(auto)]

ghost use Rattle.std.specs.Prelude.{◌≡◌, length};
ghost use Rattle.arith.specs.Units.{least_multiplier};
ghost use Rattle.arith.specs.Answers.{Answered, Written};
ghost use Rattle.arith.specs.Calls.{multiplier_refusal};
ghost use Rattle.pauli.specs.Calls.{product_refusal, product_bytes, power_refusal, power_bytes, commutation_refusal, commutation_number, Supported};
ghost use Rattle.gates.specs.Calls.{run_refusal, run_bytes, ticks_refusal, ticks_of, Loaded};
ghost use Rattle.synthesis.specs.Demand3.{Synthesised};
ghost use Rattle.synthesis.specs.Chosen.{Chosen};
ghost use Rattle.tableau.specs.Batch.{images_refusal, images_answer};
ghost use Rattle.tableau.specs.Bytes.{decode_tableau};
ghost use Rattle.tableau.specs.Calls.{tableau_refusal, tableau_answer, image_refusal, image_answer, compose_refusal, compose_answer, inverse_refusal, inverse_answer};

use arith::checks::{Answer, number};
use pauli::calls::SupportAnswer;

// The least multiplier of a and b: of 0, 1, −1, 2, −2 and on the first that fits, as a residue.
#[unsafe(no_mangle)]
pub extern "C" fn clifford_least_multiplier(d: u16, a: u16, b: u16) -> Answer
    ensures { Answered (multiplier_refusal d a b) (least_multiplier d a b) result }
{
    Answer::from(clifford::clifford_least_multiplier(d, a, b))
}

// The product of p and q, in this order.
#[unsafe(no_mangle)]
pub extern "C" fn clifford_product(d: u16, n: u16, p: &[u8], q: &[u8], out: &mut [u8]) -> u16
    ensures { Written (product_refusal d n p.now q.now (length out.old)) (product_bytes d n p.now q.now) out.old out.new result }
{
    number(clifford::clifford_product(d, n, p, q, out))
}

// p to the power k.
#[unsafe(no_mangle)]
pub extern "C" fn clifford_power(d: u16, n: u16, p: &[u8], k: u16, out: &mut [u8]) -> u16
    ensures { Written (power_refusal d n p.now (length out.old)) (power_bytes d n p.now k) out.old out.new result }
{
    number(clifford::clifford_power(d, n, p, k, out))
}

// The commutation number of p and q.
#[unsafe(no_mangle)]
pub extern "C" fn clifford_commutation(d: u16, n: u16, p: &[u8], q: &[u8]) -> Answer
    ensures { Answered (commutation_refusal d n p.now q.now) (commutation_number d n p.now q.now) result }
{
    Answer::from(clifford::clifford_commutation(d, n, p, q))
}

// The support word of p, and the number of qudits that it touches.
#[unsafe(no_mangle)]
pub extern "C" fn clifford_support(d: u16, n: u16, p: &[u8]) -> SupportAnswer
    ensures { Supported d n p.now result }
{
    SupportAnswer::from(clifford::clifford_support(d, n, p))
}

// What the list carries p to.
#[unsafe(no_mangle)]
pub extern "C" fn clifford_run(d: u16, n: u16, list: &[u8], p: &[u8], out: &mut [u8]) -> u16
    ensures { Written (run_refusal d n list.now p.now (length out.old)) (run_bytes d n list.now p.now) out.old out.new result }
{
    number(clifford::clifford_run(d, n, list, p, out))
}

// The tableau of the list.
#[unsafe(no_mangle)]
pub extern "C" fn clifford_tableau(d: u16, n: u16, list: &[u8], out: &mut [u8]) -> u16
    ensures { Written (tableau_refusal d n list.now (length out.old)) (tableau_answer d n list.now) out.old out.new result }
{
    number(clifford::clifford_tableau(d, n, list, out))
}

// A list that does the tableau, and its number of rows.
#[unsafe(no_mangle)]
pub extern "C" fn clifford_synthesis(d: u16, n: u16, tableau: &[u8], out: &mut [u8]) -> Answer
    ensures synthesised { Synthesised d n tableau.now out.old out.new result }
    ensures chosen { Chosen d n (decode_tableau n tableau.now) out.new result }
{
    Answer::from(clifford::clifford_synthesis(d, n, tableau, out))
}

// The image of p under the tableau.
#[unsafe(no_mangle)]
pub extern "C" fn clifford_image(d: u16, n: u16, tableau: &[u8], p: &[u8], out: &mut [u8]) -> u16
    ensures { Written (image_refusal d n tableau.now p.now (length out.old)) (image_answer d n tableau.now p.now) out.old out.new result }
{
    number(clifford::clifford_image(d, n, tableau, p, out))
}

// The images of up to 512 Paulis, end to end, under the tableau: as single calls made in order answer.
#[unsafe(no_mangle)]
pub extern "C" fn clifford_images(
    d: u16,
    n: u16,
    tableau: &[u8],
    paulis: &[u8],
    out: &mut [u8],
) -> u16
    ensures { Written (images_refusal d n tableau.now paulis.now (length out.old)) (images_answer d n tableau.now paulis.now) out.old out.new result }
{
    number(clifford::clifford_images(d, n, tableau, paulis, out))
}

// The first tableau, then the second.
#[unsafe(no_mangle)]
pub extern "C" fn clifford_compose(
    d: u16,
    n: u16,
    first: &[u8],
    second: &[u8],
    out: &mut [u8],
) -> u16
    ensures { Written (compose_refusal d n first.now second.now (length out.old)) (compose_answer d n first.now second.now) out.old out.new result }
{
    number(clifford::clifford_compose(d, n, first, second, out))
}

// The tableau that undoes the given one.
#[unsafe(no_mangle)]
pub extern "C" fn clifford_inverse(d: u16, n: u16, tableau: &[u8], out: &mut [u8]) -> u16
    ensures { Written (inverse_refusal d n tableau.now (length out.old)) (inverse_answer d n tableau.now) out.old out.new result }
{
    number(clifford::clifford_inverse(d, n, tableau, out))
}

// The ticks of the list, where rows on separate qudits run in the same one: the highest tick used.
#[unsafe(no_mangle)]
pub extern "C" fn clifford_ticks(d: u16, n: u16, list: &[u8]) -> Answer
    ensures { Answered (ticks_refusal d n list.now) (ticks_of list.now) result }
{
    Answer::from(clifford::clifford_ticks(d, n, list))
}

// The load of `count` rows that the seed gives: a list by a fixed rule, which is legal.
#[unsafe(no_mangle)]
pub extern "C" fn clifford_load(d: u16, n: u16, seed: u64, count: u16, out: &mut [u8]) -> u16
    ensures { Loaded d n seed count out.old out.new result }
{
    number(clifford::clifford_load(d, n, seed, count, out))
}
