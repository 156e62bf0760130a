// The public calls on Paulis in bytes: the checks in the order of the table, then the work.
ghost use Rattle.std.specs.Prelude.{◌≡◌, length, IfOk};
ghost use Rattle.arith.specs.Refusals.{number_of, or_else, given_of, size_of, room_of};
ghost use Rattle.arith.specs.Answers.{Answered, Written, answer_of};
ghost use Rattle.pauli.specs.Bytes.{pauli_bytes};
ghost use Rattle.pauli.specs.Calls.{product_refusal, product_bytes, power_refusal, power_bytes, commutation_refusal, commutation_number, Supported, support_answer_of};

use crate::Pauli;
use arith::checks::Refusal;
use arith::modulus::{Modulus, Width, given};
use arith::residue::{Modular, Power};

// Which qudits a Pauli touches: its support word, and how many they are.
#[derive(Clone, Copy, Debug, PartialEq, Eq)]
pub struct QuditSupport {
    pub word: u16,
    pub touched: u16,
}

// What C is handed of it, which has no Result.
#[repr(C)]
#[derive(Clone, Copy)]
pub struct SupportAnswer {
    pub number: u16,
    pub word: u16,
    pub touched: u16,
}

impl From<Result<QuditSupport, Refusal>> for SupportAnswer {
    ghost from_gives = { λ r a. a ≡ support_answer_of r };

    fn from(found: Result<QuditSupport, Refusal>) -> SupportAnswer {
        match found {
            Ok(support) => SupportAnswer {
                number: 0,
                word: support.word,
                touched: support.touched,
            },
            Err(refusal) => SupportAnswer {
                number: refusal.into(),
                word: 0,
                touched: 0,
            },
        }
    }
}

// How many bytes a Pauli takes.
fn pauli_bytes(n: u16) -> usize
    ensures { result ≡ pauli_bytes n }
{
    2 * (1 + 2 * (n as usize))
}

// 1 and 2, then 3 of a Pauli, whose bytes are as many as `size` says.
fn one_check(d: u16, n: u16, size: usize) -> Result<(Modulus, Width), Refusal>
    ensures refusal { number_of result ≡ or_else (given_of d n) (size_of (pauli_bytes n) size) }
    ensures value { IfOk result (λ p. p ≡ (d, n)) }
{
    let both = given(d, n)?;
    arith::checks::size(pauli_bytes(n), size)?;
    Ok(both)
}

// 1 and 2, then 3 of each of two Paulis.
fn commutation_check(
    d: u16,
    n: u16,
    first: usize,
    second: usize,
) -> Result<(Modulus, Width), Refusal>
    ensures refusal { number_of result ≡ or_else (given_of d n) (or_else (size_of (pauli_bytes n) first) (size_of (pauli_bytes n) second)) }
    ensures value { IfOk result (λ p. p ≡ (d, n)) }
{
    let both = one_check(d, n, first)?;
    arith::checks::size(pauli_bytes(n), second)?;
    Ok(both)
}

// 1 and 2, then 3 of each of two Paulis, then 4 of an output.
fn product_check(
    d: u16,
    n: u16,
    first: usize,
    second: usize,
    room: usize,
) -> Result<(Modulus, Width), Refusal>
    ensures refusal { number_of result ≡ or_else (given_of d n) (or_else (size_of (pauli_bytes n) first) (or_else (size_of (pauli_bytes n) second) (room_of (pauli_bytes n) room))) }
    ensures value { IfOk result (λ p. p ≡ (d, n)) }
{
    let both = commutation_check(d, n, first, second)?;
    arith::checks::room(pauli_bytes(n), room)?;
    Ok(both)
}

// 3 of a Pauli, then 4 of an output for one.
pub fn lent(n: u16, size: usize, room: usize) -> Result<(), Refusal>
    ensures { number_of result ≡ or_else (size_of (pauli_bytes n) size) (room_of (pauli_bytes n) room) }
{
    let want = pauli_bytes(n);
    arith::checks::lent(want, size, want, room)
}

// 1 and 2, then 3 of a Pauli, then 4 of an output.
fn power_check(d: u16, n: u16, size: usize, room: usize) -> Result<(Modulus, Width), Refusal>
    ensures refusal { number_of result ≡ or_else (given_of d n) (or_else (size_of (pauli_bytes n) size) (room_of (pauli_bytes n) room)) }
    ensures value { IfOk result (λ p. p ≡ (d, n)) }
{
    let both = given(d, n)?;
    lent(n, size, room)?;
    Ok(both)
}

// The product of p and q, in this order.
#[tactic(auto, using(crate::proofs::Lent::lent, crate::proofs::Encoding::written_front))]
pub fn product(d: u16, n: u16, p: &[u8], q: &[u8], out: &mut [u8]) -> Result<(), Refusal>
    ensures { Written (product_refusal d n p.now q.now (length out.old)) (product_bytes d n p.now q.now) out.old out.new (number_of result) }
{
    let (modulus, width) = product_check(d, n, p.len(), q.len(), out.len())?;
    let left = Pauli::read(p, 0, width);
    let right = Pauli::read(q, 0, width);
    left.pair_range(right, modulus, width)?;
    left.product(right, modulus, width).write(out, 0, width);
    Ok(())
}

// The product of k copies of p.
#[tactic(auto, using(crate::proofs::Lent::lent, crate::proofs::Encoding::written_front))]
pub fn power(d: u16, n: u16, p: &[u8], k: u16, out: &mut [u8]) -> Result<(), Refusal>
    ensures { Written (power_refusal d n p.now (length out.old)) (power_bytes d n p.now k) out.old out.new (number_of result) }
{
    let (modulus, width) = power_check(d, n, p.len(), out.len())?;
    let base = Pauli::read(p, 0, width);
    base.range(modulus, width)?;
    base.power(Power(k), modulus, width).write(out, 0, width);
    Ok(())
}

// The commutation number of p and q.
#[tactic(auto, using(crate::proofs::Lent::lent))]
pub fn commutation(d: u16, n: u16, p: &[u8], q: &[u8]) -> Result<u16, Refusal>
    ensures { Answered (commutation_refusal d n p.now q.now) (commutation_number d n p.now q.now) (answer_of result) }
{
    let (modulus, width) = commutation_check(d, n, p.len(), q.len())?;
    let first = Pauli::read(p, 0, width);
    let second = Pauli::read(q, 0, width);
    first.pair_range(second, modulus, width)?;
    Ok(first.commutation(second, modulus, width).value())
}

// The support word of p, and the number of qudits that it touches.
#[tactic(auto, using(crate::proofs::Lent::lent, crate::proofs::Marks::total_ones))]
pub fn support(d: u16, n: u16, p: &[u8]) -> Result<QuditSupport, Refusal>
    ensures { Supported d n p.now (support_answer_of result) }
{
    let (modulus, width) = one_check(d, n, p.len())?;
    let lent = Pauli::read(p, 0, width);
    lent.range(modulus, width)?;
    Ok(QuditSupport {
        word: lent.support,
        touched: u16::count_ones(lent.support) as u16,
    })
}
