// The public calls on tableaus in bytes. Each first makes all its tests, in the order of document 01's table over all its inputs, and only then writes.
// A tableau is read into a table that is here: handed back by a function, its 2 KB would be copied.
ghost use Rattle.std.specs.Prelude.{◌≡◌, length, IfOk};
ghost use Rattle.arith.specs.Refusals.{number_of};
ghost use Rattle.arith.specs.Answers.{Written};
ghost use Rattle.tableau.specs.Bytes.{tableau_bytes};
ghost use Rattle.tableau.specs.Inner.Parts.{sized_of};
ghost use Rattle.tableau.specs.Calls.{tableau_refusal, tableau_answer, image_refusal, image_answer, compose_refusal, compose_answer, inverse_refusal, inverse_answer};

use crate::column::Table;
use arith::checks::Refusal;
use arith::modulus::{Modulus, Width, given_list};
use gates::lists::LegalList;
use pauli::Pauli;

// How many bytes a tableau takes.
pub fn tableau_bytes(n: Width) -> usize
    ensures { result ≡ tableau_bytes n }
{
    let m = n.value();
    2 * (2 * m * (1 + 2 * m))
}

// 1 and 2, then 3 of a tableau.
pub fn given(d: u16, n: u16, size: usize) -> Result<(Modulus, Width), Refusal>
    ensures refusal { number_of result ≡ sized_of d n size }
    ensures value { IfOk result (λ both. both ≡ (d, n)) }
{
    let (modulus, width) = arith::modulus::given(d, n)?;
    arith::checks::size(tableau_bytes(width), size)?;
    Ok((modulus, width))
}

// ---- the tableau of a list

// The tableau of the list: column j is what the list makes of unit Pauli j. Refused by 1, 2, 3, 4, 6.
#[tactic(auto, using(arith::proofs::Refusals::room_good))]
pub fn tableau_of(d: u16, n: u16, list: &[u8], out: &mut [u8]) -> Result<(), Refusal>
    ensures { Written (tableau_refusal d n list.now (length out.old)) (tableau_answer d n list.now) out.old out.new (number_of result) }
{
    let (modulus, width) = given_list(d, n, list.len())?;
    arith::checks::room(tableau_bytes(width), out.len())?;
    // A match: a `?` gets no proof where the value holds a reference beside d and n.
    match LegalList::new(list, modulus, width) {
        Ok(legal) => crate::output::write_tableau(&legal, out),
        Err(refusal) => return Err(refusal),
    }
    Ok(())
}

// ---- the image of a Pauli

// The image of the Pauli p under the tableau. Refused by 1 and 2, 3 of the tableau and of the Pauli, 4, 5 of the tableau and of the Pauli, 7, 8.
pub fn image(d: u16, n: u16, tableau: &[u8], p: &[u8], out: &mut [u8]) -> Result<(), Refusal>
    ensures { Written (image_refusal d n tableau.now p.now (length out.old)) (image_answer d n tableau.now p.now) out.old out.new (number_of result) }
{
    let (modulus, width) = given(d, n, tableau.len())?;
    pauli::calls::lent(n, p.len(), out.len())?;
    let mut t = Table::ZERO;
    t.read(tableau, width);
    let q = Pauli::read(p, 0, width);
    t.range(modulus, width)?;
    q.range(modulus, width)?;
    t.soundness(modulus, width)?;
    t.image(q, modulus, width).write(out, 0, width);
    Ok(())
}

// ---- composition

// The first tableau, then the second. Refused by 1 and 2, 3 of both, 4, 5 of both, 7 of both, 8 of both.
pub fn compose(d: u16, n: u16, first: &[u8], second: &[u8], out: &mut [u8]) -> Result<(), Refusal>
    ensures { Written (compose_refusal d n first.now second.now (length out.old)) (compose_answer d n first.now second.now) out.old out.new (number_of result) }
{
    let (modulus, width) = given(d, n, first.len())?;
    let want = tableau_bytes(width);
    arith::checks::lent(want, second.len(), want, out.len())?;
    let mut t = Table::ZERO;
    let mut u = Table::ZERO;
    t.read(first, width);
    u.read(second, width);
    t.range(modulus, width)?;
    u.range(modulus, width)?;
    t.pairing(modulus, width)?;
    u.pairing(modulus, width)?;
    t.parity(modulus, width)?;
    u.parity(modulus, width)?;
    t.write_composed(&u, modulus, width, out);
    Ok(())
}

// ---- the inverse

// The tableau that undoes the given one. Refused by 1 and 2, 3, 4, 5, 7, 8.
pub fn inverse(d: u16, n: u16, tableau: &[u8], out: &mut [u8]) -> Result<(), Refusal>
    ensures { Written (inverse_refusal d n tableau.now (length out.old)) (inverse_answer d n tableau.now) out.old out.new (number_of result) }
{
    let (modulus, width) = given(d, n, tableau.len())?;
    arith::checks::room(tableau_bytes(width), out.len())?;
    let mut t = Table::ZERO;
    t.read(tableau, width);
    t.tests(modulus, width)?;
    t.write_inverse(modulus, width, out);
    Ok(())
}
