// The public calls on lists. A legal list is taken out of its result by `match`: tried, `?` gets no proof where the value holds a reference beside d and n, which have a model.
ghost use Rattle.std.specs.Prelude.{◌≡◌, length, IfOk};
ghost use Rattle.arith.specs.Refusals.{number_of};
ghost use Rattle.arith.specs.Answers.{Answered, Written, answer_of};
ghost use Rattle.gates.specs.Calls.{run_refusal, run_bytes, ticks_refusal, ticks_of, load_refusal, Loaded};

use crate::lists::LegalList;
use crate::load::write_load;
use arith::checks::Refusal;
use arith::modulus::{Modulus, Width, given_list};
use pauli::Pauli;

// 1, 2, then 3 of the list and of the Pauli, 4 of an output of so many bytes, 5 of the Pauli, 6 of the list.
#[tactic(auto, using(arith::proofs::Refusals::or_else_none, arith::proofs::Refusals::size_good))]
fn run_check<'a>(
    d: u16,
    n: u16,
    list: &'a [u8],
    p: &[u8],
    room: usize,
) -> Result<LegalList<'a>, Refusal>
    ensures refusal { number_of result ≡ run_refusal d n list.now p.now room }
    ensures value { IfOk result (λ l. (l.bytes.now ≡ list.now) × ((l.d ≡ d) × (l.n ≡ n))) }
{
    let (modulus, width) = given_list(d, n, list.len())?;
    pauli::calls::lent(n, p.len(), room)?;
    Pauli::read(p, 0, width).range(modulus, width)?;
    LegalList::new(list, modulus, width)
}

// A list run on a Pauli.
#[tactic(auto, using(crate::proofs::Accepted::run_accepted, pauli::proofs::Encoding::written_front))]
pub fn run(d: u16, n: u16, list: &[u8], p: &[u8], out: &mut [u8]) -> Result<(), Refusal>
    ensures { Written (run_refusal d n list.now p.now (length out.old)) (run_bytes d n list.now p.now) out.old out.new (number_of result) }
{
    let rows = match run_check(d, n, list, p, out.len()) {
        Ok(rows) => rows,
        Err(refusal) => return Err(refusal),
    };
    let start = Pauli::read(p, 0, rows.n);
    rows.run(start).write(out, 0, rows.n);
    Ok(())
}

// 1, 2, then 3 and 6 of the list.
fn ticks_check(d: u16, n: u16, list: &[u8]) -> Result<(), Refusal>
    ensures { number_of result ≡ ticks_refusal d n list.now }
{
    let (d, n) = given_list(d, n, list.len())?;
    crate::lists::list_legal(list, d, n.value())
}

// The ticks of a list.
#[tactic(auto, using(crate::proofs::Accepted::ticks_accepted))]
pub fn ticks(d: u16, n: u16, list: &[u8]) -> Result<u16, Refusal>
    ensures { Answered (ticks_refusal d n list.now) (ticks_of list.now) (answer_of result) }
{
    ticks_check(d, n, list)?;
    Ok(crate::lists::list_ticks(list))
}

// 1, 2, then 3 where count is above 4,096, 4 of an output of `room` bytes.
fn load_check(d: u16, n: u16, count: u16, room: usize) -> Result<(Modulus, Width), Refusal>
    ensures refusal { number_of result ≡ load_refusal d n count room }
    ensures value { IfOk result (λ both. both ≡ (d, n)) }
{
    let size = 8 * (count as usize);
    let both = given_list(d, n, size)?;
    arith::checks::room(size, room)?;
    Ok(both)
}

// A load of `count` rows.
#[tactic(auto, using(crate::proofs::Accepted::load_accepted, crate::proofs::Loads::load_answer))]
pub fn load(d: u16, n: u16, seed: u64, count: u16, out: &mut [u8]) -> Result<(), Refusal>
    ensures { Loaded d n seed count out.old out.new (number_of result) }
{
    let (modulus, width) = load_check(d, n, count, out.len())?;
    write_load(modulus, width, seed, count, out);
    Ok(())
}
