// Loops over the entries of a Pauli: the first n of an array of 16.
// Two arrays are read by places. Tried in both loops, `a[..m].iter().zip(&b[..m])`: no plainer, a line more for m and some eight laws more, and a commutation number on 16 qudits takes 1.03 of the time. Of a chain that ends in `sum` or `fold` the check finds neither the bound nor the result.
ghost use Rattle.std.specs.Prelude.{◌≡◌, ℕ, ◌+◌, ◌*◌, ◌≤◌, ◌<◌, get_or};
ghost use Rattle.arith.specs.Bytes.{tab};
ghost use Rattle.arith.specs.Refusals.{number_of, or_else};
ghost use Rattle.pauli.specs.Pauli.{dot};
ghost use Rattle.pauli.specs.Range.{bounds_of};
ghost use Rattle.pauli.specs.Inner.View.{entries};

use arith::checks::Refusal;
use arith::modulus::{Modulus, Width};
use arith::residue::{Modular, Residue};

// a·b: the sum of the products, not reduced.
#[tactic(auto, using(crate::proofs::Entries::dot_start, crate::proofs::Entries::dot_more, crate::proofs::Entries::product_below))]
pub fn sum_of_products(a: [Residue; 16], b: [Residue; 16], n: Width) -> u64
    ensures { (result ≡ dot (entries n a) (entries n b)) × (result ≤ 68719476736) }
{
    let mut sum: u64 = 0;
    for i in 0..n.value() {
        sum += (a[i].value() as u64) * (b[i].value() as u64);
    }
    sum
}

// Whether every v and every w is below d. The largest is looked for, and not the first that isn't below: a loop that never stops early takes several at a time.
#[tactic(auto, using(crate::proofs::RangeChecks::bounds_none, crate::proofs::RangeChecks::bounds_more, crate::proofs::RangeChecks::range_larger))]
pub fn bounds(v: [Residue; 16], w: [Residue; 16], d: Modulus, n: Width) -> Result<(), Refusal>
    ensures { number_of result ≡ or_else (bounds_of d (entries n v)) (bounds_of d (entries n w)) }
{
    let mut top: u16 = 0;
    for i in 0..n.value() {
        top = top.max(v[i].value().max(w[i].value()));
    }
    arith::checks::range(d.value(), top)
}

// The 16 numbers from number k on, as entries.
pub fn entries_from(a: &[u16; 33], k: usize) -> [Residue; 16]
    requires { k ≤ 17 }
    ensures { (n : ℕ) → n ≤ 16 → entries n result ≡ tab (λ i. get_or a.now (k + i) 0) n }
{
    std::array::from_fn(|i| Residue::lent(a[k + i]))
}
