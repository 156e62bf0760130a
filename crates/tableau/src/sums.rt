// A product of powers of columns in work: its phase, and the sums of v and of w, at 16 places each, of which the first n are in use.
// A loop goes by the places of two arrays, as those of pauli/src/arrays.rt do.
// The sums are reduced once, when all columns are multiplied: that is a division for each entry of the product, and not for each entry of each column.
// All numbers fit: with entries of at most 1,023 and powers of at most 65,535, k·x is at most 67,042,305 and 16 of them 1,072,676,880, and a sum takes 32 of them. A sum below 2³² times x is at most
// 4,393,751,542,785 and 16 of them 70,300,024,684,560; with these the phase is below 2⁶⁴ before it is reduced.
ghost use Rattle.std.specs.Prelude.{◌≡◌, ℕ, ◌+◌, ◌*◌, ◌-◌, ◌%◌, ◌≤◌, ◌<◌, length, get_or};
ghost use Rattle.arith.specs.Bytes.{tab};
ghost use Rattle.pauli.specs.Pauli.{InRange, dot, phase_only, product, power};
ghost use Rattle.pauli.specs.Inner.View.{view, WordTrue};
ghost use Rattle.tableau.specs.Inner.View.{column_view};

use crate::column::Column;
use arith::modulus::{Modulus, Width};
use arith::residue::{Modular, Phase, Power, Residue};
use pauli::Pauli;

#[derive(Drop)]
pub struct Product {
    pub phase: Phase,
    // two arrays, and none of pairs: `add` and `cross_twist` take several entries of one kind of a column at a time
    pub v: [u32; 16],
    pub w: [u32; 16],
    ghost places: { (length v ≡ 16) × (length w ≡ 16) },
}

// The phase of a product of phase h with k copies of a column of phase δ: h + k·(δ + (k − 1)·own + 2·cross).
fn phase_after(h: Phase, delta: Phase, k: Power, own: u32, cross: u64, d: Modulus) -> Phase
    requires power { 0 < k.0 }
    requires bounds { (own ≤ 1072676880) × (cross ≤ 70300024684560) }
    ensures { result.0 ≡ (h.0 + k.0 * (delta.0 + (k.0 - 1) * own + 2 * cross)) % (2 * d) }
{
    let copies = k.0 as u64;
    let each = (delta.value() as u64) + (copies - 1) * (own as u64) + 2 * cross;
    Phase::reduced((h.value() as u64) + copies * each, d)
}

// A sum modulo d.
fn entry(x: u32, d: Modulus) -> Residue
    ensures { result.0 ≡ x % d }
{
    Residue::reduced(x as u64, d)
}

impl Column {
    ghost use Rattle.tableau.specs.Inner.Sums.{Small};

    // w·v of a column. Of small entries it fits in 32 bits, so that the loop takes more of them at a time.
    #[tactic(auto, using(pauli::proofs::Entries::dot_start, pauli::proofs::Entries::dot_more, crate::proofs::Unreduced::multiple_small), unfolding(crate::specs::Inner::View::column_view))]
    fn own_twist(&self, n: Width) -> u32
        requires { Small n self.now }
        ensures { (result ≡ dot (column_view n self.now).w (column_view n self.now).v) × (result ≤ 1072676880) }
    {
        let mut sum: u32 = 0;
        for i in 0..n.value() {
            sum += (self.w[i].value() as u32) * (self.v[i].value() as u32);
        }
        sum
    }
}

impl Product {
    ghost use Rattle.tableau.specs.Inner.Sums.{product_view, Small, Summed, Added};

    // The product of no columns: a phase alone.
    #[tactic(auto, using(crate::proofs::Unreduced::none_summed, crate::proofs::Unreduced::zeros_summed))]
    pub fn of_phase(phase: Phase) -> Product
        ensures value { (d n : ℕ) → product_view d n result ≡ phase_only n phase.0 }
        ensures summed { Summed 0 result }
    {
        Product {
            phase,
            v: [0; 16],
            w: [0; 16],
        }
    }

    // w·v for the sums w and the v of a column. Not one function with `own_twist` and pauli's `sum_of_products`: each adds up in a width of its own, and another bound shows that nothing is lost, so that a trait would have three impls and three laws for one line.
    #[tactic(auto, using(pauli::proofs::Entries::dot_start, pauli::proofs::Entries::dot_more, crate::proofs::Unreduced::sum_multiple_small), unfolding(crate::specs::Inner::View::column_view))]
    fn cross_twist(&self, c: &Column, n: Width) -> u64
        requires { Small n c.now }
        ensures { (result ≡ dot (tab (λ i. get_or self.now.w i 0) n) (column_view n c.now).v) × (result ≤ 70300024684560) }
    {
        let mut sum: u64 = 0;
        for i in 0..n.value() {
            sum += (self.w[i] as u64) * (c.v[i].value() as u64);
        }
        sum
    }

    // Adds k times the entries of a column, in place: sums that are handed on by value are copied for each column.
    #[tactic(auto, using(crate::proofs::Unreduced::growing_none, crate::proofs::Unreduced::multiple_small))]
    fn add(&mut self, c: &Column, k: Power, n: Width)
        requires width { Small n c.now }
        requires summed { Summed 31 self.old }
        ensures { Added k.0 n c.now self.old self.new }
    {
        for i in 0..n.value() {
            self.v[i] = self.v[i] + (k.0 as u32) * (c.v[i].value() as u32);
            self.w[i] = self.w[i] + (k.0 as u32) * (c.w[i].value() as u32);
        }
    }

    // Multiplies by the column c to the power k. A power 0 changes no sum, and no entry is looked at.
    #[tactic(auto, using(crate::proofs::Unreduced::column_small, crate::proofs::Unreduced::power_none, crate::proofs::Unreduced::power_more, crate::proofs::Unreduced::summed_more, pauli::proofs::Ranges::d_pos))]
    pub fn multiply(&mut self, c: &Column, k: Power, d: Modulus, n: Width)
        requires in_range { InRange d n (column_view n c.now) × Summed 31 self.old }
        ensures value { product_view d n self.new ≡ product d (product_view d n self.old) (power d n (column_view n c.now) k.0) }
        ensures summed { (m : ℕ) → Summed m self.old → Summed (m + 1) self.new }
    {
        if k.0 == 0 {
            self.phase = self.phase.plus(Phase::ZERO, d);
            return;
        }
        // the entries are below d
        prove!(d.value() <= 1024);
        let own = c.own_twist(n);
        let cross = self.cross_twist(c, n);
        self.add(c, k, n);
        self.phase = phase_after(self.phase, c.phase, k, own, cross, d);
    }

    // The product, reduced.
    #[tactic(auto, unfolding(crate::specs::Inner::Sums::product_view))]
    pub fn reduced(&self, d: Modulus, n: Width) -> Pauli
        ensures value { view n result ≡ product_view d n self.now }
        ensures word { WordTrue n result }
    {
        // n is at most 16
        let _few = n.value();
        Pauli::from_entries(
            self.phase,
            n,
            |i| (entry(self.v[i], d), entry(self.w[i], d)),
        )
    }
}
