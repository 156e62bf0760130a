// What a tableau does to a Pauli: the image, and the Pauli whose image is a given one.
// That the columns are in range is a clause, `AllInRange`, and no type of a tableau in range: it would hold the table by reference beside d and n, and of such a value a `?` gets no proof, so that the five tests of a range in the calls would be matches.
ghost use Rattle.std.specs.Prelude.{◌≡◌, ◌++◌, ◌*◌, ◌<◌, get_or};
ghost use Rattle.pauli.specs.Inner.View.{view, entries, WordTrue};
ghost use Rattle.tableau.specs.Tableau.{image, AllInRange};
ghost use Rattle.tableau.specs.Inverse.{drawn, preimage};
ghost use Rattle.tableau.specs.Inner.View.{table_view};

use crate::column::Table;
use crate::sums::Product;
use arith::modulus::{Modulus, Width};
use arith::residue::{Modular, Phase, Power};
use pauli::Pauli;

// The power that column j gets in the image of p: v at j below n, w at j − n from n on.
#[tactic(auto, using(crate::proofs::Loops::power_v, crate::proofs::Loops::power_w))]
fn exponent(p: Pauli, j: usize, n: Width) -> Power
    requires { j < 2 * n }
    ensures { result.0 ≡ get_or (entries n p.v ++ entries n p.w) j 0 }
{
    let m = n.value();
    if j < m {
        return Power(p.v[j].value());
    }
    Power(p.w[j - m].value())
}

impl Table {
    // The image of p: its phase alone, times column 1 to the power v1, and so on to column 2n to the power wn.
    pub fn image(&self, p: Pauli, d: Modulus, n: Width) -> Pauli
        requires all_in_range { AllInRange d n (table_view n self.now) }
        ensures value { view n result ≡ image d n (table_view n self.now) (view n p) }
        ensures word { WordTrue n result }
    {
        let m = 2 * n.value();
        let mut product = Product::of_phase(p.phase);
        for j in 0..m {
            product.multiply(&self.columns[j], exponent(p, j, n), d, n);
        }
        product.reduced(d, n)
    }

    // The entries of the Pauli whose image is q up to the phase: v at i is minus the commutation number of q with column n + i, w at i that with column i.
    fn drawn(&self, q: Pauli, d: Modulus, n: Width) -> Pauli
        ensures value { view n result ≡ drawn d n (table_view n self.now) (view n q) }
        ensures word { WordTrue n result }
    {
        let m = n.value();
        Pauli::from_entries(Phase::ZERO, n, |i| {
            let x = q.full_commutation(self.column(m + i, n), d, n);
            let z = q.full_commutation(self.column(i, n), d, n);
            (x.negative(d), z)
        })
    }

    // The Pauli whose image is q: those entries, with the phase that makes it exact.
    pub fn preimage(&self, q: Pauli, d: Modulus, n: Width) -> Pauli
        requires all_in_range { AllInRange d n (table_view n self.now) }
        ensures value { view n result ≡ preimage d n (table_view n self.now) (view n q) }
        ensures word { WordTrue n result }
    {
        let entries = self.drawn(q, d, n);
        let reached = self.image(entries, d, n);
        Pauli {
            phase: q.phase.minus(reached.phase, d),
            ..entries
        }
    }
}
