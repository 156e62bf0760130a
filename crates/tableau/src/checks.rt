// The tests of a tableau: 5, the range of its numbers, and the two of a sound one, 7, pairing, and 8, parity.
// A test that answers a bool is run by `all`; the range of a column answers the refusal itself, which `?` hands on.
ghost use Rattle.std.specs.Prelude.{◌≡◌, ◌*◌, ◌<◌};
ghost use Rattle.arith.specs.Refusals.{number_of, pairing_of, parity_of};
ghost use Rattle.tableau.specs.Tableau.{paired};
ghost use Rattle.tableau.specs.Inner.Parts.{tests_of};
ghost use Rattle.tableau.specs.Range.{tableau_range_of};
ghost use Rattle.tableau.specs.Inner.View.{table_view};
ghost use Rattle.tableau.specs.Soundness.{pair_passes, later_pass, pairing_holds, parity_holds, soundness_of};

use crate::column::Table;
use arith::checks::{Refusal, unless_holds};
use arith::modulus::{Modulus, Width};
use arith::residue::Modular;

// The commutation number that columns j < k must have: d − 1 if k = j + n, else 0.
fn wanted(j: usize, k: usize, d: Modulus, n: Width) -> u16
    requires places { j < 2 * n }
    ensures { result ≡ paired d n j k }
{
    if k == j + n.value() { d.value() - 1 } else { 0 }
}

impl Table {
    // Whether columns j < k have the commutation number that they must have. All entries are looked at: words for so many pairs would cost more than they save.
    fn pair_passes(&self, j: usize, k: usize, d: Modulus, n: Width) -> bool
        requires places { (j < 2 * n) × (k < 2 * n) }
        ensures { result ≡ pair_passes d n (table_view n self.now) j k }
    {
        let found = self.column(j, n).full_commutation(self.column(k, n), d, n);
        found.value() == wanted(j, k, d, n)
    }

    // Whether column j passes with every later column.
    fn later_pass(&self, j: usize, d: Modulus, n: Width) -> bool
        requires places { j < 2 * n }
        ensures { result ≡ later_pass d n (table_view n self.now) j }
    {
        ((j + 1)..2 * n.value()).all(|k| self.pair_passes(j, k, d, n))
    }

    // 7 of every two columns.
    pub fn pairing(&self, d: Modulus, n: Width) -> Result<(), Refusal>
        ensures { number_of result ≡ pairing_of (pairing_holds d n (table_view n self.now)) }
    {
        let paired = (0..2 * n.value()).all(|j| self.later_pass(j, d, n));
        unless_holds(Refusal::Pairing, paired)
    }

    // 8 of every column.
    pub fn parity(&self, d: Modulus, n: Width) -> Result<(), Refusal>
        ensures { number_of result ≡ parity_of (parity_holds d n (table_view n self.now)) }
    {
        let even = (0..2 * n.value()).all(|j| self.column(j, n).parity(d, n) == 0);
        unless_holds(Refusal::Parity, even)
    }

    // 7 of every two columns, then 8 of every column.
    pub fn soundness(&self, d: Modulus, n: Width) -> Result<(), Refusal>
        ensures { number_of result ≡ soundness_of d n (table_view n self.now) }
    {
        self.pairing(d, n)?;
        self.parity(d, n)
    }

    // 5 of every column.
    pub fn range(&self, d: Modulus, n: Width) -> Result<(), Refusal>
        ensures { number_of result ≡ tableau_range_of d (table_view n self.now) }
    {
        let m = 2 * n.value();
        for j in 0..m {
            self.column(j, n).range(d, n)?;
        }
        Ok(())
    }

    // 5, then 7, then 8.
    pub fn tests(&self, d: Modulus, n: Width) -> Result<(), Refusal>
        ensures { number_of result ≡ tests_of d n (table_view n self.now) }
    {
        self.range(d, n)?;
        self.soundness(d, n)
    }
}
