// Tableaus as answers: column after column, written to a lent output.
ghost use Rattle.std.specs.Prelude.{◌≡◌, ℕ, ◌+◌, ◌*◌, ◌≤◌, ◌<◌, length};
ghost use Rattle.arith.specs.Bytes.{tab, front};
ghost use Rattle.pauli.specs.Pauli.{Pauli as Meant};
ghost use Rattle.pauli.specs.declared.Pauli.{Pauli as Code};
ghost use Rattle.pauli.specs.Inner.View.{view};
ghost use Rattle.tableau.specs.Tableau.{AllInRange, compose};
ghost use Rattle.tableau.specs.Inverse.{inverse};
ghost use Rattle.tableau.specs.Bytes.{tableau_bytes, encode_tableau};
ghost use Rattle.tableau.specs.Calls.{tableau_answer};
ghost use Rattle.tableau.specs.Inner.View.{table_view};

use crate::column::Table;
use arith::modulus::{Modulus, Width};
use gates::lists::LegalList;
use pauli::Pauli;

// Writes the m Paulis that `make` gives, one after the other.
pub fn write_paulis<F: Fn(usize) -> Pauli>(m: usize, n: Width, out: &mut [u8], make: F)
    requires callable { (j : ℕ) → j < m → F.pre make j }
    requires room { 2 * (m * (1 + 2 * n)) ≤ length out.old }
    ensures { (f : ℕ → Meant) → ((j : ℕ) (p : Code) → j < m → F.post make j p → view n p ≡ f j) → out.new ≡ front (encode_tableau (tab f m)) out.old }
{
    let numbers = 1 + 2 * n.value();
    for j in 0..m {
        make(j).write(out, j * numbers, n);
    }
}

impl Table {
    // Writes the tableau.
    fn write(&self, n: Width, out: &mut [u8])
        requires room { tableau_bytes n ≤ length out.old }
        ensures { out.new ≡ front (encode_tableau (table_view n self.now)) out.old }
    {
        write_paulis(2 * n.value(), n, out, |j| self.column(j, n));
    }

    // Writes this tableau, then the second: each column of this one mapped by the second.
    pub fn write_composed(&self, second: &Table, d: Modulus, n: Width, out: &mut [u8])
        requires all_in_range { AllInRange d n (table_view n second.now) }
        requires room { tableau_bytes n ≤ length out.old }
        ensures { out.new ≡ front (encode_tableau (compose d n (table_view n self.now) (table_view n second.now))) out.old }
    {
        write_paulis(
            2 * n.value(),
            n,
            out,
            |j| second.image(self.column(j, n), d, n),
        );
    }

    // Writes the tableau that undoes this one: column j is the Pauli that this one carries to unit Pauli j.
    pub fn write_inverse(&self, d: Modulus, n: Width, out: &mut [u8])
        requires all_in_range { AllInRange d n (table_view n self.now) }
        requires room { tableau_bytes n ≤ length out.old }
        ensures { out.new ≡ front (encode_tableau (inverse d n (table_view n self.now))) out.old }
    {
        write_paulis(
            2 * n.value(),
            n,
            out,
            |j| self.preimage(Pauli::unit(j, n), d, n),
        );
    }
}

// Writes the tableau of the list: column j is what the list makes of unit Pauli j. Each row is put behind all columns.
pub fn write_tableau(list: &LegalList<'_>, out: &mut [u8])
    requires room { tableau_bytes list.now.n ≤ length out.old }
    ensures { out.new ≡ front (tableau_answer list.now.d list.now.n list.now.bytes.now) out.old }
{
    let mut t = Table::ZERO;
    t.set_units(list.n);
    for r in 0..list.count() {
        t.put(list.row(r), list.d, list.n);
    }
    t.write(list.n, out);
}
