// The columns of the tableau in work: what the reduction reads off them, and a row put behind them. How they are kept is theirs to say.
ghost use Rattle.std.specs.Prelude.{◌≡◌, ℕ, ◌*◌, ◌-◌, ◌≤◌, ◌<◌, get_or, map, true, IfSome, IfNone};
ghost use Rattle.arith.specs.Refusals.{Dimension};
ghost use Rattle.gates.specs.Row.{apply};
ghost use Rattle.gates.specs.Written.{meant, legal_row};
ghost use Rattle.gates.specs.Inner.View.{view_row};
ghost use Rattle.tableau.specs.Tableau.{column, up_from};
ghost use Rattle.synthesis.specs.Inner.Held.{Held};
ghost use Rattle.synthesis.specs.Inner.Reduce.{clearing, no_v};

use arith::modulus::{Modulus, Width};
use arith::residue::{Modular, Phase, Residue};
use gates::Row;
use tableau::column::Table;

// What the reduction asks of columns.
pub trait Columns {
    // d, n and the tableau
    ghost held: { Self → Held };

    // The dimension d.
    fn modulus(&self) -> Modulus
        ensures value { result ≡ (held self.now).d }
        ensures dimension { Dimension (held self.now).d };

    // The number n of qudits. A qudit's number fits the 16 bits that a row has for it.
    fn width(&self) -> usize
        ensures value { result ≡ (held self.now).n }
        ensures few { (held self.now).n ≤ 65535 };

    // v of column c at qudit i. It and `w` differ in what is read and in their clauses: one function of both would take a flag, which each call would pass as a constant.
    // That c is a column and i a qudit each function asks of its caller, here, in turns and in reduction: the type of a number can't say it, since n is what the columns hold.
    fn v(&self, c: usize, i: usize) -> Residue
        requires { (c < 2 * (held self.now).n) × (i < (held self.now).n) }
        ensures { result.0 ≡ get_or (column (held self.now).n (held self.now).tableau c).v i 0 };

    // w of column c at qudit i.
    fn w(&self, c: usize, i: usize) -> Residue
        requires { (c < 2 * (held self.now).n) × (i < (held self.now).n) }
        ensures { result.0 ≡ get_or (column (held self.now).n (held self.now).tableau c).w i 0 };

    // The phase of column c.
    fn phase(&self, c: usize) -> Phase
        requires { c < 2 * (held self.now).n }
        ensures { result.0 ≡ (column (held self.now).n (held self.now).tableau c).phase };

    // A legal row put behind every column.
    fn put(&mut self, row: Row)
        requires { legal_row (held self.old).d (held self.old).n (view_row row) ≡ true }
        ensures same { ((held self.new).d ≡ (held self.old).d) × ((held self.new).n ≡ (held self.old).n) }
        ensures put { (held self.new).tableau ≡ map (apply (held self.old).d (meant (view_row row))) (held self.old).tableau };

    // Whether v of column c is 0 at qudit `from` and every later one.
    final fn no_v(&self, c: usize, from: usize) -> bool
        requires { (c < 2 * (held self.now).n) × (from ≤ (held self.now).n) }
        ensures { result ≡ no_v (column (held self.now).n (held self.now).tableau c) (up_from from ((held self.now).n - from)) }
    {
        (from..self.width()).all(|i| self.v(c, i) == Residue::ZERO)
    }

    // The power of S that makes w of column c 0 at qudit j, where there is one.
    final fn clearing(&self, c: usize, j: usize) -> Option<Residue>
        requires { (c < 2 * (held self.now).n) × (j < (held self.now).n) }
        ensures some { IfSome result (λ k. (k.0 ≡ clearing (held self.now).d (held self.now).n c j (held self.now).tableau) × (k.0 < (held self.now).d)) }
        ensures none { IfNone result (clearing (held self.now).d (held self.now).n c j (held self.now).tableau ≡ (held self.now).d) }
        ensures dimension { Dimension (held self.now).d }
    {
        let d = self.modulus();
        arith::divisor::quotient(self.v(c, j), self.w(c, j).negative(d), d)
    }
}

// The table of the crate tableau, with d and n. The ghost field says again what d and n know of themselves, so that to read a number takes no test of them.
#[derive(Drop)]
pub struct QuditColumns {
    pub d: Modulus,
    pub n: Width,
    pub table: Table,
    ghost range: { Dimension d × (n ≤ 16) },
}

impl QuditColumns {
    // d and n are asked for their numbers alone: these say that they are in range.
    pub fn new(table: Table, d: Modulus, n: Width) -> QuditColumns
        ensures { (result.d ≡ d) × (result.n ≡ n) × (result.table ≡ table) }
    {
        let _ = (d.value(), n.value());
        QuditColumns { d, n, table }
    }
}

impl Columns for QuditColumns {
    ghost use Rattle.synthesis.specs.Inner.Seen.{seen};

    ghost held = { seen };

    fn modulus(&self) -> Modulus {
        self.d
    }

    fn width(&self) -> usize {
        self.n.value()
    }

    fn v(&self, c: usize, i: usize) -> Residue {
        self.table.v(c, i)
    }

    fn w(&self, c: usize, i: usize) -> Residue {
        self.table.w(c, i)
    }

    fn phase(&self, c: usize) -> Phase {
        self.table.phase(c)
    }

    fn put(&mut self, row: Row) {
        let d = self.d;
        let n = self.n;
        self.table.put(row, d, n);
    }
}
