// The numbers and columns of the tableau in work, and what is done to it in place.
ghost use Rattle.std.specs.Prelude.{◌≡◌, true, map, ℕ, ◌+◌, ◌*◌, ◌-◌, ◌≤◌, ◌<◌, length, get_or};
ghost use Rattle.pauli.specs.Pauli.{phase_only, unit};
ghost use Rattle.pauli.specs.Bytes.{decode_at};
ghost use Rattle.pauli.specs.Inner.View.{view, WordTrue};
ghost use Rattle.pauli.specs.Inner.Touched.{view_touched, touched, replaced};
ghost use Rattle.gates.specs.Row.{apply};
ghost use Rattle.pauli.specs.Support.{word_of};
ghost use Rattle.gates.specs.Written.{meant, takes_two, legal_row};
ghost use Rattle.gates.specs.Inner.View.{view_row, InverseRight, other_of, Acts};
ghost use Rattle.tableau.specs.Tableau.{column, units};
ghost use Rattle.tableau.specs.Bytes.{tableau_bytes, decode_tableau};
ghost use Rattle.tableau.specs.Inner.View.{column_view, table_view};
ghost use Rattle.tableau.specs.Inner.Changing.{changes, changing};

use crate::column::{Column, Table};
use arith::modulus::{Modulus, Width};
use arith::residue::{Modular, Phase, Residue};
use gates::{Ready, Row};
use pauli::Pauli;
use pauli::touched::Touched;

// ---- its numbers

impl Table {
    // v of qudit i in column c. It and `w` differ in the field that they read and in its clause: one of both would take a flag that each call passes as a constant.
    #[tactic(auto, using(crate::proofs::Views::view_v))]
    pub fn v(&self, c: usize, i: usize) -> Residue
        requires { (c < 32) × (i < 16) }
        ensures { (n : ℕ) → c < 2 * n → i < n → result.0 ≡ get_or (column n (table_view n self.now) c).v i 0 }
    {
        self.columns[c].v[i]
    }

    // w of qudit i in column c.
    #[tactic(auto, using(crate::proofs::Views::view_w))]
    pub fn w(&self, c: usize, i: usize) -> Residue
        requires { (c < 32) × (i < 16) }
        ensures { (n : ℕ) → c < 2 * n → i < n → result.0 ≡ get_or (column n (table_view n self.now) c).w i 0 }
    {
        self.columns[c].w[i]
    }

    // The phase of column c.
    #[tactic(auto, using(crate::proofs::Views::view_phase))]
    pub fn phase(&self, c: usize) -> Phase
        requires { c < 32 }
        ensures { (n : ℕ) → c < 2 * n → result.0 ≡ (column n (table_view n self.now) c).phase }
    {
        self.columns[c].phase
    }

    // Column j as a Pauli. A column in work has no support word: it is made here.
    #[tactic(auto, using(crate::proofs::Views::view_column), unfolding(crate::specs::Inner::View::column_view))]
    pub fn column(&self, j: usize, n: Width) -> Pauli
        requires { j < 2 * n }
        ensures value { view n result ≡ column n (table_view n self.now) j }
        ensures word { WordTrue n result }
    {
        let c = &self.columns[j];
        let word = pauli::support::word_of(&c.v, &c.w, n);
        Pauli {
            phase: c.phase,
            v: c.v,
            w: c.w,
            support: word,
        }
    }
}

// ---- bytes

impl Column {
    // Reads the column whose numbers start at number k of the bytes. By places, as pauli/src/bytes.rt: i is the number's place in the bytes.
    #[tactic(auto, using(pauli::proofs::Entries::fill_more, arith::proofs::Bytes::tab_none), unfolding(crate::specs::Inner::View::column_view))]
    fn read(&mut self, b: &[u8], k: usize, n: Width)
        requires width { 2 * (k + 1 + 2 * n) ≤ length b.now }
        ensures { column_view n self.new ≡ decode_at n k b.now }
    {
        let m = n.value();
        self.phase = Phase::lent(arith::numbers::get(b, k));
        for i in 0..m {
            self.v[i] = Residue::lent(arith::numbers::get(b, k + 1 + i));
            self.w[i] = Residue::lent(arith::numbers::get(b, k + 1 + m + i));
        }
    }
}

impl Table {
    // Reads the tableau that the bytes hold.
    #[tactic(auto, using(crate::proofs::Views::changed_none, crate::proofs::Views::changed_more, crate::proofs::Views::view_table, crate::proofs::Bytes::decode_table))]
    pub fn read(&mut self, b: &[u8], n: Width)
        requires size { length b.now ≡ tableau_bytes n }
        ensures { table_view n self.new ≡ decode_tableau n b.now }
    {
        let m = 2 * n.value();
        for j in 0..m {
            let columns = &mut self.columns;
            columns[j].read(b, j * (1 + m), n);
        }
    }
}

// ---- the unit tableau

impl Column {
    // A column of zeros becomes unit Pauli j.
    #[tactic(auto, using(crate::proofs::Views::store_v, crate::proofs::Views::store_w, pauli::proofs::Units::unit_x_lem, pauli::proofs::Units::unit_z_lem))]
    fn set_unit(&mut self, j: usize, n: Width)
        requires width { j < 2 * n }
        requires zero { column_view n self.old ≡ phase_only n 0 }
        ensures { column_view n self.new ≡ unit n j }
    {
        let m = n.value();
        if j < m {
            self.v[j] = Residue::ONE;
        } else {
            self.w[j - m] = Residue::ONE;
        }
    }
}

impl Table {
    // A table of zeros becomes the tableau of the empty list: the unit Paulis. In place, since a table handed back by value is copied.
    #[tactic(auto, using(crate::proofs::Views::changed_none, crate::proofs::Views::changed_more, crate::proofs::Views::view_table, crate::proofs::Views::view_column, crate::proofs::Loops::table))]
    pub(crate) fn set_units(&mut self, n: Width)
        requires zero { (j : ℕ) → j < 2 * n → column n (table_view n self.old) j ≡ phase_only n 0 }
        ensures { table_view n self.new ≡ units n }
    {
        let m = 2 * n.value();
        for j in 0..m {
            let columns = &mut self.columns;
            columns[j].set_unit(j, n);
        }
    }

    // The tableau of the empty list, by value.
    pub fn units(n: Width) -> Table
        ensures { table_view n result ≡ units n }
    {
        let mut t = Table::ZERO;
        t.set_units(n);
        t
    }
}

// ---- a row put behind
// Below, TWO says whether the kind of the row takes two qudits.

// The second qudit of the row, counted from 0: the first again where the kind takes one. `Row::other` asks the kind's number for that: tried in its place, `clifford_tableau` on 4 qudits gets about 5 per cent fewer calls a second.
fn other<const TWO: bool>(row: Row) -> usize
    requires sort { takes_two row.kind ≡ TWO }
    requires from_one { (1 ≤ row.first) × (TWO ≡ true → 1 ≤ row.second) }
    ensures { result ≡ other_of (view_row row) }
{
    if TWO {
        return row.second as usize - 1;
    }
    row.first as usize - 1
}

// What the row makes of the numbers that it touches.
fn act<const TWO: bool>(row: Ready, t: Touched, d: Modulus) -> Touched
    requires sort { takes_two row.row.kind ≡ TWO }
    requires legal { ((n : ℕ) × (legal_row d n (view_row row.row) ≡ true)) × InverseRight d row }
    ensures { Acts d (view_row row.row) (view_touched t) (view_touched result) }
{
    if TWO {
        return row.act_two(t, d);
    }
    row.act_one(t, d)
}

impl Column {
    // The numbers that a row on i and j touches, as `Pauli::touched` gives them: a column is no Pauli (column.rt). That i and j are places is a clause, for the reason in pauli/src/effects.rt.
    #[tactic(auto, using(crate::proofs::Views::column_touched))]
    fn touched(&self, i: usize, j: usize) -> Touched
        requires { (i < 16) × (j < 16) }
        ensures { (n : ℕ) → i < n → j < n → touched i j (column_view n self.now) ≡ view_touched result }
    {
        Touched {
            phase: self.phase,
            vi: self.v[i],
            wi: self.w[i],
            vj: self.v[j],
            wj: self.w[j],
        }
    }

    // Puts others in their place.
    #[tactic(auto, using(crate::proofs::Views::column_replaced))]
    fn replace(&mut self, i: usize, j: usize, t: Touched)
        requires { (i < 16) × (j < 16) }
        ensures { (n : ℕ) → column_view n self.new ≡ replaced i j (view_touched t) (column_view n self.old) }
    {
        self.phase = t.phase;
        self.v[i] = t.vi;
        self.w[i] = t.wi;
        self.v[j] = t.vj;
        self.w[j] = t.wj;
    }

    // 0 for a column that no row on i and j changes, 1 for any other. An `if`: of the negated test turned into a number the compiler makes a branch for each column, which the processor often guesses wrongly.
    fn changes(&self, i: usize, j: usize, d: Modulus) -> u32
        requires { (i < 16) × (j < 16) }
        ensures { (n : ℕ) → i < n → j < n → result ≡ changes d i j (column_view n self.now) }
    {
        if self.touched(i, j).still(d) { 0 } else { 1 }
    }

    // A legal row on i and j put behind the column.
    fn put<const TWO: bool>(&mut self, row: Ready, i: usize, j: usize, d: Modulus)
        requires sort { takes_two row.row.kind ≡ TWO }
        requires places { ((i < 16) × (j < 16)) × ((i ≡ row.row.first - 1) × (j ≡ other_of (view_row row.row))) }
        requires legal { ((n : ℕ) × (legal_row d n (view_row row.row) ≡ true)) × InverseRight d row }
        ensures { (n : ℕ) → legal_row d n (view_row row.row) ≡ true → column_view n self.new ≡ apply d (meant (view_row row.row)) (column_view n self.old) }
    {
        self.replace(i, j, act::<TWO>(row, self.touched(i, j), d));
    }
}

impl Table {
    // A bit for each column in use: 0 where no row on i and j changes it. Many columns have 0 at a row's qudits; to skip them by a branch for each is slow, as the processor often guesses it wrongly.
    fn changing(&self, i: usize, j: usize, d: Modulus, n: Width) -> u32
        requires places { (i < n) × (j < n) }
        ensures word { result ≡ word_of (changing d i j (table_view n self.now)) }
        ensures few { n ≤ 16 }
    {
        let m = 2 * n.value();
        let mut word: u32 = 0;
        for c in 0..m {
            word |= (self.columns[c].changes(i, j, d) << c);
        }
        word
    }

    // A legal row put behind every column in use that it changes: `rest` has the bits of those from `at` on. The loop goes from one set bit to the next: an iterator over them would be this loop again, as a type of its own.
    fn put_ready<const TWO: bool>(&mut self, row: Ready, d: Modulus, n: Width)
        requires sort { takes_two row.row.kind ≡ TWO }
        requires legal { (legal_row d n (view_row row.row) ≡ true) × InverseRight d row }
        ensures { table_view n self.new ≡ map (apply d (meant (view_row row.row))) (table_view n self.old) }
    {
        let i = row.row.first as usize - 1;
        let j = other::<TWO>(row.row);
        let mut rest = self.changing(i, j, d, n);
        let mut at = 0;
        while rest != 0 {
            let skipped = u32::trailing_zeros(rest);
            at += skipped as usize;
            let columns = &mut self.columns;
            columns[at].put::<TWO>(row, i, j, d);
            at += 1;
            rest = rest >> skipped >> 1;
        }
    }

    // A legal row put behind every column in use, in place. The kinds on one qudit and on two have a loop each, in which fewer numbers are read and written.
    #[tactic(auto, using(gates::proofs::Written::legal_unit))]
    pub fn put(&mut self, row: Row, d: Modulus, n: Width)
        requires legal { legal_row d n (view_row row) ≡ true }
        ensures { table_view n self.new ≡ map (apply d (meant (view_row row))) (table_view n self.old) }
    {
        let ready = row.ready(d);
        if gates::takes_two(row.kind) {
            self.put_ready::<true>(ready, d, n);
        } else {
            self.put_ready::<false>(ready, d, n);
        }
    }
}
