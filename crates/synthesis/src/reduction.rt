// The reduction of a tableau to the unit Paulis: a stage for each qudit, after which two columns more are units up to phase; then the phases.
// Each row is put behind every column in place, and its undo row is written to the output.
// Its loops go by the numbers of qudits: each step makes a row on qudit j, and its contract speaks of column c at j.
ghost use Rattle.std.specs.Prelude.{◌≡◌, ℕ, suc, ◌+◌, ◌*◌, ◌-◌, ◌≤◌, ◌<◌, IfSome, Option, true};
ghost use Rattle.gates.specs.Written.{legal_row};
ghost use Rattle.gates.specs.Inner.View.{view_row};
ghost use Rattle.gates.specs.declared.Row.{Row};
ghost use Rattle.tableau.specs.Tableau.{WellFormed, Sound, up_from};
ghost use Rattle.synthesis.specs.Inner.Reduce.{State, each, later, straighten, first_column, partner_straightened, second_column, stage, phases};
ghost use Rattle.synthesis.specs.Inner.Progress.{put_made};
ghost use Rattle.synthesis.specs.Inner.Did.{Makes, Pivot, Room, Kept, Did};

use crate::columns::Columns;
use crate::turns;
use gates::Row;
use gates::lists::write_row;

// The columns so far, and the undo rows of the rows so far: `count` of them from the front of the output on.
// The output and the count are two fields: a slice of what is left of the output would lose its front, which is reversed at the end.
#[derive(Drop)]
pub struct Reduction<'a, C> {
    pub columns: C,
    pub out: &'a mut [u8],
    pub count: usize,
}

impl<C: Columns> Reduction<'_, C> {
    // The row that is put behind every column next, if there is one; its undo row is written behind those written. Callers bind the row first: made within the call, it gets no proof.
    pub fn put(&mut self, made: Option<Row>)
        requires legal { IfSome made (λ row. legal_row (C.held self.old.columns).d (C.held self.old.columns).n (view_row row) ≡ true) }
        requires room { Room self.old 1 }
        ensures { Did C.held 1 (λ d n. put_made d made) self.old self.new }
    {
        let Some(row) = made else {
            return;
        };
        let d = self.columns.modulus();
        self.columns.put(row);
        let undo = row.undo(d);
        let r = self.count;
        write_row(undo, self.out, r);
        self.count = r + 1;
    }

    // A turn for every qudit after q: the row that each puts behind is made of the columns at its time.
    pub fn each_later<F: Fn(&C, usize) -> Option<Row>>(&mut self, q: usize, row_of: F)
        requires place { q < (C.held self.old.columns).n }
        requires callable { (t : _) (j : ℕ) → q < j → j < (C.held t.now).n → F.pre row_of t j }
        requires legal { (t : _) (j : ℕ) (made : Option Row) → q < j → j < (C.held t.now).n → F.post row_of t j made → IfSome made (λ row. legal_row (C.held t.now).d (C.held t.now).n (view_row row) ≡ true) }
        requires room { Room self.old ((C.held self.old.columns).n - suc q) }
        ensures kept { Kept C.held ((C.held self.old.columns).n - suc q) self.old self.new }
        ensures did { (turn : ℕ → ℕ → ℕ → State → State) → ((t : _) (j : ℕ) (made : Option Row) → q < j → j < (C.held t.now).n → F.post row_of t j made → Makes (λ d n. turn d n j) (C.held t.now) made) → Did C.held ((C.held self.old.columns).n - suc q) (λ d n. each (turn d n) (later d n q)) self.old self.new }
    {
        let n = self.columns.width();
        for j in q + 1..n {
            let made = row_of(&self.columns, j);
            self.put(made);
        }
    }

    // Column c is straightened at qudit j: w becomes 0 there.
    fn straighten(&mut self, c: usize, j: usize)
        requires places { (c < 2 * (C.held self.old.columns).n) × (j < (C.held self.old.columns).n) }
        requires room { Room self.old 3 }
        ensures { Did C.held 3 (λ d n. straighten d n c j) self.old self.new }
    {
        if let Some(k) = self.columns.clearing(c, j) {
            let made = turns::shear(&self.columns, j, k);
            self.put(made);
            return;
        }
        let made = turns::gather_w(&self.columns, c, j);
        self.put(made);
        let made = turns::exchange(&self.columns, c, j);
        self.put(made);
        let made = turns::clear_w(&self.columns, c, j);
        self.put(made);
    }

    // Column c is straightened at qudit `from` and every later one.
    fn straighten_from(&mut self, c: usize, from: usize)
        requires places { (c < 2 * (C.held self.old.columns).n) × (from ≤ (C.held self.old.columns).n) }
        requires room { Room self.old (3 * ((C.held self.old.columns).n - from)) }
        ensures { Did C.held (3 * ((C.held self.old.columns).n - from)) (λ d n. each (straighten d n c) (up_from from (n - from))) self.old self.new }
    {
        for j in from..self.columns.width() {
            self.straighten(c, j);
        }
    }

    // Column q becomes unit q up to phase.
    fn unit_x(&mut self, q: usize)
        requires place { q < (C.held self.old.columns).n }
        requires unit { Pivot (C.held self.old.columns) q }
        requires room { Room self.old (5 * ((C.held self.old.columns).n - suc q) + 4) }
        ensures { Did C.held (5 * ((C.held self.old.columns).n - suc q) + 4) (λ d n. first_column d n q) self.old self.new }
    {
        self.straighten_from(q, q);
        self.each_later(q, |t, j| turns::gather(t, q, j));
        let made = turns::scale(&self.columns, q);
        self.put(made);
        self.each_later(q, |t, j| turns::clear_v(t, q, j));
    }

    // Column n + q: w becomes 0 at the later qudits, by one A for each where v is 0 at all of them.
    fn clear_w(&mut self, q: usize)
        requires place { q < (C.held self.old.columns).n }
        requires room { Room self.old (3 * ((C.held self.old.columns).n - suc q)) }
        ensures { Did C.held (3 * ((C.held self.old.columns).n - suc q)) (λ d n. partner_straightened d n q) self.old self.new }
    {
        let c = self.columns.width() + q;
        if self.columns.no_v(c, q + 1) {
            self.each_later(q, |t, j| turns::clear_partner_w(t, q, j));
        } else {
            self.straighten_from(c, q + 1);
        }
    }

    // Column n + q becomes unit n + q up to phase, and column q stays; a column without v is there already.
    fn unit_z(&mut self, q: usize)
        requires place { q < (C.held self.old.columns).n }
        requires room { Room self.old ((C.held self.old.columns).n - suc q + 3) }
        ensures { Did C.held ((C.held self.old.columns).n - suc q + 3) (λ d n. second_column d n q) self.old self.new }
    {
        let c = self.columns.width() + q;
        if self.columns.no_v(c, q) {
            return;
        }
        let made = turns::fourier(&self.columns, q, 1);
        self.put(made);
        self.each_later(q, |t, j| turns::clear_partner_v(t, q, j));
        let made = turns::shear_partner(&self.columns, q);
        self.put(made);
        let made = turns::fourier(&self.columns, q, 3);
        self.put(made);
    }

    // The stage of qudit q.
    fn stage(&mut self, q: usize)
        requires place { q < (C.held self.old.columns).n }
        requires unit { Pivot (C.held self.old.columns) q }
        requires room { Room self.old (9 * ((C.held self.old.columns).n - suc q) + 7) }
        ensures { Did C.held (9 * ((C.held self.old.columns).n - suc q) + 7) (λ d n. stage d n q) self.old self.new }
    {
        self.unit_x(q);
        self.clear_w(q);
        self.unit_z(q);
    }

    // The stages of all qudits. The tableau is sound, so that every pivot is a unit.
    pub fn all_stages(&mut self)
        requires sound { WellFormed (C.held self.old.columns).d (C.held self.old.columns).n (C.held self.old.columns).tableau × Sound (C.held self.old.columns).d (C.held self.old.columns).n (C.held self.old.columns).tableau }
        requires room { Room self.old (5 * ((C.held self.old.columns).n * (C.held self.old.columns).n) + 4 * (C.held self.old.columns).n) }
        ensures { Did C.held (5 * ((C.held self.old.columns).n * (C.held self.old.columns).n) + 4 * (C.held self.old.columns).n) (λ d n. each (stage d n) (up_from 0 n)) self.old self.new }
    {
        // d is above 1
        let _large = self.columns.modulus();
        for q in 0..self.columns.width() {
            self.stage(q);
        }
    }

    // The phases of columns i and n + i become 0.
    fn clear_phases(&mut self, i: usize)
        requires place { i < (C.held self.old.columns).n }
        requires room { Room self.old 2 }
        ensures { Did C.held 2 (λ d n. phases d n i) self.old self.new }
    {
        let made = turns::clear_z(&self.columns, i);
        self.put(made);
        let made = turns::clear_x(&self.columns, i);
        self.put(made);
    }

    // The phases of all columns.
    pub fn all_phases(&mut self)
        requires room { Room self.old (2 * (C.held self.old.columns).n) }
        ensures { Did C.held (2 * (C.held self.old.columns).n) (λ d n. each (phases d n) (up_from 0 n)) self.old self.new }
    {
        for i in 0..self.columns.width() {
            self.clear_phases(i);
        }
    }
}
