// Gate rows: which are legal, what each does to a Pauli, and lists of them.

#![tactic(auto)]

ghost use Rattle.std.specs.Prelude.{◌≡◌, true, false, ℕ, ◌≤◌, ◌<◌};
ghost use Rattle.arith.specs.Units.{IsUnit, inverse_of};
ghost use Rattle.pauli.specs.Inner.View.{view, WordTrue};
ghost use Rattle.pauli.specs.Inner.Touched.{view_touched};
ghost use Rattle.gates.specs.Row.{apply, undo};
ghost use Rattle.gates.specs.Kind.{kind_number};
ghost use Rattle.gates.specs.Written.{with_power, on_one, on_two, written, meant, between, highest, takes_two, legal_power, legal_second, legal_row};
ghost use Rattle.gates.specs.Inner.View.{view_row, InverseRight, other_of, Acts};

use crate::kind::Kind;
use arith::modulus::{Modulus, Width};
use arith::residue::{Modular, Power, Residue};
use pauli::Pauli;
use pauli::touched::Touched;

pub mod calls;
pub mod kind;
pub mod lists;
pub mod load;

// A gate row as it is written: the qudits count from 1, and the second is 0 where the kind takes one.
// That a row is legal is a clause and no type of row: `undo` and `act` promise their result for every n at which it is legal, which a type that holds d and n would narrow.
// Its kind is a number and no `Kind`, since bytes from C hold any number there: whether it is that of a kind is part of what `legal` judges.
#[derive(Clone, Copy)]
pub struct Row {
    pub kind: u16,
    pub first: u16,
    pub second: u16,
    pub power: u16,
}

// A legal row with the inverse of its power where its kind is M, computed once, since a row is applied to many Paulis.
// It holds no d, with `InverseRight` as its own fact: who acts has d for the effect anyway, and would have to know that both are the same.
#[derive(Clone, Copy)]
pub struct Ready {
    pub row: Row,
    pub inverse: Residue,
}

// Whether x is low to high.
fn within(low: usize, high: usize, x: usize) -> bool
    ensures { result ≡ between low high x }
{
    (low..=high).contains(&x)
}

// The highest legal power of a kind, by its number, as `Row.kind` is one: 0 where no kind has it. It is looked up: tried, with a match on the kind, whose jump the processor guesses wrongly for most rows, ticks take nearly twice as long.
pub fn highest_power(kind: u16, d: Modulus) -> u16
    ensures { result ≡ highest d kind }
{
    let d = d.value();
    // No kind, F, S, A, M, X, Z, C and W. Each from d: the compiler stores them as one then, and of a number d − 1 piece by piece, which takes half as long again.
    let highs = [0, 3, 2 * d - 1, d - 1, d - 1, d - 1, d - 1, d - 1, 1];
    let line = kind as usize;
    if line < 9 {
        return highs[line];
    }
    0
}

// The kinds that take a second qudit, by their numbers.
const A: u16 = Kind::A as u16;

const C: u16 = Kind::C as u16;

const W: u16 = Kind::W as u16;

// Whether the kind of this number takes a second qudit. A number, as `Row.kind` is.
pub fn takes_two(kind: u16) -> bool
    ensures { result ≡ takes_two kind }
{
    matches!(kind, A | C | W)
}

impl Row {
    // A row of a kind that takes one qudit: i, counted from 0.
    pub fn on_one(kind: Kind, i: usize, power: u16) -> Row
        requires { i < 65535 }
        ensures { view_row result ≡ on_one (kind_number kind) i power }
    {
        Row {
            kind: kind.into(),
            first: (i as u16) + 1,
            second: 0,
            power,
        }
    }

    // A row of a kind that takes two: i and j, counted from 0.
    pub fn on_two(kind: Kind, i: usize, j: usize, power: u16) -> Row
        requires { (i < 65535) × (j < 65535) }
        ensures { view_row result ≡ on_two (kind_number kind) i j power }
    {
        Row {
            kind: kind.into(),
            first: (i as u16) + 1,
            second: (j as u16) + 1,
            power,
        }
    }

    // The power is 1 to the kind's highest, for M a unit.
    fn legal_power(self, d: Modulus) -> bool
        ensures { result ≡ legal_power d self.kind self.power }
    {
        let high = highest_power(self.kind, d) as usize;
        within(1, high, self.power as usize)
            && (self.kind != Kind::M as u16
                || arith::divisor::is_unit(Residue::below(self.power, d.value()), d.value()))
    }

    // The second qudit is 0, or for A, C and W is 1 to n and not the first.
    fn legal_second(self, n: usize) -> bool
        ensures { result ≡ legal_second n self.kind self.first self.second }
    {
        if takes_two(self.kind) {
            return within(1, n, self.second as usize) && self.second != self.first;
        }
        self.second == 0
    }

    // Whether the row is legal on n qudits, however many they are.
    #[tactic(auto, unfolding(crate::specs::Written::legal_row))]
    pub fn legal(self, d: Modulus, n: usize) -> bool
        ensures { result ≡ legal_row d n (view_row self) }
    {
        self.legal_power(d) && within(1, n, self.first as usize) && self.legal_second(n)
    }

    // The same row with another power.
    fn with_power(self, k: u16) -> Row
        ensures { view_row result ≡ with_power (view_row self) k }
    {
        Row { power: k, ..self }
    }

    // The inverse of the power of M.
    fn inverse(self, d: Modulus) -> Residue
        requires { (self.power < d) × IsUnit d self.power }
        ensures { result.0 ≡ inverse_of d self.power }
    {
        arith::divisor::inverse(Residue::below(self.power, d.value()), d)
    }

    // The row that undoes a legal one: the two powers add up to one more than the kind's highest, but for M, whose power is inverted.
    #[tactic(auto, using(crate::proofs::Written::legal_facts, crate::proofs::Written::undo_m, crate::proofs::Written::undo_other))]
    pub fn undo(self, d: Modulus) -> Row
        requires { (n : ℕ) × (legal_row d n (view_row self) ≡ true) }
        ensures { view_row result ≡ written (undo d (meant (view_row self))) }
    {
        if self.kind == Kind::M as u16 {
            return self.with_power(self.inverse(d).value());
        }
        self.with_power(highest_power(self.kind, d) + 1 - self.power)
    }

    // The second qudit, counted from 0: the first again where the kind takes one.
    pub fn other(self) -> usize
        requires { (1 ≤ self.first) × (takes_two self.kind ≡ true → 1 ≤ self.second) }
        ensures { result ≡ other_of (view_row self) }
    {
        if takes_two(self.kind) {
            return self.second as usize - 1;
        }
        self.first as usize - 1
    }

    // The row with what its effect needs besides.
    pub fn ready(self, d: Modulus) -> Ready
        requires { self.kind ≡ 4 → (self.power < d) × IsUnit d self.power }
        ensures { (result.row ≡ self) × InverseRight d result }
    {
        let inverse = if self.kind == Kind::M as u16 {
            self.inverse(d)
        } else {
            Residue::ONE
        };
        Ready { row: self, inverse }
    }

    // What the row makes of the Pauli. Its kind is asked by one test of its number after the other: tried, with a match on the kind, whose jump takes longer, a list that is run again takes a quarter longer.
    #[tactic(auto, using(crate::proofs::Written::legal_facts))]
    pub fn apply(self, p: Pauli, d: Modulus, n: Width) -> Pauli
        requires legal { legal_row d n (view_row self) ≡ true }
        ensures value { view n result ≡ apply d (meant (view_row self)) (view n p) }
        ensures word { WordTrue n p → WordTrue n result }
    {
        // n is at most 16, so the row's qudits are places of the Pauli.
        let _few = n.value();
        let kind = self.kind;
        let i = self.first - 1;
        let k = Power(self.power);
        if kind < Kind::S as u16 {
            return p.effect_f(i, k, d);
        }
        if kind < Kind::A as u16 {
            return p.effect_s(i, k, d);
        }
        if kind < Kind::M as u16 {
            return p.effect_a(i, self.second - 1, k, d);
        }
        if kind < Kind::X as u16 {
            return p.effect_m(i, k, self.inverse(d), d);
        }
        if kind < Kind::Z as u16 {
            return p.effect_x(i, k, d);
        }
        if kind < Kind::C as u16 {
            return p.effect_z(i, k, d);
        }
        if kind < Kind::W as u16 {
            return p.effect_c(i, self.second - 1, k, d);
        }
        p.effect_w(i, self.second - 1)
    }
}

// What a row makes of the numbers that it touches: a method for the kinds on one qudit and one for those on two, each for a loop over columns of its own.
// Those two ask the kind's number by one test after the other, as `apply` does: tried, with a match on the kind the jump takes longer in such a loop too.
impl Ready {
    // What the row makes of the numbers that it touches. For a caller who has a row of either sort; the library itself calls the two below.
    pub fn act(self, t: Touched, d: Modulus) -> Touched
        requires { InverseRight d self }
        ensures { (n : ℕ) → legal_row d n (view_row self.row) ≡ true → Acts d (view_row self.row) (view_touched t) (view_touched result) }
    {
        let row = self.row;
        let k = Power(row.power);
        match Kind::try_from(row.kind) {
            Ok(Kind::F) => t.effect_f(k, d),
            Ok(Kind::S) => t.effect_s(k, d),
            Ok(Kind::A) => t.effect_a(k, d),
            Ok(Kind::M) => t.effect_m(k, self.inverse, d),
            Ok(Kind::X) => t.effect_x(k, d),
            Ok(Kind::Z) => t.effect_z(k, d),
            Ok(Kind::C) => t.effect_c(k, d),
            Ok(Kind::W) => t.effect_w(),
            Err(_) => t,
        }
    }

    // A kind on one qudit: F, S, M, X or Z.
    pub fn act_one(self, t: Touched, d: Modulus) -> Touched
        requires inverse { InverseRight d self }
        requires legal { ((n : ℕ) × (legal_row d n (view_row self.row) ≡ true)) × (takes_two self.row.kind ≡ false) }
        ensures { Acts d (view_row self.row) (view_touched t) (view_touched result) }
    {
        let row = self.row;
        let kind = row.kind;
        let k = Power(row.power);
        if kind < Kind::S as u16 {
            return t.effect_f(k, d);
        }
        if kind < Kind::A as u16 {
            return t.effect_s(k, d);
        }
        if kind < Kind::X as u16 {
            return t.effect_m(k, self.inverse, d);
        }
        if kind < Kind::Z as u16 {
            return t.effect_x(k, d);
        }
        t.effect_z(k, d)
    }

    // A kind on two: A, C or W.
    pub fn act_two(self, t: Touched, d: Modulus) -> Touched
        requires legal { ((n : ℕ) × (legal_row d n (view_row self.row) ≡ true)) × (takes_two self.row.kind ≡ true) }
        ensures { Acts d (view_row self.row) (view_touched t) (view_touched result) }
    {
        let row = self.row;
        let kind = row.kind;
        let k = Power(row.power);
        if kind < Kind::M as u16 {
            return t.effect_a(k, d);
        }
        if kind < Kind::W as u16 {
            return t.effect_c(k, d);
        }
        t.effect_w()
    }
}
