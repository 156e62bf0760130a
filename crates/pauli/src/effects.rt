// The effect of each kind of gate row, with power k on qudit i, for A, C and W on i and j: methods that take the Pauli and hand on the new one.
// That i and j are places is a clause and no type of a place: the clauses need i < n too, and i ≢ j, of which such a type says neither.
// Each contract holds for every n from i + 1 to 16 (on two qudits from j + 1 too): the effect is the same however many places are in use.
ghost use Rattle.std.specs.Prelude.{◌≡◌, cond, eqb, set, ◌≢◌, ℕ, ◌<◌, ◌≤◌};
ghost use Rattle.arith.specs.Units.{inverse_of};
ghost use Rattle.pauli.specs.Inner.View.{entries, view, WordTrue};
ghost use Rattle.pauli.specs.Inner.Touched.{view_touched, touched, placed, OnOne, OnTwo, Makes};
ghost use Rattle.pauli.specs.Effects.{effect_f, effect_s, effect_a, effect_m, effect_x, effect_z, effect_c, effect_w};

use crate::Pauli;
use crate::touched::Touched;
use arith::modulus::Modulus;
use arith::residue::{Phase, Power, Residue};

// x at place i, and what stood there at any other place p. A function, and no `if` in the closure below: tried, that reads some places alone, and a row takes 1.5 of the time.
fn at_place(p: u16, i: u16, x: Residue, old: Residue) -> Residue
    ensures { result ≡ cond (eqb p i) x old }
{
    if p == i {
        return x;
    }
    old
}

// The array with x at place i. Every place is written, so that the array is stored whole: a copy that follows the store of one number has to wait for it.
fn with_one(a: [Residue; 16], i: u16, x: Residue) -> [Residue; 16]
    requires { i < 16 }
    ensures { (n : ℕ) → i < n → n ≤ 16 → entries n result ≡ set (entries n a) i x.0 }
{
    std::array::from_fn(|p| at_place(p as u16, i, x, a[p]))
}

impl Pauli {
    // The numbers that a row on i and j touches.
    #[tactic(auto, using(crate::proofs::Entries::entry))]
    pub fn touched(self, i: u16, j: u16) -> Touched
        requires { (i < 16) × (j < 16) }
        ensures { (n : ℕ) → i < n → j < n → view_touched result ≡ touched i j (view n self) }
    {
        let first = i as usize;
        let second = j as usize;
        // named arrays: tried, with fields of `self` a row on 4 qudits takes 1.11 of the time, since all of the Pauli is then kept in memory
        let v = self.v;
        let w = self.w;
        Touched {
            phase: self.phase,
            vi: v[first],
            wi: w[first],
            vj: v[second],
            wj: w[second],
        }
    }

    // The Pauli with another phase, and x and z at qudit i: of its support word the bit of that qudit changes alone.
    pub fn placed(self, i: u16, phase: Phase, x: Residue, z: Residue) -> Pauli
        requires { i < 16 }
        ensures value { (n : ℕ) → i < n → n ≤ 16 → view n result ≡ placed i phase.0 x.0 z.0 (view n self) }
        ensures word { (n : ℕ) → i < n → n ≤ 16 → WordTrue n self → WordTrue n result }
    {
        let v = with_one(self.v, i, x);
        let w = with_one(self.w, i, z);
        let word = crate::support::with_entries(self.support, i, x, z);
        Pauli {
            phase,
            v,
            w,
            support: word,
        }
    }

    // The Pauli with another phase: no entry changes, so no array is written again, and its support word stays.
    pub fn with_phase(self, phase: Phase) -> Pauli
        ensures value { (n : ℕ) → view n result ≡ record { phase = phase.0; v = (view n self).v; w = (view n self).w } }
        ensures word { (n : ℕ) → WordTrue n self → WordTrue n result }
    {
        Pauli { phase, ..self }
    }

    // The effect of a row on qudit i, by what the row makes of the numbers that it touches. X and Z change the phase alone: they use `with_phase`.
    fn on_one<F: FnOnce(Touched) -> Touched>(self, i: u16, change: F) -> Pauli
        requires place { i < 16 }
        requires callable { F.IsAlwaysCallable change }
        ensures value { (n : ℕ) (effect : _) → i < n → n ≤ 16 → Makes (OnOne effect) (F.post change) → view n result ≡ effect i (view n self) }
        ensures word { (n : ℕ) → i < n → n ≤ 16 → WordTrue n self → WordTrue n result }
    {
        let t = change(self.touched(i, i));
        self.placed(i, t.phase, t.vi, t.wi)
    }

    // The same for a row on i and j.
    fn on_two<F: FnOnce(Touched) -> Touched>(self, i: u16, j: u16, change: F) -> Pauli
        requires places { (i < 16) × ((j < 16) × (i ≢ j)) }
        requires callable { F.IsAlwaysCallable change }
        ensures value { (n : ℕ) (effect : _) → i < n → j < n → n ≤ 16 → Makes (OnTwo effect) (F.post change) → view n result ≡ effect i j (view n self) }
        ensures word { (n : ℕ) → i < n → j < n → n ≤ 16 → WordTrue n self → WordTrue n result }
    {
        let t = change(self.touched(i, j));
        self.placed(i, t.phase, t.vi, t.wi)
            .placed(j, t.phase, t.vj, t.wj)
    }

    // F: k times δ − 2·vi·wi, then vi, wi become −wi, vi.
    pub fn effect_f(self, i: u16, k: Power, d: Modulus) -> Pauli
        requires { i < 16 }
        ensures value { (n : ℕ) → i < n → n ≤ 16 → view n result ≡ effect_f d i k.0 (view n self) }
        ensures word { (n : ℕ) → i < n → n ≤ 16 → WordTrue n self → WordTrue n result }
    {
        self.on_one(i, |t| t.effect_f(k, d))
    }

    // S: δ + k·vi·(vi + d), wi + k·vi.
    pub fn effect_s(self, i: u16, k: Power, d: Modulus) -> Pauli
        requires { i < 16 }
        ensures value { (n : ℕ) → i < n → n ≤ 16 → view n result ≡ effect_s d i k.0 (view n self) }
        ensures word { (n : ℕ) → i < n → n ≤ 16 → WordTrue n self → WordTrue n result }
    {
        self.on_one(i, |t| t.effect_s(k, d))
    }

    // A: vj + k·vi, wi − k·wj.
    pub fn effect_a(self, i: u16, j: u16, k: Power, d: Modulus) -> Pauli
        requires { (i < 16) × ((j < 16) × (i ≢ j)) }
        ensures value { (n : ℕ) → i < n → j < n → n ≤ 16 → view n result ≡ effect_a d i j k.0 (view n self) }
        ensures word { (n : ℕ) → i < n → j < n → n ≤ 16 → WordTrue n self → WordTrue n result }
    {
        self.on_two(i, j, |t| t.effect_a(k, d))
    }

    // M: vi becomes k·vi, wi becomes k'·wi, with the inverse k' given.
    pub fn effect_m(self, i: u16, k: Power, inverse: Residue, d: Modulus) -> Pauli
        requires place { i < 16 }
        requires inverse { inverse.0 ≡ inverse_of d k.0 }
        ensures value { (n : ℕ) → i < n → n ≤ 16 → view n result ≡ effect_m d i k.0 (view n self) }
        ensures word { (n : ℕ) → i < n → n ≤ 16 → WordTrue n self → WordTrue n result }
    {
        self.on_one(i, |t| t.effect_m(k, inverse, d))
    }

    // X: δ − 2·k·wi.
    pub fn effect_x(self, i: u16, k: Power, d: Modulus) -> Pauli
        requires { i < 16 }
        ensures value { (n : ℕ) → i < n → n ≤ 16 → view n result ≡ effect_x d i k.0 (view n self) }
        ensures word { (n : ℕ) → i < n → n ≤ 16 → WordTrue n self → WordTrue n result }
    {
        let t = self.touched(i, i).effect_x(k, d);
        self.with_phase(t.phase)
    }

    // Z: δ + 2·k·vi.
    pub fn effect_z(self, i: u16, k: Power, d: Modulus) -> Pauli
        requires { i < 16 }
        ensures value { (n : ℕ) → i < n → n ≤ 16 → view n result ≡ effect_z d i k.0 (view n self) }
        ensures word { (n : ℕ) → i < n → n ≤ 16 → WordTrue n self → WordTrue n result }
    {
        let t = self.touched(i, i).effect_z(k, d);
        self.with_phase(t.phase)
    }

    // C: wi + k·vj, wj + k·vi, δ + 2·k·vi·vj.
    pub fn effect_c(self, i: u16, j: u16, k: Power, d: Modulus) -> Pauli
        requires { (i < 16) × ((j < 16) × (i ≢ j)) }
        ensures value { (n : ℕ) → i < n → j < n → n ≤ 16 → view n result ≡ effect_c d i j k.0 (view n self) }
        ensures word { (n : ℕ) → i < n → j < n → n ≤ 16 → WordTrue n self → WordTrue n result }
    {
        self.on_two(i, j, |t| t.effect_c(k, d))
    }

    // W: v and w of both qudits are exchanged.
    pub fn effect_w(self, i: u16, j: u16) -> Pauli
        requires { (i < 16) × ((j < 16) × (i ≢ j)) }
        ensures value { (n : ℕ) → i < n → j < n → n ≤ 16 → view n result ≡ effect_w i j (view n self) }
        ensures word { (n : ℕ) → i < n → j < n → n ≤ 16 → WordTrue n self → WordTrue n result }
    {
        self.on_two(i, j, |t| t.effect_w())
    }
}
