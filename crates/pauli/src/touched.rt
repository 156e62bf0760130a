// The effect of each kind of gate row on the numbers that it touches: the phase, and v and w at its qudits i and j.
// A kind on one qudit takes j as i, and makes the same of both.
ghost use Rattle.std.specs.Prelude.{◌≡◌, ◌+◌, ◌≤◌, eqb};
ghost use Rattle.arith.specs.Units.{inverse_of};
ghost use Rattle.pauli.specs.Inner.Touched.{view_touched, still, OnOne, OnTwo};
ghost use Rattle.pauli.specs.Effects.{fourier, effect_f, effect_s, effect_a, effect_m, effect_x, effect_z, effect_c, effect_w};

use arith::modulus::Modulus;
use arith::residue::{Modular, Phase, Power, Residue};

#[derive(Clone, Copy)]
pub struct Touched {
    pub phase: Phase,
    pub vi: Residue,
    pub wi: Residue,
    pub vj: Residue,
    pub wj: Residue,
}

// The numbers of one qudit.
fn on_one(phase: Phase, v: Residue, w: Residue) -> Touched
    ensures { result ≡ record { phase = phase; vi = v; wi = w; vj = v; wj = w } }
{
    Touched {
        phase,
        vi: v,
        wi: w,
        vj: v,
        wj: w,
    }
}

// Whether both are 0. The compiler makes one test of v and w of a qudit, since neither comparison has an effect: a test of each is guessed wrongly by the processor more often.
fn both_zero(v: Residue, w: Residue) -> bool
    ensures { result ≡ eqb (v.0 + w.0) 0 }
{
    v == Residue::ZERO && w == Residue::ZERO
}

impl Touched {
    // F once: δ − 2·vi·wi, then vi, wi become −wi, vi.
    pub fn fourier(self, d: Modulus) -> Touched
        ensures { OnOne (λ i p. fourier d i p) (view_touched self) (view_touched result) }
    {
        let phase = self.phase;
        let x = self.vi;
        let z = self.wi;
        let moved = x.times(z, d).doubled(d);
        on_one(phase.minus(moved, d), z.negative(d), x)
    }

    // F twice: v and w become −v and −w, and the phases that the two add cancel.
    fn half_turn(self, d: Modulus) -> Touched
        ensures { OnOne (λ i p. fourier d i (fourier d i p)) (view_touched self) (view_touched result) }
    {
        let phase = self.phase;
        let x = self.vi;
        let z = self.wi;
        on_one(phase.within(d), x.negative(d), z.negative(d))
    }

    // F: k times. Two at a time, and one more where k is odd.
    pub fn effect_f(self, k: Power, d: Modulus) -> Touched
        ensures { OnOne (λ i p. effect_f d i k.0 p) (view_touched self) (view_touched result) }
    {
        let times = k.0;
        let mut t = self;
        for _ in 0..times / 2 {
            t = t.half_turn(d);
        }
        if times % 2 == 0 {
            return t;
        }
        t.fourier(d)
    }

    // S: δ + k·vi·(vi + d), wi + k·vi.
    pub fn effect_s(self, k: Power, d: Modulus) -> Touched
        ensures { OnOne (λ i p. effect_s d i k.0 p) (view_touched self) (view_touched result) }
    {
        let phase = self.phase;
        let x = self.vi;
        let z = self.wi;
        let moved = x.sheared(k, d);
        on_one(phase.plus(moved, d), x, z.plus(x.scaled(k, d), d))
    }

    // A: vj + k·vi, wi − k·wj.
    pub fn effect_a(self, k: Power, d: Modulus) -> Touched
        ensures { OnTwo (λ i j p. effect_a d i j k.0 p) (view_touched self) (view_touched result) }
    {
        Touched {
            wi: self.wi.minus(self.wj.scaled(k, d), d),
            vj: self.vj.plus(self.vi.scaled(k, d), d),
            ..self
        }
    }

    // M: vi becomes k·vi, wi becomes k'·wi, with the inverse k' given.
    pub fn effect_m(self, k: Power, inverse: Residue, d: Modulus) -> Touched
        requires inverse { inverse.0 ≡ inverse_of d k.0 }
        ensures { OnOne (λ i p. effect_m d i k.0 p) (view_touched self) (view_touched result) }
    {
        let phase = self.phase;
        let x = self.vi;
        let z = self.wi;
        on_one(phase, x.scaled(k, d), inverse.times(z, d))
    }

    // X: δ − 2·k·wi.
    pub fn effect_x(self, k: Power, d: Modulus) -> Touched
        ensures { OnOne (λ i p. effect_x d i k.0 p) (view_touched self) (view_touched result) }
    {
        let phase = self.phase;
        let x = self.vi;
        let z = self.wi;
        let moved = z.scaled(k, d).doubled(d);
        on_one(phase.minus(moved, d), x, z)
    }

    // Z: δ + 2·k·vi.
    pub fn effect_z(self, k: Power, d: Modulus) -> Touched
        ensures { OnOne (λ i p. effect_z d i k.0 p) (view_touched self) (view_touched result) }
    {
        let phase = self.phase;
        let x = self.vi;
        let z = self.wi;
        let moved = x.scaled(k, d).doubled(d);
        on_one(phase.plus(moved, d), x, z)
    }

    // C: wi + k·vj, wj + k·vi, δ + 2·k·vi·vj.
    pub fn effect_c(self, k: Power, d: Modulus) -> Touched
        ensures { OnTwo (λ i j p. effect_c d i j k.0 p) (view_touched self) (view_touched result) }
    {
        let times_x = self.vi.scaled(k, d);
        let moved = times_x.times(self.vj, d).doubled(d);
        Touched {
            phase: self.phase.plus(moved, d),
            wi: self.wi.plus(self.vj.scaled(k, d), d),
            wj: self.wj.plus(times_x, d),
            ..self
        }
    }

    // W: vi and vj, and wi and wj, are exchanged.
    pub fn effect_w(self) -> Touched
        ensures { OnTwo (λ i j p. effect_w i j p) (view_touched self) (view_touched result) }
    {
        Touched {
            phase: self.phase,
            vi: self.vj,
            wi: self.wj,
            vj: self.vi,
            wj: self.wi,
        }
    }

    // Whether no row changes them: v and w are 0 at its qudits, and the phase is below 2d, so that no row reduces it.
    pub fn still(self, d: Modulus) -> bool
        ensures { result ≡ still d (view_touched self) }
    {
        both_zero(self.vi, self.wi)
            && both_zero(self.vj, self.wj)
            && self.phase.value() < 2 * d.value()
    }
}
