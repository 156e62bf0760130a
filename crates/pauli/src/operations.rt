// Operations on Paulis: products, powers, commutation numbers, and the unit Paulis. The Pauli in work is one value that each takes and hands on.
ghost use Rattle.std.specs.Prelude.{◌≡◌, ℕ, ◌*◌, ◌-◌, ◌<◌};
ghost use Rattle.arith.specs.Bytes.{tab};
ghost use Rattle.arith.specs.Refusals.{number_of};
ghost use Rattle.pauli.specs.Pauli.{InRange, product, power, comm, unit, parity};
ghost use Rattle.pauli.specs.Range.{pauli_range_of, pair_range_of};
ghost use Rattle.pauli.specs.Inner.View.{view, WordTrue, Gives};

use crate::Pauli;
use arith::checks::Refusal;
use arith::modulus::{Modulus, Width};
use arith::residue::{Modular, Phase, Power, Residue};

// k·(k − 1): the pairs of two of k copies, each pair in both orders. An even number.
fn ordered_pairs(k: Power) -> u64
    ensures { (result ≡ k.0 * (k.0 - 1)) × (result < 4294967296) }
{
    let copies = k.0 as u64;
    copies * copies - copies
}

impl Pauli {
    // Unit Pauli j, counted from 0: v at j is 1 below n, w at j − n is 1 from n on.
    pub fn unit(j: usize, n: Width) -> Pauli
        requires { j < 2 * n }
        ensures value { view n result ≡ unit n j }
        ensures word { WordTrue n result }
    {
        let m = n.value();
        let zeros = [Residue::ZERO; 16];
        let mut one = [Residue::ZERO; 16];
        if j < m {
            one[j] = Residue::ONE;
            return Pauli {
                phase: Phase::ZERO,
                v: one,
                w: zeros,
                support: 1 << j,
            };
        }
        one[j - m] = Residue::ONE;
        Pauli {
            phase: Phase::ZERO,
            v: zeros,
            w: one,
            support: 1 << (j - m),
        }
    }

    // The Pauli with this phase whose v and w at qudit i are the pair that `entries` gives for i. One loop makes v, w and the support word, so that both arrays are stored before either is copied: a copy waits for the store before it.
    pub fn from_entries<F: Fn(usize) -> (Residue, Residue)>(
        phase: Phase,
        n: Width,
        entries: F,
    ) -> Pauli
        requires callable { (i : ℕ) → i < n → F.pre entries i }
        ensures value { (v w : ℕ → ℕ) → Gives n (F.post entries) v w → view n result ≡ record { phase = phase.0; v = tab v n; w = tab w n } }
        ensures word { WordTrue n result }
    {
        let mut v = [Residue::ZERO; 16];
        let mut w = [Residue::ZERO; 16];
        let mut word: u16 = 0;
        for i in 0..n.value() {
            let (x, z) = entries(i);
            v[i] = x;
            w[i] = z;
            word = crate::support::with_next(word, i, x, z);
        }
        Pauli {
            phase,
            v,
            w,
            support: word,
        }
    }

    // (δ, v, w) times (ε, s, t): phase δ + ε + 2·(w·s), entries v + s and w + t.
    pub fn product(self, other: Pauli, d: Modulus, n: Width) -> Pauli
        ensures value { view n result ≡ product d (view n self) (view n other) }
        ensures word { WordTrue n result }
    {
        let twist = Phase::reduced(2 * crate::arrays::sum_of_products(self.w, other.v, n), d);
        let phase = self.phase.plus(other.phase, d).plus(twist, d);
        // arrays with names of their own: a closure over `self` and `other` keeps all of both in memory, their words too; tried, a product on 16 qudits took 1.12 of the time
        let (v, w) = (self.v, self.w);
        let (s, t) = (other.v, other.w);
        let sums = |i: usize| (v[i].plus(s[i], d), w[i].plus(t[i], d));
        Pauli::from_entries(phase, n, sums)
    }

    // The product of k copies, at once: phase k·δ + k·(k − 1)·(w·v), entries k·v and k·w. As k·(k − 1) is even, w·v may be reduced modulo d there.
    pub fn power(self, k: Power, d: Modulus, n: Width) -> Pauli
        requires in_range { InRange d n (view n self) }
        ensures value { view n result ≡ power d n (view n self) k.0 }
        ensures word { WordTrue n result }
    {
        let twist = Residue::reduced(crate::arrays::sum_of_products(self.w, self.v, n), d);
        let phase = Phase::reduced(
            ordered_pairs(k) * (twist.value() as u64) + (k.0 as u64) * (self.phase.value() as u64),
            d,
        );
        let (v, w) = (self.v, self.w);
        let multiples = |i: usize| {
            // both are read first: else a power on 16 qudits takes up to 1.08 of the time
            let (x, z) = (v[i], w[i]);
            (x.scaled(k, d), z.scaled(k, d))
        };
        Pauli::from_entries(phase, n, multiples)
    }

    // The commutation number of (δ, v, w) and (ε, s, t), by all their entries: w·s − v·t. It needs no support word.
    #[tactic(auto, using(crate::proofs::Change::commutation_number_lem))]
    pub fn full_commutation(self, other: Pauli, d: Modulus, n: Width) -> Residue
        ensures { result.0 ≡ comm d (view n self) (view n other) }
    {
        let ws = Residue::reduced(crate::arrays::sum_of_products(self.w, other.v, n), d);
        let vt = Residue::reduced(crate::arrays::sum_of_products(self.v, other.w, n), d);
        ws.minus(vt, d)
    }

    // The commutation number: 0 where no qudit is touched by both, and then no entry is looked at.
    pub fn commutation(self, other: Pauli, d: Modulus, n: Width) -> Residue
        requires words { WordTrue n self × WordTrue n other }
        ensures { result.0 ≡ comm d (view n self) (view n other) }
    {
        if self.support & other.support == 0 {
            return Residue::ZERO;
        }
        self.full_commutation(other, d, n)
    }

    // The number δ + (d − 1)·(w·v) modulo 2, which is 0 where the d-th power is the identity.
    pub fn parity(self, d: Modulus, n: Width) -> u16
        ensures { result ≡ parity d (view n self) }
    {
        let sum = crate::arrays::sum_of_products(self.w, self.v, n);
        arith::residue::remainder(
            (self.phase.value() as u64) + ((d.value() as u64) - 1) * sum,
            2,
        )
    }

    // 5: the phase below 2d, then every v and every w below d.
    #[tactic(auto, unfolding(crate::specs::Range::pauli_range_of))]
    pub fn range(self, d: Modulus, n: Width) -> Result<(), Refusal>
        ensures { number_of result ≡ pauli_range_of d (view n self) }
    {
        arith::checks::range(2 * d.value(), self.phase.value())?;
        crate::arrays::bounds(self.v, self.w, d, n)
    }

    // 5 of this Pauli, then of the other.
    #[tactic(auto, unfolding(crate::specs::Range::pair_range_of))]
    pub fn pair_range(self, other: Pauli, d: Modulus, n: Width) -> Result<(), Refusal>
        ensures { number_of result ≡ pair_range_of d (view n self) (view n other) }
    {
        self.range(d, n)?;
        other.range(d, n)
    }
}
