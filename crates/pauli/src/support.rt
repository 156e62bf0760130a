// Which qudits a Pauli touches: bit i of its support word is set exactly when v or w at qudit i, counted from 0, isn't 0.
ghost use Rattle.std.specs.Prelude.{◌≡◌, ◌+◌, ◌≤◌, ◌<◌, get_or};
ghost use Rattle.arith.specs.Bytes.{tab};
ghost use Rattle.pauli.specs.Support.{mark, marks, word_of};
ghost use Rattle.pauli.specs.Inner.View.{entries};
ghost use Rattle.pauli.specs.Inner.Words.{Joins, Changes};

use arith::modulus::Width;
use arith::residue::{Modular, Residue};

// 1 for a qudit that is touched, 0 for any other.
#[tactic(auto, unfolding(crate::specs::Support::mark))]
fn mark(x: Residue, z: Residue) -> u16
    ensures { (result ≡ mark x.0 z.0) × (result < 2) }
{
    u16::from(x != Residue::ZERO || z != Residue::ZERO)
}

// The word of i qudits, and of one more, which has the entries x and z. It is made in the loop that makes the entries: to read them again would wait for their stores.
pub fn with_next(word: u16, i: usize, x: Residue, z: Residue) -> u16
    requires { i < 16 }
    ensures { Joins word i x.0 z.0 result }
{
    word | (mark(x, z) << i)
}

// The word with the bit of qudit i for the entries x and z. No other entry is looked at.
pub fn with_entries(word: u16, i: u16, x: Residue, z: Residue) -> u16
    requires { i < 16 }
    ensures { Changes word i x.0 z.0 result }
{
    let old = (word >> i) % 2;
    word ^ ((old ^ mark(x, z)) << i)
}

// The word of n qudits with these entries. Over places, since `with_next` takes the place too.
pub fn word_of(v: &[Residue; 16], w: &[Residue; 16], n: Width) -> u16
    ensures { result ≡ word_of (marks (entries n v.now) (entries n w.now)) }
{
    let mut word: u16 = 0;
    for i in 0..n.value() {
        word = with_next(word, i, v[i], w[i]);
    }
    word
}

// The word of n qudits, whose v are the numbers from number v on, and whose w those from number w on. Over places, as `word_of`; nothing calls it here.
pub fn word_from(a: &[u16; 33], v: usize, w: usize, n: Width) -> u16
    requires { (v + n ≤ 33) × (w + n ≤ 33) }
    ensures { result ≡ word_of (marks (tab (λ i. get_or a.now (v + i) 0) n) (tab (λ i. get_or a.now (w + i) 0) n)) }
{
    let mut word: u16 = 0;
    for i in 0..n.value() {
        let x = Residue::lent(a[v + i]);
        let z = Residue::lent(a[w + i]);
        word = with_next(word, i, x, z);
    }
    word
}
