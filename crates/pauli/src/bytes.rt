// Paulis in bytes: the phase, then v, then w, each number two bytes.
// Its loops go over places: each step needs the place itself, for the number of the bytes, and an iterator over an array would only give it back by `enumerate`.
ghost use Rattle.std.specs.Prelude.{◌≡◌, ℕ, ◌+◌, ◌*◌, ◌≤◌, ◌<◌, length, get_or};
ghost use Rattle.std.proofs.lemmas.List.Edits.{sets};
ghost use Rattle.arith.specs.Bytes.{number_at, numbers_at, bytes_of};
ghost use Rattle.pauli.specs.Bytes.{decode_at, encode};
ghost use Rattle.pauli.specs.Support.{marks, word_of};
ghost use Rattle.pauli.specs.Inner.View.{entries, view, WordTrue};

use crate::Pauli;
use arith::modulus::Width;
use arith::residue::{Modular, Phase, Residue};

// The m numbers from number k on.
fn read_numbers(b: &[u8], k: usize, m: usize) -> [u16; 33]
    requires { (m ≤ 33) × (2 * (k + m) ≤ length b.now) }
    ensures { (i : ℕ) → i < m → get_or result i 0 ≡ number_at b.now (k + i) }
{
    let mut out = [0u16; 33];
    for i in 0..m {
        out[i] = arith::numbers::get(b, k + i);
    }
    out
}

// The support word of n qudits, whose v start at number k, with w behind. It is made from the bytes: to read the numbers again would wait for their stores.
fn word_at(b: &[u8], k: usize, n: Width) -> u16
    requires { 2 * (k + 2 * n) ≤ length b.now }
    ensures { result ≡ word_of (marks (numbers_at b.now k n) (numbers_at b.now (k + n) n)) }
{
    let m = n.value();
    let mut word: u16 = 0;
    for i in 0..m {
        let x = Residue::lent(arith::numbers::get(b, k + i));
        let z = Residue::lent(arith::numbers::get(b, k + m + i));
        word = crate::support::with_next(word, i, x, z);
    }
    word
}

// Writes the first n entries from number k on.
#[tactic(auto, using(arith::proofs::Bytes::write_none, arith::proofs::Bytes::write_next))]
fn write_entries(b: &mut [u8], k: usize, a: [Residue; 16], n: Width)
    requires { 2 * (k + n) ≤ length b.old }
    ensures { b.new ≡ sets b.old (2 * k) (bytes_of (entries n a)) }
{
    for i in 0..n.value() {
        arith::numbers::put(b, k + i, a[i].value());
    }
}

impl Pauli {
    // The Pauli on n qudits that starts at number k of the bytes. All its numbers are read in one loop: of v and w it holds 16 places, whatever n is. Tried, v, w and the word in one loop, as `from_entries` makes them: a commutation number on 16 qudits takes a fifth longer.
    pub fn read(b: &[u8], k: usize, n: Width) -> Pauli
        requires { 2 * (k + 1 + 2 * n) ≤ length b.now }
        ensures value { view n result ≡ decode_at n k b.now }
        ensures word { WordTrue n result }
    {
        let m = n.value();
        let numbers = read_numbers(b, k, 1 + 2 * m);
        let v = crate::arrays::entries_from(&numbers, 1);
        let w = crate::arrays::entries_from(&numbers, 1 + m);
        let word = word_at(b, k + 1, n);
        Pauli {
            phase: Phase::lent(numbers[0]),
            v,
            w,
            support: word,
        }
    }

    // Writes it from number k on.
    #[tactic(auto, using(crate::proofs::Encoding::write_pauli, arith::proofs::Bytes::tab_length))]
    pub fn write(self, b: &mut [u8], k: usize, n: Width)
        requires { 2 * (k + 1 + 2 * n) ≤ length b.old }
        ensures { b.new ≡ sets b.old (2 * k) (encode (view n self)) }
    {
        arith::numbers::put(b, k, self.phase.value());
        write_entries(b, k + 1, self.v, n);
        write_entries(b, k + 1 + n.value(), self.w, n);
    }
}
