// Paulis: a phase modulo 2d and residues modulo d; products, powers, commutation numbers, the effect of each gate row, and the public calls on bytes.
// Of the 16 places of v and w the first n are in use; a contract speaks of those alone (`view`).
// The support word says which qudits are touched: where v or w isn't 0. Whoever makes a Pauli promises that its word is true of the places in use (`WordTrue`).

#![tactic(auto)]

pub mod arrays;
pub mod bytes;
pub mod calls;
pub mod effects;
pub mod operations;
pub mod support;
pub mod touched;

use arith::residue::{Phase, Residue};

// `WordTrue` is a clause of each function and no invariant of the struct: a Pauli doesn't hold n, and an effect keeps the word true for every n at once.
#[derive(Clone, Copy)]
pub struct Pauli {
    pub phase: Phase,
    // two arrays, and none of pairs: a sum of products takes several entries of one kind at a time
    pub v: [Residue; 16],
    pub w: [Residue; 16],
    pub support: u16,
}
