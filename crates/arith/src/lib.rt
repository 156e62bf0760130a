// Arithmetic: residues modulo d, phases modulo 2d, common divisors, numbers in bytes, and the checks that every public call makes.

#![tactic(auto)]

pub mod calls;
pub mod checks;
pub mod divisor;
pub mod modulus;
pub mod numbers;
pub mod residue;
