// Tableaus: 2n Paulis, in bytes one after the other, in work an array of columns. What a tableau may be refused for, and the public calls on tableaus.
// Columns count from 0. A loop over columns goes by their numbers: each step needs j itself, for its power, its place in the bytes or its unit, or calls a method whose contract speaks of column j.

#![tactic(auto)]

pub mod batch;
pub mod calls;
pub mod checks;
pub mod column;
pub mod maps;
pub mod output;
pub mod sums;
pub mod table;
