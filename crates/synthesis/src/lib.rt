// Synthesis: a sound tableau is reduced to the unit Paulis by rows, each put behind every column; the rows' undo rows, the last one first, are the list that does the tableau.
// A contract speaks of the columns and places in use alone (`table_view`).

#![tactic(auto)]

pub mod calls;
pub mod columns;
pub mod list;
pub mod reduction;
pub mod turns;
