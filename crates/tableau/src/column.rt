// The tableau in work: 32 columns, of which 2n are in use. A column is a phase, and v and w at 16 places, of which n are in use.
ghost use Rattle.std.specs.Prelude.{◌≡◌, length};

use arith::residue::{Phase, Residue};

// A column: what the tableau makes of one unit Pauli. It is no `Pauli`: each row that is put behind would have to keep the support words of all columns true, and nothing reads a word before `Table::column` makes it.
#[derive(Clone, Copy)]
pub struct Column {
    pub phase: Phase,
    // two arrays, and none of pairs: the bytes have all v, then all w, and a sum of products takes several entries of one kind at a time
    pub v: [Residue; 16],
    pub w: [Residue; 16],
    // as long as their types say: what nothing else tells of an array behind a reference
    ghost places: { (length v ≡ 16) × (length w ≡ 16) },
}

impl Column {
    pub const ZERO: Column = Column {
        phase: Phase::ZERO,
        v: [Residue::ZERO; 16],
        w: [Residue::ZERO; 16],
    };
}

// The columns, of which one is lent to be written by way of a reference to all: the length is a fact of the table, which holds again when that ends.
#[derive(Clone, Copy)]
pub struct Table {
    pub columns: [Column; 32],
    ghost size: { length columns ≡ 32 },
}

impl Table {
    pub const ZERO: Table = Table {
        columns: [Column::ZERO; 32],
    };
}
