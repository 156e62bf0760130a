// Lists of rows in bytes, 8 bytes a row. The loop that tests them goes over chunks. Loops that need each row to be legal go by the rows' numbers, of which `legal_at` and `LegalList::row` speak:
// tried, a loop over chunks has to carry that the rows left are legal, and an iterator over legal rows gets no proof.
ghost use Rattle.std.specs.Prelude.{◌≡◌, [], ◌∷◌, Bool, true, ℕ, ◌+◌, ◌*◌, ◌/◌, ◌≤◌, ◌<◌, length, IfOk};
ghost use Rattle.std.proofs.lemmas.List.Edits.{sets};
ghost use Rattle.arith.specs.Refusals.{number_of, row_of};
ghost use Rattle.pauli.specs.Inner.View.{view, WordTrue};
ghost use Rattle.gates.specs.Row.{apply, run};
ghost use Rattle.gates.specs.Ticks.{ticks};
ghost use Rattle.gates.specs.Written.{WrittenRow, meant, row_at, list_rows, rows_of, encode_rows, legal_row, all_rows, all_legal_rows};
ghost use Rattle.gates.specs.Inner.View.{Code, view_row};

use crate::Row;
use arith::checks::{Refusal, unless_holds};
use arith::modulus::{Modulus, Width};
use pauli::Pauli;

// Row r of the bytes.
pub fn read_row(b: &[u8], r: usize) -> Row
    requires { 8 * r + 8 ≤ length b.now }
    ensures { view_row result ≡ row_at b.now r }
{
    Row {
        kind: arith::numbers::get(b, 4 * r),
        first: arith::numbers::get(b, 4 * r + 1),
        second: arith::numbers::get(b, 4 * r + 2),
        power: arith::numbers::get(b, 4 * r + 3),
    }
}

// Writes a row as row r of the output.
pub fn write_row(row: Row, out: &mut [u8], r: usize)
    requires { 8 * (r + 1) ≤ length out.old }
    ensures { out.new ≡ sets out.old (8 * r) (encode_rows (view_row row ∷ [])) }
{
    let numbers = [row.kind, row.first, row.second, row.power];
    for (i, number) in numbers.iter().enumerate() {
        arith::numbers::put(out, 4 * r + i, *number);
    }
}

// 6, row: a row of the list doesn't pass the test.
#[tactic(auto, using(crate::proofs::Written::all_next, crate::proofs::Written::all_fails, crate::proofs::Written::all_end), unfolding(arith::specs::Refusals::row_of))]
pub fn rows_pass<F: Fn(Row) -> bool>(list: &[u8], test: F) -> Result<(), Refusal>
    requires { F.IsAlwaysCallable test }
    ensures { (p : WrittenRow → Bool) → ((r : Code) (b : Bool) → F.post test r b → b ≡ p (view_row r)) → number_of result ≡ row_of (all_rows p (list_rows list.now)) }
{
    for row in list.chunks_exact(8) {
        unless_holds(Refusal::Row, test(read_row(row, 0)))?;
    }
    Ok(())
}

// 6, row: a row of the list isn't legal.
pub fn list_legal(list: &[u8], d: Modulus, n: usize) -> Result<(), Refusal>
    ensures { number_of result ≡ row_of (all_legal_rows d n (list_rows list.now)) }
{
    rows_pass(list, |row| row.legal(d, n))
}

// A list whose rows are all legal, with d and n. What needs legal rows takes this and not the bytes, so that no contract asks for the test again; but for `list_ticks`, whose promise is for every d, which a `Modulus` would narrow, and text's `translate`, which changes the list in place.
#[derive(Clone, Copy)]
pub struct LegalList<'a> {
    pub bytes: &'a [u8],
    pub d: Modulus,
    pub n: Width,
    ghost legal: { all_legal_rows d n (list_rows bytes.now) ≡ true },
}

impl<'a> LegalList<'a> {
    // 6, row: a row of the list isn't legal.
    #[tactic(auto, using(arith::proofs::Refusals::row_good))]
    pub fn new(bytes: &'a [u8], d: Modulus, n: Width) -> Result<LegalList<'a>, Refusal>
        ensures refusal { number_of result ≡ row_of (all_legal_rows d n (list_rows bytes.now)) }
        ensures value { IfOk result (λ l. (l.bytes.now ≡ bytes.now) × ((l.d ≡ d) × (l.n ≡ n))) }
    {
        list_legal(bytes, d, n.value())?;
        Ok(LegalList { bytes, d, n })
    }

    // How many rows there are.
    pub fn count(&self) -> usize
        ensures { result ≡ length self.now.bytes.now / 8 }
    {
        self.bytes.len() / 8
    }

    // Row r, which is legal.
    #[tactic(auto, using(crate::proofs::Written::legal_at))]
    pub fn row(&self, r: usize) -> Row
        requires { r < length self.now.bytes.now / 8 }
        ensures row { view_row result ≡ row_at self.now.bytes.now r }
        ensures legal { legal_row self.now.d self.now.n (view_row result) ≡ true }
    {
        read_row(self.bytes, r)
    }

    // What the list carries the Pauli to: each row takes what the one before it handed on.
    #[tactic(auto, using(crate::proofs::Run::run_start, crate::proofs::Run::run_next))]
    pub fn run(&self, p: Pauli) -> Pauli
        ensures value { view self.now.n result ≡ run self.now.d (rows_of self.now.bytes.now) (view self.now.n p) }
        ensures word { WordTrue self.now.n p → WordTrue self.now.n result }
    {
        let count = self.count();
        let mut q = p;
        for r in 0..count {
            q = self.row(r).apply(q, self.d, self.n);
        }
        q
    }
}

// The highest tick used by a list. `last` has the last tick used by each qudit; for a kind on one qudit i and j are that one.
pub fn list_ticks(list: &[u8]) -> u16
    requires size { length list.now ≤ 8 * 4096 }
    requires legal { (d : ℕ) × ((n : ℕ) × ((n ≤ 16) × (all_legal_rows d n (list_rows list.now) ≡ true))) }
    ensures { result ≡ ticks (rows_of list.now) }
{
    let rows = list.len() / 8;
    let mut last: [u16; 16] = [0; 16];
    let mut highest: u16 = 0;
    for r in 0..rows {
        let next = read_row(list, r);
        let i = next.first as usize - 1;
        let j = next.other();
        let tick = last[i].max(last[j]) + 1;
        last[i] = tick;
        last[j] = tick;
        highest = highest.max(tick);
    }
    highest
}
