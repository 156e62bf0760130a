// A partner's list (document 02, P3): its rows are judged as they are written, and translated in place to document 01's convention.
ghost use Rattle.std.specs.Prelude.{◌≡◌, true, map, ℕ, IfOk};
ghost use Rattle.arith.specs.Refusals.{number_of, row_of};
ghost use Rattle.gates.specs.Written.{legal_row, all_rows, all_legal_rows, list_rows};
ghost use Rattle.gates.specs.Inner.View.{view_row};
ghost use Rattle.text.specs.Partner.{legal_partner, translated};
ghost use Rattle.text.specs.Inner.FromBytes.{partner_list_refusal, undone_of};

use arith::checks::Refusal;
use arith::modulus::{Modulus, given_list};
use gates::Row;
use gates::kind::Kind;
use gates::lists::{read_row, rows_pass};

// Whether a partner may write the row: it is legal, and isn't S.
#[tactic(auto, unfolding(crate::specs::Partner::legal_partner))]
fn may_write(row: Row, d: Modulus, n: usize) -> bool
    ensures { result ≡ legal_partner d n (view_row row) }
{
    row.legal(d, n) && row.kind != Kind::S as u16
}

// 6, row: a row of the list isn't one that a partner may write.
fn rows_check(list: &[u8], d: Modulus, n: usize) -> Result<(), Refusal>
    ensures { number_of result ≡ row_of (all_rows (legal_partner d n) (list_rows list.now)) }
{
    rows_pass(list, |row| may_write(row, d, n))
}

// 1, 2, then 3 and 6 of the list.
pub fn partner_check(d: u16, n: u16, list: &[u8]) -> Result<Modulus, Refusal>
    ensures refusal { number_of result ≡ partner_list_refusal d n list.now }
    ensures value { IfOk result (λ m. m ≡ d) }
{
    let (modulus, width) = given_list(d, n, list.len())?;
    rows_check(list, modulus, width.value())?;
    Ok(modulus)
}

// Whether a partner's row of the kind is ours undone: A, M and X.
fn is_undone(kind: Kind) -> bool
    ensures { result ≡ undone_of kind }
{
    matches!(kind, Kind::A | Kind::M | Kind::X)
}

// The row in document 01's convention.
fn our_row(row: Row, d: Modulus) -> Row
    requires { (n : ℕ) × (legal_row d n (view_row row) ≡ true) }
    ensures { view_row result ≡ translated d (view_row row) }
{
    if Kind::try_from(row.kind).is_ok_and(is_undone) {
        return row.undo(d);
    }
    row
}

// Translates the rows of the list in place. Only powers change. It takes no `LegalList`, which lends the bytes to be read alone. It goes by the rows' numbers: of a slice that is written by its chunks (`chunks_exact_mut`) the
// library says the length alone.
pub fn translate(list: &mut [u8], d: Modulus)
    requires { (n : ℕ) × (all_legal_rows d n (list_rows list.old) ≡ true) }
    ensures { list_rows list.new ≡ map (translated d) (list_rows list.old) }
{
    let rows = list.len() / 8;
    for r in 0..rows {
        let row = our_row(read_row(list, r), d);
        arith::numbers::put(list, 4 * r + 3, row.power);
    }
}
