// The list handed back: the rows written so far, reversed in place.
ghost use Rattle.std.specs.Prelude.{◌≡◌, List, [], ◌∷◌, ◌++◌, reverse, ℕ, ◌+◌, ◌*◌, ◌≤◌, length};
ghost use Rattle.std.proofs.lemmas.List.Edits.{sets};
ghost use Rattle.gates.specs.Written.{WrittenRow, row_at, encode_rows};

use gates::lists::{read_row, write_row};

// Swaps rows a and b.
fn swap_rows(out: &mut [u8], a: usize, b: usize)
    requires { (8 * (a + 1) ≤ length out.old) × (8 * (b + 1) ≤ length out.old) }
    ensures { out.new ≡ sets (sets out.old (8 * a) (encode_rows (row_at out.old b ∷ []))) (8 * b) (encode_rows (row_at out.old a ∷ [])) }
{
    let x = read_row(out, a);
    let y = read_row(out, b);
    write_row(y, out, a);
    write_row(x, out, b);
}

// Reverses the first `count` rows; no later byte changes. The library reverses a slice of arrays, but says nothing of the bytes that such a slice is lent from.
pub fn reverse_rows(out: &mut [u8], count: usize)
    requires { 8 * count ≤ length out.old }
    ensures { (ws : List WrittenRow) (rest : List ℕ) → length ws ≡ count → out.old ≡ encode_rows ws ++ rest → out.new ≡ encode_rows (reverse ws) ++ rest }
{
    let half = count / 2;
    for r in 0..half {
        swap_rows(out, r, count - 1 - r);
    }
}
