// A batch of Paulis, end to end in bytes, and their images. All tests are made before the first byte is written, and the tableau is tested once.
ghost use Rattle.std.specs.Prelude.{◌≡◌, map, ◌+◌, ◌*◌, ◌/◌, ◌≤◌, length, take};
ghost use Rattle.arith.specs.Bytes.{front};
ghost use Rattle.arith.specs.Refusals.{number_of};
ghost use Rattle.arith.specs.Answers.{Written};
ghost use Rattle.tableau.specs.Tableau.{image, AllInRange};
ghost use Rattle.tableau.specs.Bytes.{tableau_bytes, decode_tableau, encode_tableau};
ghost use Rattle.tableau.specs.Range.{tableau_range_of};
ghost use Rattle.tableau.specs.Batch.{images_refusal, images_answer};
ghost use Rattle.tableau.specs.Inner.Parts.{images_tests, decode_batch};
ghost use Rattle.tableau.specs.Inner.View.{table_view};

use crate::column::Table;
use arith::checks::Refusal;
use arith::modulus::{Modulus, Width};
use pauli::Pauli;

// ---- tests

// 5 of every Pauli.
#[tactic(auto, using(crate::proofs::Chunks::chunk_refuse, crate::proofs::Chunks::chunk_pass, crate::proofs::Chunks::chunk_end))]
fn ranges(batch: &[u8], d: Modulus, n: Width) -> Result<(), Refusal>
    ensures { number_of result ≡ tableau_range_of d (decode_batch n batch.now) }
{
    for p in batch.chunks_exact(2 * (1 + 2 * n.value())) {
        Pauli::read(p, 0, n).range(d, n)?;
    }
    Ok(())
}

// 5 of the first Pauli, if there is one.
#[tactic(auto, using(crate::proofs::Chunks::batch_first))]
fn first_range(batch: &[u8], d: Modulus, n: Width) -> Result<(), Refusal>
    ensures { number_of result ≡ tableau_range_of d (take 1 (decode_batch n batch.now)) }
{
    let size = 2 * (1 + 2 * n.value());
    ranges(&batch[..size.min(batch.len())], d, n)
}

// ---- images

impl Table {
    // Writes the images of the Paulis. It asks for them in range, so that it is called only behind the test of every one.
    fn write_images(&self, batch: &[u8], d: Modulus, n: Width, out: &mut [u8])
        requires all_in_range { AllInRange d n (table_view n self.now) × AllInRange d n (decode_batch n batch.now) }
        requires room { length batch.now ≤ length out.old }
        ensures { out.new ≡ front (encode_tableau (map (image d n (table_view n self.now)) (decode_batch n batch.now))) out.old }
    {
        let numbers = 1 + 2 * n.value();
        let m = batch.len() / (2 * numbers);
        crate::output::write_paulis(
            m,
            n,
            out,
            |j| self.image(Pauli::read(batch, j * numbers, n), d, n),
        );
    }
}

// ---- the call

// The images, where the lengths are right: 5 of the tableau and of the first Pauli, 7 and 8, then 5 of every Pauli. A function of its own, so that its contract tells the refusal by these tests; that of `images` tells it by single calls.
fn tested_images(
    d: Modulus,
    n: Width,
    tableau: &[u8],
    batch: &[u8],
    out: &mut [u8],
) -> Result<(), Refusal>
    requires lengths { (length tableau.now ≡ tableau_bytes n) × (length batch.now ≤ length out.old) }
    ensures { Written (images_tests d n (decode_tableau n tableau.now) (decode_batch n batch.now)) (images_answer d n tableau.now batch.now) out.old out.new (number_of result) }
{
    let mut t = Table::ZERO;
    t.read(tableau, n);
    t.range(d, n)?;
    first_range(batch, d, n)?;
    t.soundness(d, n)?;
    ranges(batch, d, n)?;
    t.write_images(batch, d, n, out);
    Ok(())
}

// The images of up to 512 Paulis under the tableau. Refused by 1 and 2, 3 of the tableau and of the batch, 4 of all images, then as `tested_images` says.
pub fn images(d: u16, n: u16, tableau: &[u8], batch: &[u8], out: &mut [u8]) -> Result<(), Refusal>
    ensures { Written (images_refusal d n tableau.now batch.now (length out.old)) (images_answer d n tableau.now batch.now) out.old out.new (number_of result) }
{
    let (modulus, width) = crate::calls::given(d, n, tableau.len())?;
    arith::checks::whole(2 * (1 + 2 * width.value()), 512, batch.len())?;
    arith::checks::room(batch.len(), out.len())?;
    tested_images(modulus, width, tableau, batch, out)
}
