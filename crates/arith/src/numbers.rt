// Numbers in bytes: two bytes each, low byte first.
ghost use Rattle.std.specs.Prelude.{◌≡◌, [], ◌∷◌, ◌+◌, ◌*◌, ◌<◌, length};
ghost use Rattle.std.proofs.lemmas.List.Edits.{sets};
ghost use Rattle.arith.specs.Bytes.{number_at, bytes_of};

// Number k of the bytes.
#[tactic(auto, unfolding(crate::specs::Bytes::number_at))]
pub fn get(b: &[u8], k: usize) -> u16
    requires { 2 * k + 1 < length b.now }
    ensures { result ≡ number_at b.now k }
{
    u16::from_le_bytes([b[2 * k], b[2 * k + 1]])
}

// Writes x as number k.
#[tactic(auto, unfolding(crate::specs::Bytes::bytes_of))]
pub fn put(b: &mut [u8], k: usize, x: u16)
    requires { 2 * k + 1 < length b.old }
    ensures { b.new ≡ sets b.old (2 * k) (bytes_of (x ∷ [])) }
{
    let [low, high] = x.to_le_bytes();
    b[2 * k] = low;
    b[2 * k + 1] = high;
}
