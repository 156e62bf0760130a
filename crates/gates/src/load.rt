// A repeatable load: the list that d, n, a seed and a number of rows give.
ghost use Rattle.std.specs.Prelude.{◌≡◌, ◌+◌, ◌*◌, ◌<◌, ◌≤◌, length, true};
ghost use Rattle.arith.specs.Bytes.{front};
ghost use Rattle.gates.specs.Written.{encode_rows, takes_two, highest};
ghost use Rattle.gates.specs.Load.{mixed, draw, row_draws, drawn_kind, drawn_first, drawn_second, unit_from, drawn_power, drawn_row, load_rows};
ghost use Rattle.gates.specs.Inner.View.{view_row};

use crate::kind::Kind;
use crate::lists::write_row;
use crate::{Row, highest_power, takes_two};
use arith::divisor::is_unit;
use arith::modulus::{Modulus, Width};
use arith::residue::Residue;
use std::num::wrapping_add_u64;

// What each draw adds to the state.
const STEP: u64 = 0x9E37_79B9_7F4A_7C15;

// Draws, by the state that the last one left; at first it is the seed.
#[derive(Drop)]
struct Draws {
    state: u64,
}

// The value of a draw, by the state that it leaves.
#[tactic(auto, unfolding(crate::specs::Load::mixed))]
fn mixed(state: u64) -> u64
    ensures { result ≡ mixed state }
{
    let t = state ^ (state >> 30);
    let u = t ^ (t << 27);
    u ^ (u >> 31)
}

// The kind of a row on n qudits. With one qudit there is no second one for A, which becomes F.
fn drawn_kind(n: usize, draw: u64) -> u16
    ensures { result ≡ drawn_kind n draw }
{
    let kind = 1 + (draw % 6) as u16;
    if n == 1 && kind == Kind::A as u16 {
        return Kind::F as u16;
    }
    kind
}

// The first qudit of a row on n qudits.
fn drawn_first(n: usize, draw: u64) -> u16
    requires { (0 < n) × (n ≤ 16) }
    ensures { result ≡ drawn_first n draw }
{
    1 + (draw % (n as u64)) as u16
}

// The second qudit of a row: 0 where its kind takes one, else another than the first. It is drawn among n − 1, and those from the first on stand for the next one up.
fn drawn_second(n: usize, kind: u16, first: u16, draw: u64) -> u16
    requires few { n ≤ 16 }
    requires two { takes_two kind ≡ true → 1 < n }
    ensures { result ≡ drawn_second n kind first draw }
{
    if !takes_two(kind) {
        return 0;
    }
    let second = 1 + (draw % (n as u64 - 1)) as u16;
    if second < first { second } else { second + 1 }
}

// The first unit from k on. There is one below d, since d − 1 is a unit.
#[tactic(auto, using(crate::proofs::Loads::unit_here, crate::proofs::Loads::unit_next, crate::proofs::Loads::unit_rises))]
fn unit_from(k: u16, d: Modulus) -> u16
    requires { k < d }
    ensures { result ≡ unit_from d k }
{
    let mut power = k;
    while !is_unit(Residue::below(power, d.value()), d.value()) {
        power += 1;
    }
    power
}

// The power of a row of a kind.
fn drawn_power(kind: u16, draw: u64, d: Modulus) -> u16
    requires { 0 < highest d kind }
    ensures { result ≡ drawn_power d kind draw }
{
    let power = 1 + (draw % (highest_power(kind, d) as u64)) as u16;
    if kind == Kind::M as u16 {
        return unit_from(power, d);
    }
    power
}

impl Draws {
    // The next draw.
    #[tactic(auto, unfolding(crate::specs::Load::draw))]
    fn draw(&mut self) -> u64
        ensures value { result ≡ (draw self.old.state).value }
        ensures state { self.new.state ≡ (draw self.old.state).state }
    {
        self.state = wrapping_add_u64(self.state, STEP);
        mixed(self.state)
    }

    // The next row. All four draws are made, whatever its kind.
    #[tactic(auto, unfolding(crate::specs::Load::row_draws, crate::specs::Load::drawn_row))]
    fn row(&mut self, d: Modulus, n: Width) -> Row
        requires { 0 < n }
        ensures row { view_row result ≡ drawn_row d n (row_draws self.old.state) }
        ensures state { self.new.state ≡ (row_draws self.old.state).state }
    {
        let n = n.value();
        let kind = drawn_kind(n, self.draw());
        let first = drawn_first(n, self.draw());
        let second = drawn_second(n, kind, first, self.draw());
        let power = drawn_power(kind, self.draw(), d);
        Row {
            kind,
            first,
            second,
            power,
        }
    }
}

// Writes a load of `count` rows to the front of the output.
pub fn write_load(d: Modulus, n: Width, seed: u64, count: u16, out: &mut [u8])
    requires some { 0 < n }
    requires room { 8 * count ≤ length out.old }
    ensures { out.new ≡ front (encode_rows (load_rows d n seed count)) out.old }
{
    let mut draws = Draws { state: seed };
    for r in 0..count as usize {
        write_row(draws.row(d, n), out, r);
    }
}
