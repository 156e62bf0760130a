// The turns of the reduction: which row each puts behind next, if any. Where a turn asks for n and doesn't use it, it is for what `width` says of it: that a qudit's number fits a row.
ghost use Rattle.std.specs.Prelude.{◌≡◌, ◌≢◌, cond, List, ℕ, ◌*◌, ◌≤◌, ◌<◌, eqb, ltb, get_or, None, Some};
ghost use Rattle.arith.specs.Units.{IsUnit};
ghost use Rattle.pauli.specs.Pauli.{Pauli};
ghost use Rattle.gates.specs.Row.{F};
ghost use Rattle.tableau.specs.Tableau.{column};
ghost use Rattle.synthesis.specs.Inner.Reduce.{put, put_s, put_a, gather_w, exchange, clear_w, gather, scale, clear_v, clear_partner_w, clear_partner_v, shear_partner, clear_z, clear_x};
ghost use Rattle.synthesis.specs.Inner.Progress.{Says};
ghost use Rattle.synthesis.specs.Inner.Did.{Makes};

use crate::columns::Columns;
use arith::divisor::{inverse, least_multiplier};
use arith::modulus::Modulus;
use arith::residue::{Modular, Residue};
use gates::Row;
use gates::kind::Kind;

// The row, unless its power is `idle`, which does nothing.
fn unless(idle: u16, row: Row) -> Option<Row>
    ensures { result ≡ cond (eqb row.power idle) None (Some row) }
{
    if row.power == idle { None } else { Some(row) }
}

// A from qudit i to qudit j; a power of 0 is no row.
fn by_a(i: usize, j: usize, k: Residue) -> Option<Row>
    requires { (i < 65535) × (j < 65535) }
    ensures { (d n : ℕ) (t : List Pauli) → i < n → j < n → i ≢ j → k.0 < d → Says d n (put_a d i j k.0) t result }
{
    unless(0, Row::on_two(Kind::A, i, j, k.value()))
}

// S on qudit i, with the power nearer to 0 of the two that do to the entries what k does; a multiple of d is no row.
fn by_s(i: usize, k: Residue, d: Modulus) -> Option<Row>
    requires { i < 65535 }
    ensures { (n : ℕ) (t : List Pauli) → i < n → Says d n (put_s d i k.0) t result }
{
    let m = d.value();
    let low = k.value() % m;
    if low == 0 {
        return None;
    }
    let near = if 2 * low < m { low } else { low + m };
    Some(Row::on_one(Kind::S, i, near))
}

// The power of F by which the new v, −w or w, is the lower.
fn exchange_power(w: Residue, d: Modulus) -> u16
    ensures { result ≡ cond (ltb d (2 * w.0)) 1 3 }
{
    if (d.value() as u32) < 2 * (w.value() as u32) {
        return 1;
    }
    3
}

// ---- column c at qudit j

// S, after which gcd(w, d) divides v.
pub fn gather_w<C: Columns>(t: &C, c: usize, j: usize) -> Option<Row>
    requires { (c < 2 * (C.held t.now).n) × (j < (C.held t.now).n) }
    ensures { Makes (λ d n. gather_w d n c j) (C.held t.now) result }
{
    let d = t.modulus();
    let _few = t.width();
    let k = least_multiplier(t.w(c, j), t.v(c, j), d.value());
    by_s(j, k, d)
}

// F, by which v and w change places.
pub fn exchange<C: Columns>(t: &C, c: usize, j: usize) -> Option<Row>
    requires { (c < 2 * (C.held t.now).n) × (j < (C.held t.now).n) }
    ensures { Makes (λ d n. exchange d n c j) (C.held t.now) result }
{
    let _few = t.width();
    Some(Row::on_one(Kind::F, j, exchange_power(t.w(c, j), t.modulus())))
}

// S with that power.
pub fn shear<C: Columns>(t: &C, j: usize, power: Residue) -> Option<Row>
    requires { j < (C.held t.now).n }
    ensures { Makes (λ d n. put_s d j power.0) (C.held t.now) result }
{
    let _few = t.width();
    by_s(j, power, t.modulus())
}

// S, by which w becomes 0; none where no power does that.
pub fn clear_w<C: Columns>(t: &C, c: usize, j: usize) -> Option<Row>
    requires { (c < 2 * (C.held t.now).n) × (j < (C.held t.now).n) }
    ensures { Makes (λ d n. clear_w d n c j) (C.held t.now) result }
{
    let k = t.clearing(c, j)?;
    shear(t, j, k)
}

// ---- the stage of qudit q, with a later qudit j

// A, after which gcd(v, d) of column q at q divides v at j.
pub fn gather<C: Columns>(t: &C, q: usize, j: usize) -> Option<Row>
    requires { (q < j) × (j < (C.held t.now).n) }
    ensures { Makes (λ d n. gather d n q j) (C.held t.now) result }
{
    let _few = t.width();
    let k = least_multiplier(t.v(q, q), t.v(q, j), t.modulus().value());
    by_a(j, q, k)
}

// M, by which v of column q becomes 1 at q.
pub fn scale<C: Columns>(t: &C, q: usize) -> Option<Row>
    requires place { q < (C.held t.now).n }
    requires unit { IsUnit (C.held t.now).d (get_or (column (C.held t.now).n (C.held t.now).tableau q).v q 0) }
    ensures { Makes (λ d n. scale d n q) (C.held t.now) result }
{
    let _few = t.width();
    let k = inverse(t.v(q, q), t.modulus());
    unless(1, Row::on_one(Kind::M, q, k.value()))
}

// A, by which v of column q becomes 0 at j.
pub fn clear_v<C: Columns>(t: &C, q: usize, j: usize) -> Option<Row>
    requires { (q < j) × (j < (C.held t.now).n) }
    ensures { Makes (λ d n. clear_v d n q j) (C.held t.now) result }
{
    let _few = t.width();
    by_a(q, j, t.v(q, j).negative(t.modulus()))
}

// A, by which w of column n + q becomes 0 at j.
pub fn clear_partner_w<C: Columns>(t: &C, q: usize, j: usize) -> Option<Row>
    requires { (q < j) × (j < (C.held t.now).n) }
    ensures { Makes (λ d n. clear_partner_w d n q j) (C.held t.now) result }
{
    by_a(j, q, t.w(t.width() + q, j).within(t.modulus().value()))
}

// A, by which v of column n + q becomes 0 at j, once F has been put behind at q.
pub fn clear_partner_v<C: Columns>(t: &C, q: usize, j: usize) -> Option<Row>
    requires { (q < j) × (j < (C.held t.now).n) }
    ensures { Makes (λ d n. clear_partner_v d n q j) (C.held t.now) result }
{
    by_a(q, j, t.v(t.width() + q, j).within(t.modulus().value()))
}

// S, by which w of column n + q becomes 0 at q, between the two F.
pub fn shear_partner<C: Columns>(t: &C, q: usize) -> Option<Row>
    requires { q < (C.held t.now).n }
    ensures { Makes (λ d n. shear_partner d n q) (C.held t.now) result }
{
    shear(t, q, t.w(t.width() + q, q))
}

// F with power k.
pub fn fourier<C: Columns>(t: &C, q: usize, k: u16) -> Option<Row>
    requires { (q < (C.held t.now).n) × ((1 ≤ k) × (k ≤ 3)) }
    ensures { Makes (λ d n. put d (F q k)) (C.held t.now) result }
{
    let _few = t.width();
    Some(Row::on_one(Kind::F, q, k))
}

// ---- the phases of columns i and n + i

// Z, by which the phase of column i becomes 0.
pub fn clear_z<C: Columns>(t: &C, i: usize) -> Option<Row>
    requires { i < (C.held t.now).n }
    ensures { Makes (λ d n. clear_z d n i) (C.held t.now) result }
{
    let d = t.modulus();
    let _few = t.width();
    let k = t.phase(i).half(d).negative(d);
    unless(0, Row::on_one(Kind::Z, i, k.value()))
}

// X, by which the phase of column n + i becomes 0.
pub fn clear_x<C: Columns>(t: &C, i: usize) -> Option<Row>
    requires { i < (C.held t.now).n }
    ensures { Makes (λ d n. clear_x d n i) (C.held t.now) result }
{
    let k = t.phase(t.width() + i).half(t.modulus());
    unless(0, Row::on_one(Kind::X, i, k.value()))
}
