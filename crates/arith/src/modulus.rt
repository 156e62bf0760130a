// What the qudits are: the modulus d of their residues, and their number n. Each is made by the check of its refusal, or of a number that is known to be in range, so that whoever holds one need not test it again.
// Where a function takes both, they are two arguments and no struct. Such a struct can be had (tried: it is copied if it has a model of its own), but of the functions that take d or n about 40 take both, 50 d alone and 20 n alone:
// most calls would take it apart, and contracts would say s.d and s.n for d and n.
// They are two types and not one with a parameter: the number (u16, usize), the bounds, the refusal and so every clause differ, and the shape of three short functions is all that they would share.
ghost use Rattle.std.specs.Prelude.{◌≡◌, ◌≤◌, ℕ, IfOk};
ghost use Rattle.arith.specs.Refusals.{Dimension, number_of, or_else, dimension_of, width_of, given_of, list_size_of};

use crate::checks::Refusal;
use std::marker::Model;

// The dimension d of a qudit, 2 to 1,024: residues are taken modulo d. In a contract it is the number d.
#[derive(Clone, Copy, PartialEq, Eq)]
pub struct Modulus {
    number: u16,
}

impl Model for Modulus {
    ghost Value = { ℕ };

    ghost view = { λ m. m.number };

    ghost invariant = { λ m. Dimension m.number };

    ghost inverse = { λ d. record { number = d } };
}

impl Modulus {
    // 1: d is below 2 or above 1,024.
    #[tactic(auto, unfolding(crate::specs::Refusals::dimension_of))]
    pub fn new(d: u16) -> Result<Modulus, Refusal>
        ensures refusal { number_of result ≡ dimension_of d }
        ensures value { IfOk result (λ m. m ≡ d) }
    {
        if d < 2 || 1024 < d {
            return Err(Refusal::Dimension);
        }
        Ok(Modulus::known(d))
    }

    // A number that is known to be in range, for a caller that need not test it: one that had the fact is asked no more.
    pub fn known(d: u16) -> Modulus
        requires { Dimension d }
        ensures { result ≡ d }
    {
        Modulus { number: d }
    }

    // The number d.
    pub fn value(self) -> u16
        ensures value { result ≡ self }
        ensures dimension { Dimension self }
    {
        self.number
    }
}

// How many qudits there are, at most 16. In a contract it is the number n.
#[derive(Clone, Copy, PartialEq, Eq)]
pub struct Width {
    number: usize,
}

impl Model for Width {
    ghost Value = { ℕ };

    ghost view = { λ w. w.number };

    ghost invariant = { λ w. w.number ≤ 16 };

    ghost inverse = { λ n. record { number = n } };
}

impl Width {
    // 2: n is 0 or above 16.
    #[tactic(auto, unfolding(crate::specs::Refusals::width_of))]
    pub fn new(n: u16) -> Result<Width, Refusal>
        ensures refusal { number_of result ≡ width_of n }
        ensures value { IfOk result (λ w. w ≡ n) }
    {
        if n < 1 || 16 < n {
            return Err(Refusal::Width);
        }
        Ok(Width::known(n as usize))
    }

    // A number that is known to be at most 16; 0 too, which the calls refuse.
    pub fn known(n: usize) -> Width
        requires { n ≤ 16 }
        ensures { result ≡ n }
    {
        Width { number: n }
    }

    // The number n.
    pub fn value(self) -> usize
        ensures value { result ≡ self }
        ensures few { self ≤ 16 }
    {
        self.number
    }
}

// 1, then 2.
#[tactic(auto, unfolding(crate::specs::Refusals::given_of))]
pub fn given(d: u16, n: u16) -> Result<(Modulus, Width), Refusal>
    ensures refusal { number_of result ≡ given_of d n }
    ensures value { IfOk result (λ p. p ≡ (d, n)) }
{
    Ok((Modulus::new(d)?, Width::new(n)?))
}

// 1, 2, then 3 of a list of `have` bytes.
pub fn given_list(d: u16, n: u16, have: usize) -> Result<(Modulus, Width), Refusal>
    ensures refusal { number_of result ≡ or_else (given_of d n) (list_size_of have) }
    ensures value { IfOk result (λ p. p ≡ (d, n)) }
{
    let both = given(d, n)?;
    crate::checks::list_size(have)?;
    Ok(both)
}
