// The checks of refusals 3 to 5, which answer a Result: the first that refuses ends a call.
ghost use Rattle.std.specs.Prelude.{◌≡◌, ◌<◌, Some};
ghost use Rattle.arith.specs.Refusals.{refusal_number, number_of, unless_holds, or_else, size_of, whole_of, list_size_of, room_of, range_of};
ghost use Rattle.arith.specs.Answers.{answer_of};
ghost use Rattle.arith.specs.Texts.{refusal_text};

use std::error::Error;
use std::fmt;

// The refusals of document 01's table, by their numbers. In comments such a number stands for the refusal.
#[derive(Clone, Copy, Debug, PartialEq, Eq)]
pub enum Refusal {
    // d below 2 or above 1,024
    Dimension = 1,
    // n is 0 or above 16
    Width = 2,
    // an input isn't as long as its layout says; a list isn't whole rows or exceeds 4,096; a batch isn't whole Paulis or exceeds 512
    Length = 3,
    // an output is shorter than the full answer, or for synthesis than 40n² + 48n bytes
    Room = 4,
    // a v, w or residue is d or more, or a phase 2d or more
    Range = 5,
    // a row isn't legal
    Row = 6,
    // a commutation number of two columns is wrong
    Pairing = 7,
    // pairing holds, a column's sum is odd
    Parity = 8,
    // a line breaks the text program's layout
    Text = 9,
}

// The number of a refusal.
impl From<Refusal> for u16 {
    ghost from_gives = { λ k r. r ≡ refusal_number k };

    fn from(refusal: Refusal) -> u16 {
        refusal as u16
    }
}

// Written by hand: what the derive of the library's `thiserror` writes has no contract, and `output` says the text.
impl fmt::Display for Refusal {
    ghost output = { λ refusal. Some (refusal_text refusal) };

    fn fmt<W: fmt::Write>(&self, f: &mut fmt::Formatter<W>) -> fmt::Result {
        f.write_str(match self {
            Refusal::Dimension => "the dimension is below 2 or above 1,024",
            Refusal::Width => "the number of qudits is 0 or above 16",
            Refusal::Length => "an input is not as long as its layout says",
            Refusal::Room => "an output is too short",
            Refusal::Range => "a number is out of range",
            Refusal::Row => "a row is not legal",
            Refusal::Pairing => "a commutation number of two columns is wrong",
            Refusal::Parity => "a column's sum is odd",
            Refusal::Text => "a line breaks the layout",
        })
    }
}

impl Error for Refusal {}

// What a call with one number as its result hands back to C, which has no Result.
#[repr(C)]
#[derive(Clone, Copy)]
pub struct Answer {
    pub number: u16,
    pub value: u16,
}

impl From<Result<u16, Refusal>> for Answer {
    ghost from_gives = { λ r a. a ≡ answer_of r };

    fn from(found: Result<u16, Refusal>) -> Answer {
        match found {
            Ok(value) => Answer { number: 0, value },
            Err(refusal) => Answer {
                number: refusal.into(),
                value: 0,
            },
        }
    }
}

// The number of what a check or a call answers. A function, since an impl of From for u16 and a Result, both of the library, is refused.
pub fn number(found: Result<(), Refusal>) -> u16
    ensures { result ≡ number_of found }
{
    found.err().map_or(0, u16::from)
}

// The refusal, unless the test holds.
pub fn unless_holds(refusal: Refusal, test: bool) -> Result<(), Refusal>
    ensures { number_of result ≡ unless_holds refusal test }
{
    if test { Ok(()) } else { Err(refusal) }
}

#[tactic(auto, unfolding(crate::specs::Refusals::size_of))]
pub fn size(want: usize, have: usize) -> Result<(), Refusal>
    ensures { number_of result ≡ size_of want have }
{
    unless_holds(Refusal::Length, have == want)
}

// Whole items of `one` bytes, at most `most` of them.
#[tactic(auto, unfolding(crate::specs::Refusals::whole_of))]
pub fn whole(one: usize, most: usize, have: usize) -> Result<(), Refusal>
    requires { 0 < one }
    ensures { number_of result ≡ whole_of one most have }
{
    unless_holds(Refusal::Length, have % one == 0 && have / one <= most)
}

// A list: whole rows of 8 bytes, at most 4,096 of them.
#[tactic(auto, unfolding(crate::specs::Refusals::list_size_of))]
pub fn list_size(have: usize) -> Result<(), Refusal>
    ensures { number_of result ≡ list_size_of have }
{
    whole(8, 4096, have)
}

#[tactic(auto, unfolding(crate::specs::Refusals::room_of))]
pub fn room(want: usize, have: usize) -> Result<(), Refusal>
    ensures { number_of result ≡ room_of want have }
{
    unless_holds(Refusal::Room, want <= have)
}

// 3 of an input, then 4 of an output.
pub fn lent(want: usize, have: usize, answer: usize, space: usize) -> Result<(), Refusal>
    ensures { number_of result ≡ or_else (size_of want have) (room_of answer space) }
{
    size(want, have)?;
    room(answer, space)
}

#[tactic(auto, unfolding(crate::specs::Refusals::range_of))]
pub fn range(bound: u16, x: u16) -> Result<(), Refusal>
    ensures { number_of result ≡ range_of bound x }
{
    unless_holds(Refusal::Range, x < bound)
}
