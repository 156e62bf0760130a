// The kinds of gate rows.
ghost use Rattle.std.specs.Prelude.{◌≡◌, MatchOption};
ghost use Rattle.gates.specs.Kind.{kind_number, kind_letter, NumberedKind, NoKind};

use arith::checks::Refusal;

// A kind, by the number that it has in bytes.
#[derive(Clone, Copy, Debug, PartialEq, Eq)]
pub enum Kind {
    F = 1,
    S = 2,
    A = 3,
    M = 4,
    X = 5,
    Z = 6,
    C = 7,
    W = 8,
}

impl From<Kind> for u16 {
    ghost from_gives = { λ kind number. number ≡ kind_number kind };

    fn from(kind: Kind) -> u16 {
        kind as u16
    }
}

// 6, row: no kind has this number.
impl TryFrom<u16> for Kind {
    type Error = Refusal;

    ghost try_from_gives = { NumberedKind };

    fn try_from(number: u16) -> Result<Kind, Refusal> {
        match number {
            1 => Ok(Kind::F),
            2 => Ok(Kind::S),
            3 => Ok(Kind::A),
            4 => Ok(Kind::M),
            5 => Ok(Kind::X),
            6 => Ok(Kind::Z),
            7 => Ok(Kind::C),
            8 => Ok(Kind::W),
            _ => Err(Refusal::Row),
        }
    }
}

// Letters have methods and no From and TryFrom: a u8 doesn't say that it is a letter, and a TryFrom<u8> would differ from the number's by the width of the integer alone.
impl Kind {
    // Its letter in text.
    pub fn letter(self) -> u8
        ensures { result ≡ kind_letter self }
    {
        match self {
            Kind::F => b'F',
            Kind::S => b'S',
            Kind::A => b'A',
            Kind::M => b'M',
            Kind::X => b'X',
            Kind::Z => b'Z',
            Kind::C => b'C',
            Kind::W => b'W',
        }
    }

    // The kind with this letter.
    pub fn from_letter(letter: u8) -> Option<Kind>
        ensures { MatchOption result (NoKind kind_letter letter) (λ kind. kind_letter kind ≡ letter) }
    {
        match letter {
            b'F' => Some(Kind::F),
            b'S' => Some(Kind::S),
            b'A' => Some(Kind::A),
            b'M' => Some(Kind::M),
            b'X' => Some(Kind::X),
            b'Z' => Some(Kind::Z),
            b'C' => Some(Kind::C),
            b'W' => Some(Kind::W),
            _ => None,
        }
    }
}
