// What a refusal tells, whichever layer made it.
ghost use Rattle.std.specs.Prelude.{◌≡◌, Some};
ghost use Rattle.std.proofs.Math.Utf8.{encode};
ghost use Rattle.division.specs.Refusals.{letter};

use std::fmt;

// The layers of the ledger, each with its letter in what is printed.
#[derive(Clone, Copy, PartialEq, Eq, Debug)]
pub enum Layer {
    Division,
    Contribution,
    House,
    Book,
    Sheet,
}

impl Layer {
    pub fn letter(self) -> char
        ensures { result ≡ letter self }
    {
        match self {
            Layer::Division => 'd',
            Layer::Contribution => 'c',
            Layer::House => 'h',
            Layer::Book => 'b',
            Layer::Sheet => 's',
        }
    }
}

// A layer is printed as its letter.
impl fmt::Display for Layer {
    ghost output = { λ layer. Some (encode (letter layer)) };

    fn fmt<W: fmt::Write>(&self, f: &mut fmt::Formatter<W>) -> fmt::Result {
        let letter = self.letter();
        write!(f, "{letter}")
    }
}

// A refusal's number, the layer that refused, and a place: the position of the security or trade, or the line of a sheet, that was refused, else 0.
#[derive(Clone, Copy, PartialEq, Eq, Debug)]
pub struct Refusal {
    pub number: u16,
    pub layer: Layer,
    pub place: usize,
}
