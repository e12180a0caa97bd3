// What can be wrong with a division.
ghost use Rattle.std.specs.Prelude.{◌≡◌, Some};
ghost use Rattle.division.specs.Refusals.{refusal, reason};

use crate::refusals::{Layer, Refusal};
use std::error::Error;
use std::fmt;

#[derive(Clone, Copy, PartialEq, Eq, Debug)]
pub enum Fault {
    // more than 64 things, weights above 4,000,000,000 in sum, or a list that is not as long as the things are many
    Things,
    // an amount above 4,000,000,000
    Amount,
    // weights that sum to 0
    NoWeight,
}

impl Fault {
    pub fn refusal(self) -> Refusal
        ensures { result ≡ refusal self }
    {
        let number = match self {
            Fault::Things => 25,
            Fault::Amount => 12,
            Fault::NoWeight => 40,
        };
        Refusal {
            number,
            layer: Layer::Division,
            place: 0,
        }
    }
}

impl From<Fault> for Refusal {
    ghost from_gives = { λ fault told. told ≡ refusal fault };

    fn from(fault: Fault) -> Refusal {
        fault.refusal()
    }
}

// The reason in words.
impl fmt::Display for Fault {
    ghost output = { λ fault. Some (reason fault) };

    fn fmt<W: fmt::Write>(&self, f: &mut fmt::Formatter<W>) -> fmt::Result {
        match *self {
            Fault::Things => {
                write!(
                    f,
                    "more than 64 weights, or weights above 4,000,000,000 in sum"
                )
            }
            Fault::Amount => write!(f, "the amount is above 4,000,000,000"),
            Fault::NoWeight => write!(f, "the weights sum to 0"),
        }
    }
}

impl Error for Fault {}
