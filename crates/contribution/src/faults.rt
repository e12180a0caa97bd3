// What can be wrong with securities and trades, each fault with the position, from 0, of the security or the trade.
ghost use Rattle.std.specs.Prelude.{◌≡◌, Some};
ghost use Rattle.contribution.specs.Refusals.{refusal, reason};

use division::{Layer, Refusal};
use std::error::Error;
use std::fmt;

#[derive(Clone, Copy, PartialEq, Eq, Debug)]
pub enum Fault {
    // more securities or more trades than allowed
    TooMany,
    // a malformed ISIN of a security or of a trade
    Isin(usize),
    // a price, a risk or a rate out of its range
    Terms(usize),
    ListedBefore(usize),
    // a quantity or a price out of its range
    Deal(usize),
    NotListed(usize),
    // a quantity that comes to more than 100,000,000 at the trade's price or at the settlement price
    TooLarge(usize),
    // a contribution above 1,000,000,000
    TooHigh,
}

impl Fault {
    pub fn refusal(self) -> Refusal
        ensures { result ≡ refusal self }
    {
        let (number, place) = match self {
            Fault::TooMany => (19, 0),
            Fault::Isin(i) => (13, i),
            Fault::Terms(i) => (14, i),
            Fault::ListedBefore(i) => (15, i),
            Fault::Deal(i) => (16, i),
            Fault::NotListed(i) => (17, i),
            Fault::TooLarge(i) => (18, i),
            Fault::TooHigh => (20, 0),
        };
        Refusal {
            number,
            layer: Layer::Contribution,
            place,
        }
    }
}

impl From<Fault> for Refusal {
    ghost from_gives = { λ fault told. told ≡ refusal fault };

    fn from(fault: Fault) -> Refusal {
        fault.refusal()
    }
}

// The reason in words, without the position.
impl fmt::Display for Fault {
    ghost output = { λ fault. Some (reason fault) };

    fn fmt<W: fmt::Write>(&self, f: &mut fmt::Formatter<W>) -> fmt::Result {
        match *self {
            Fault::TooMany => write!(f, "more than 64 securities or more than 128 trades"),
            Fault::Isin(_) => write!(f, "the ISIN of this security or trade is malformed"),
            Fault::Terms(_) => {
                write!(
                    f,
                    "the price, risk or rate of this security is out of its range"
                )
            }
            Fault::ListedBefore(_) => write!(f, "the ISIN of this security was listed before"),
            Fault::Deal(_) => {
                write!(f, "the quantity or price of this trade is out of its range")
            }
            Fault::NotListed(_) => write!(f, "the ISIN of this trade is not listed"),
            Fault::TooLarge(_) => write!(f, "this trade comes to more than 100,000,000"),
            Fault::TooHigh => write!(f, "the contribution comes to more than 1,000,000,000"),
        }
    }
}

impl Error for Fault {}
