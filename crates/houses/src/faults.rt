// What can be wrong with making a house, with a transfer and with a question for a balance.
ghost use Rattle.std.specs.Prelude.{◌≡◌};
ghost use Rattle.houses.specs.Refusals.{refusal};

use division::{Layer, Refusal};

#[derive(Clone, Copy, PartialEq, Eq, Debug)]
pub enum Fault {
    // more accounts or entries than a house takes
    TooMany,
    // an account given twice or above 9,999, or a balance above 10^15
    BadAccount,
    // an amount of 0 or above 4,000,000,000
    Amount,
    // a transfer from an account to itself
    SameAccount,
    // the house takes no transfer now
    NotReady,
    // an account that the house does not have
    UnknownAccount,
    // the paying account has less than the amount
    PayerShort,
    // the receiving account would pass 10^15
    ReceiverFull,
}

impl Fault {
    pub fn refusal(self) -> Refusal
        ensures { result ≡ refusal self }
    {
        let number = match self {
            Fault::TooMany => 19,
            Fault::BadAccount => 26,
            Fault::Amount => 12,
            Fault::SameAccount => 22,
            Fault::NotReady => 51,
            Fault::UnknownAccount => 52,
            Fault::PayerShort => 53,
            Fault::ReceiverFull => 54,
        };
        Refusal {
            number,
            layer: Layer::House,
            place: 0,
        }
    }
}

impl From<Fault> for Refusal {
    ghost from_gives = { λ fault told. told ≡ refusal fault };

    fn from(fault: Fault) -> Refusal {
        fault.refusal()
    }
}
