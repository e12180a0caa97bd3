// What can be wrong with a call on the book.
ghost use Rattle.std.specs.Prelude.{◌≡◌};
ghost use Rattle.book.specs.declared.faults.Fault.TheVariants.{Contribution, House};
ghost use Rattle.book.specs.Refusals.{refusal};

use division::{Layer, Refusal};

#[derive(Clone, Copy, PartialEq, Eq, Debug)]
pub enum Fault {
    // a code outside 10 to 9,999
    Code,
    // an amount of 0 or above 4,000,000,000
    Amount,
    // account 0 named in a transfer that is not the fund's
    FundNamed,
    NoRow,
    HasRow,
    // 64 rows
    Full,
    // shares that would pass 4,000,000,000
    Limit,
    NotActive,
    CaseOpen,
    // a case that is not the open one
    OtherCase,
    // an amount above all shares
    AboveShares,
    // a case's charged sum that would pass 4,000,000,000
    ChargedLimit,
    // bases that sum to 0
    NoBase,
    // an amount above charged less recovered
    AboveCharged,
    // 65,535 cases were opened
    NoNumber,
    // a fund account that is not empty
    FundNotEmpty,
    Contribution(contribution::Fault),
    House(houses::Fault),
}

impl Fault {
    pub fn refusal(self) -> Refusal
        ensures { result ≡ refusal self }
    {
        let number = match self {
            Fault::Code => 11,
            Fault::Amount => 12,
            Fault::FundNamed => 21,
            Fault::NoRow => 31,
            Fault::HasRow => 32,
            Fault::Full => 33,
            Fault::Limit => 34,
            Fault::NotActive => 35,
            Fault::CaseOpen => 36,
            Fault::OtherCase => 37,
            Fault::AboveShares => 38,
            Fault::ChargedLimit => 39,
            Fault::NoBase => 40,
            Fault::AboveCharged => 41,
            Fault::NoNumber => 42,
            Fault::FundNotEmpty => 43,
            Fault::Contribution(fault) => return fault.refusal(),
            Fault::House(fault) => return fault.refusal(),
        };
        Refusal {
            number,
            layer: Layer::Book,
            place: 0,
        }
    }
}

impl From<Fault> for Refusal {
    ghost from_gives = { λ fault told. told ≡ refusal fault };

    fn from(fault: Fault) -> Refusal {
        fault.refusal()
    }
}

impl From<houses::Fault> for Fault {
    ghost from_gives = { λ e r. r ≡ House e };

    fn from(fault: houses::Fault) -> Fault {
        Fault::House(fault)
    }
}

impl From<contribution::Fault> for Fault {
    ghost from_gives = { λ e r. r ≡ Contribution e };

    fn from(fault: contribution::Fault) -> Fault {
        Fault::Contribution(fault)
    }
}
