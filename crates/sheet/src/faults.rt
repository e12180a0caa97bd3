// What can be wrong with a sheet itself, at one of its lines.
ghost use Rattle.std.specs.Prelude.{◌≡◌};
ghost use Rattle.sheet.specs.Refusals.{refusal};

use division::{Layer, Refusal};

#[derive(Clone, Copy)]
pub enum Fault {
    // more bytes, accounts, securities or trades than allowed
    TooMany,
    // a first line that is not as required
    NoMark,
    // any other line that is not well formed, or an account below the head
    BadLine,
}

impl Fault {
    pub fn refusal(self, line: usize) -> Refusal
        ensures { result ≡ refusal self line }
    {
        let number = match self {
            Fault::TooMany => 19,
            Fault::NoMark => 23,
            Fault::BadLine => 24,
        };
        Refusal {
            number,
            layer: Layer::Sheet,
            place: line,
        }
    }
}

// The line at which the run stops, and why.
#[derive(Clone, Copy)]
pub(crate) struct Stop {
    pub(crate) line: usize,
    pub(crate) fault: Fault,
}
