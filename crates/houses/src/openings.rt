// The accounts that a house is made with, as they are handed in, and what has to hold of them.
ghost use Rattle.std.specs.Prelude.{◌≡◌};
ghost use Rattle.division.specs.Refusals.{answer};
ghost use Rattle.houses.specs.Refusals.{refusal};
ghost use Rattle.houses.specs.Openings.{handed_in, faulty, openings_verdict};

use crate::faults::Fault;
use crate::judging::BALANCE;
use crate::numbers::LAST;
use crate::telling::{Tells, first_told};

#[derive(Clone, Copy)]
pub struct Opening {
    pub account: u64,
    pub balance: u64,
}

impl Tells for Opening {
    ghost tells = { handed_in };

    fn tells(&self, account: u64) -> Option<u64> {
        (account == self.account).then_some(self.balance)
    }
}

// Whether an account is given twice or is above 9,999, or has a balance above 10^15.
fn has_bad_account(openings: &[Opening]) -> bool
    ensures { result ≡ faulty openings.now }
{
    let mut rest = openings;
    while let Some((opening, after)) = rest.split_first() {
        let again = first_told(after, opening.account).is_some();
        if opening.account > LAST || opening.balance > BALANCE || again {
            return true;
        }
        rest = after;
    }
    false
}

// Whether a house that takes so many accounts at most can be made with these.
pub(crate) fn check(openings: &[Opening], most: usize) -> Result<(), Fault>
    ensures { answer refusal result ≡ openings_verdict openings.now most }
{
    if openings.len() > most {
        return Err(Fault::TooMany);
    }
    if has_bad_account(openings) {
        return Err(Fault::BadAccount);
    }
    Ok(())
}
