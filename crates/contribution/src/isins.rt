// The form of an ISIN, and the security that an ISIN names.
ghost use Rattle.std.specs.Prelude.{◌≡◌, ◌<◌, length, IfSome};
ghost use Rattle.contribution.specs.Isins.{stands, well_formed, place};

use crate::terms::{Isin, Security};

fn stands(i: usize, b: u8) -> bool
    ensures { result ≡ stands i b }
{
    match i {
        0 | 1 => b.is_ascii_uppercase(),
        2..=10 => b.is_ascii_uppercase() || b.is_ascii_digit(),
        _ => b.is_ascii_digit(),
    }
}

impl Isin {
    // Two capitals, nine capitals or digits, one digit.
    pub fn is_well_formed(&self) -> bool
        ensures { result ≡ well_formed self.now.bytes }
    {
        self.bytes.iter().enumerate().all(|(i, b)| stands(i, *b))
    }
}

// Where the first security with the ISIN stands.
pub(crate) fn place_of(securities: &[Security], isin: &Isin) -> Option<usize>
    ensures place { result ≡ place securities.now isin.now.bytes }
    ensures bound { IfSome result (λ k. k < length securities.now) }
{
    securities
        .iter()
        .position(|security| security.isin == *isin)
}
