// The checks of securities and trades: the first fault in their order, with its position.
ghost use Rattle.std.specs.Prelude.{◌≡◌, ℕ, ◌<◌, ◌≤◌, true, length, take, IfOk, IfErr, OnOk, Some, Ok, Err, slice_index_or};
ghost use Rattle.std.specs.Option.{unwrap_or};
ghost use Rattle.division.specs.Refusals.{answer, checked, clear};
ghost use Rattle.contribution.specs.Refusals.{refusal};
ghost use Rattle.contribution.specs.declared.terms.Security.{Security};
ghost use Rattle.contribution.specs.Isins.{place};
ghost use Rattle.contribution.specs.Checks.{priced, dealt, security_checks, securities_checks, trade_checks};
ghost use Rattle.contribution.specs.Positions.{Distinct};

use crate::faults::Fault;
use crate::isins::place_of;
use crate::terms::{Security, Trade};

// The most that the quantity of a trade may come to at a price.
const LARGEST: u64 = 100_000_000;

impl Security {
    fn is_priced(&self) -> bool
        ensures { result ≡ priced self.now }
    {
        matches!(self.price, 1..=100_000_000)
            && self.risk <= 10_000
            && matches!(self.rate, 1..=100_000)
    }
}

impl Trade {
    fn is_dealt(&self) -> bool
        ensures { result ≡ dealt self.now }
    {
        matches!(self.quantity, 1..=1_000_000) && matches!(self.price, 1..=100_000_000)
    }
}

fn check_security(securities: &[Security], i: usize, security: &Security) -> Result<(), Fault>
    requires { i ≤ length securities.now }
    ensures { answer refusal result ≡ clear (security_checks (take i securities.now) i security.now) }
{
    if !security.isin.is_well_formed() {
        return Err(Fault::Isin(i));
    }
    if !security.is_priced() {
        return Err(Fault::Terms(i));
    }
    match place_of(&securities[0..i], &security.isin) {
        Some(_) => Err(Fault::ListedBefore(i)),
        None => Ok(()),
    }
}

// Securities that passed their checks.
#[derive(Clone, Copy)]
pub(crate) struct Listed<'a> {
    pub(crate) securities: &'a [Security],
    ghost few: { length securities.now ≤ 65535 },
    ghost in_range: { (k : ℕ) (d : Security) → k < length securities.now → priced (slice_index_or securities.now k d) ≡ true },
    ghost distinct: { Distinct securities.now },
}

impl<'a> Listed<'a> {
    pub(crate) fn check(securities: &'a [Security]) -> Result<Listed<'a>, Fault>
        requires { length securities.now ≤ 65535 }
        ensures passed { OnOk result (clear (securities_checks securities.now) ≡ Ok tt) }
        ensures refused { IfErr result (λ fault. clear (securities_checks securities.now) ≡ Err (refusal fault)) }
        ensures same { IfOk result (λ listed. listed.securities.now ≡ securities.now) }
    {
        for (i, security) in securities.iter().enumerate() {
            check_security(securities, i, security)?;
        }
        Ok(Listed { securities })
    }

    // Where the trade's security stands, or the first fault of the trade.
    pub(crate) fn check_trade(&self, i: usize, trade: &Trade) -> Result<usize, Fault>
        ensures answer { answer refusal result ≡ checked (trade_checks self.now.securities.now i trade.now) (unwrap_or (place self.now.securities.now trade.now.isin.bytes) 0) }
        ensures found { IfOk result (λ k. place self.now.securities.now trade.now.isin.bytes ≡ Some k) }
        ensures bound { IfOk result (λ k. k < length self.now.securities.now) }
        ensures dealt { OnOk result (dealt trade.now ≡ true) }
    {
        if !trade.isin.is_well_formed() {
            return Err(Fault::Isin(i));
        }
        if !trade.is_dealt() {
            return Err(Fault::Deal(i));
        }
        let k = place_of(self.securities, &trade.isin).ok_or(Fault::NotListed(i))?;
        let dealt = trade.quantity * trade.price;
        let settled = trade.quantity * self.securities[k].price;
        if dealt > LARGEST || settled > LARGEST {
            return Err(Fault::TooLarge(i));
        }
        Ok(k)
    }
}
