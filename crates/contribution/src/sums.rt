// The sums over a member's trades, and over the securities.
ghost use Rattle.std.specs.Prelude.{◌≡◌, ℕ, ◌+◌, ◌*◌, ◌^◌, ◌<◌, ◌≤◌, true, length, OnOk, slice_index_or};
ghost use Rattle.division.specs.Refusals.{answer, clear};
ghost use Rattle.contribution.specs.Refusals.{refusal};
ghost use Rattle.contribution.specs.Checks.{dealt, priced, trades_checks};
ghost use Rattle.contribution.specs.Positions.{flat, added, at_risk, settled, up, down, sum_pairs, Few};
ghost use Rattle.contribution.specs.Contribution as contribution;

use crate::checks::Listed;
use crate::faults::Fault;
use crate::positions::Position;
use crate::terms::{Security, Side, Trade};

impl Position {
    pub(crate) const FLAT: Position = Position {
        bought: 0,
        sold: 0,
        paid: 0,
        received: 0,
    };

    // One trade more.
    fn with(self, trade: &Trade) -> Position
        requires few { Few 65535 self }
        requires dealt { dealt trade.now ≡ true }
        ensures { result ≡ added self trade.now }
    {
        let quantity = trade.quantity;
        let money = quantity * trade.price;
        match trade.side {
            Side::Bought => Position {
                bought: self.bought + quantity,
                paid: self.paid + money,
                ..self
            },
            Side::Sold => Position {
                sold: self.sold + quantity,
                received: self.received + money,
                ..self
            },
        }
    }

    // The settlement value of the net quantity, by risk and rate.
    fn at_risk(self, security: &Security) -> u128
        requires few { Few 65535 self }
        requires priced { priced security.now ≡ true }
        ensures value { result ≡ at_risk security.now self }
        ensures bound { result ≤ 10 ^ 28 }
    {
        self.bought.abs_diff(self.sold) as u128
            * security.price as u128
            * security.risk as u128
            * security.rate as u128
    }
}

// Money, and a quantity at the settlement price, by the rate.
fn settled(security: &Security, money: u64, quantity: u64) -> u128
    requires money { money ≤ 65535 * 10 ^ 14 }
    requires quantity { quantity ≤ 65535 * 1000000 }
    requires priced { priced security.now ≡ true }
    ensures value { result ≡ settled security.now money quantity }
    ensures bound { result ≤ 10 ^ 25 }
{
    (money as u128 + quantity as u128 * security.price as u128) * security.rate as u128
}

// The sums over the securities: of values at risk, of what counts up in a gain, and of what counts down.
#[derive(Clone, Copy)]
pub(crate) struct Sums {
    pub(crate) risk: u128,
    pub(crate) up: u128,
    pub(crate) down: u128,
}

impl Listed<'_> {
    // Checks the trades from first to last and adds each to the position in its security, all flat at first.
    pub(crate) fn tally(&self, trades: &[Trade], positions: &mut [Position]) -> Result<(), Fault>
        requires few { length trades.now ≤ 65535 }
        requires room { length self.now.securities.now ≤ length positions.old }
        ensures answer { answer refusal result ≡ clear (trades_checks self.now.securities.now trades.now) }
        ensures positions { OnOk result (positions.new ≡ contribution.positions (length positions.old) self.now.securities.now trades.now) }
        ensures few { OnOk result ((k : ℕ) → k < length self.now.securities.now → Few 65535 (slice_index_or positions.new k flat)) }
    {
        positions.fill(Position::FLAT);
        for (i, trade) in trades.iter().enumerate() {
            let k = self.check_trade(i, trade)?;
            positions[k] = positions[k].with(trade);
        }
        Ok(())
    }

    pub(crate) fn summed(&self, positions: &[Position]) -> Sums
        requires room { length self.now.securities.now ≤ length positions.now }
        requires few { (k : ℕ) → k < length self.now.securities.now → Few 65535 (slice_index_or positions.now k flat) }
        ensures risk { result.risk ≡ sum_pairs at_risk self.now.securities.now positions.now }
        ensures up { result.up ≡ sum_pairs up self.now.securities.now positions.now }
        ensures down { result.down ≡ sum_pairs down self.now.securities.now positions.now }
        ensures risk_bound { result.risk ≤ 10 ^ 33 }
        ensures up_bound { result.up ≤ 10 ^ 30 }
    {
        let mut risk: u128 = 0;
        let mut up: u128 = 0;
        let mut down: u128 = 0;
        for (security, position) in self.securities.iter().zip(positions) {
            risk += position.at_risk(security);
            up += settled(security, position.paid, position.sold);
            down += settled(security, position.received, position.bought);
        }
        Sums { risk, up, down }
    }
}
