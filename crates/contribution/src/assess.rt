// The contribution: securities and trades checked, summed and brought to what a member must contribute.
ghost use Rattle.std.specs.Prelude.{◌≡◌, ◌+◌, ◌-◌, ◌*◌, ◌^◌, ◌≤◌, length, IfOk, OnOk};
ghost use Rattle.division.specs.Refusals.{answer, checked};
ghost use Rattle.contribution.specs.Refusals.{refusal};
ghost use Rattle.contribution.specs.Steps.{provisional, calculated, rounded_up, renewed};
ghost use Rattle.contribution.specs.Contribution.{checks, verdict};
ghost use Rattle.contribution.specs.Contribution as contribution;
ghost use Rattle.contribution.specs.Laws.{Sound};

use crate::assessments::Assessment;
use crate::checks::Listed;
use crate::faults::Fault;
use crate::positions::Position;
use crate::sums::Sums;
use crate::terms::{Security, Trade};

// The least that a member contributes.
pub const MINIMUM: u64 = 2_000_000;

// The most that a contribution may come to.
const HIGHEST: u128 = 1_000_000_000;

// WW: one maximum and one rounding.
fn provisional(sums: Sums) -> u128
    requires risk { sums.risk ≤ 10 ^ 33 }
    requires up { sums.up ≤ 10 ^ 30 }
    ensures { result ≡ rounded_up (sums.risk + 10000 * (sums.up - sums.down)) }
{
    (sums.risk + 10_000 * sums.up.saturating_sub(sums.down)).div_ceil(100_000_000)
}

// The last contribution stands where the calculated one lies within a tenth of it.
fn renewed(calculated: u64, last: u64) -> u64
    ensures { result ≡ renewed calculated last }
{
    if 10 * calculated.abs_diff(last) as u128 <= last as u128 {
        last
    } else {
        calculated
    }
}

// How many securities and trades are taken.
#[derive(Clone, Copy)]
struct Limits {
    securities: u16,
    trades: u16,
}

// WW and W for lists within the limits; the positions are left in the caller's list.
fn assess(
    limits: Limits,
    securities: &[Security],
    trades: &[Trade],
    positions: &mut [Position],
) -> Result<(u64, u64), Fault>
    requires { limits.securities ≤ length positions.old }
    ensures answer { answer refusal result ≡ checked (checks limits.securities limits.trades securities.now trades.now) (provisional securities.now trades.now, calculated securities.now trades.now) }
    ensures positions { OnOk result (positions.new ≡ contribution.positions (length positions.old) securities.now trades.now) }
{
    if securities.len() > usize::from(limits.securities)
        || trades.len() > usize::from(limits.trades)
    {
        return Err(Fault::TooMany);
    }
    let listed = Listed::check(securities)?;
    listed.tally(trades, positions)?;
    let provisional = provisional(listed.summed(positions));
    let calculated = provisional.max(MINIMUM as u128);
    if calculated > HIGHEST {
        return Err(Fault::TooHigh);
    }
    Ok((provisional as u64, calculated as u64))
}

// The contribution of a member whose last one was `last`, with the steps that lead to it.
pub fn contribution(
    securities: &[Security],
    trades: &[Trade],
    last: u64,
) -> Result<Assessment, Fault>
    ensures verdict { answer refusal result ≡ verdict securities.now trades.now last }
    ensures sound { IfOk result (λ a. Sound securities.now trades.now last a) }
{
    let mut positions = [Position::FLAT; 64];
    let limits = Limits {
        securities: 64,
        trades: 128,
    };
    let (provisional, calculated) = assess(limits, securities, trades, &mut positions)?;
    let required = renewed(calculated, last);
    Ok(Assessment {
        positions,
        provisional,
        calculated,
        required,
    })
}
