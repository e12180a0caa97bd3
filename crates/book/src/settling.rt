// Payments between a member and the fund.
ghost use Rattle.std.specs.Prelude.{◌≡◌, ◌+◌, OnErr};
ghost use Rattle.division.specs.Refusals.{answer, after, clear};
ghost use Rattle.houses.specs.Refusals.{refusal};
ghost use Rattle.book.specs.States.{settle_checks, settled};

use houses::{Fault, House};

// The fund's account.
pub const FUND: u64 = 0;

// The settlement account.
pub(crate) const SETTLEMENT: u64 = 1;

// The most that all members may have in the fund, and the most that comes in or goes out at once.
pub(crate) const LIMIT: u64 = 4_000_000_000;

// Moves what the member pays in or what it is paid out; where both are 0 the house is not asked.
pub(crate) fn settle<C: House>(
    house: &mut C,
    code: u64,
    paid_in: u64,
    paid_out: u64,
) -> Result<(), Fault>
    ensures answer { answer refusal result ≡ clear (settle_checks (C.ready house.old) (C.balances house.old) code paid_in paid_out) }
    ensures balances { C.balances house.new ≡ after result (settled (C.balances house.old) code paid_in paid_out) (C.balances house.old) }
    ensures ready { OnErr result (C.ready house.new ≡ C.ready house.old) }
    ensures unpaid { paid_in + paid_out ≡ 0 → C.ready house.new ≡ C.ready house.old }
{
    if paid_in > 0 {
        house.transfer(code, FUND, paid_in)
    } else if paid_out > 0 {
        house.transfer(FUND, code, paid_out)
    } else {
        Ok(())
    }
}
