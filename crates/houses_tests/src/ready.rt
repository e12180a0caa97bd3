// The table house is always ready: it refuses no transfer as not ready.
ghost use Rattle.std.specs.Prelude.{Err, ◌≢◌};
ghost use Rattle.division.specs.Refusals.{answer};
ghost use Rattle.houses.specs.Refusals.{refusal, by_house};

use houses::{Fault, House, TableHouse};

pub fn always(house: &mut TableHouse, from: u64, to: u64, amount: u64) -> Result<(), Fault>
    ensures { answer refusal result ≢ Err (by_house 51) }
{
    house.transfer(from, to, amount)
}
