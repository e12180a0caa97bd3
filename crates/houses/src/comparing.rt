// Two houses that are asked for the same transfers.
ghost use Rattle.std.specs.Prelude.{◌≡◌};
ghost use Rattle.houses.specs.Comparing.{seen, Compared, Told};

use crate::cash::House;
use crate::transfers::Transfer;

// Asks both houses for the transfers in order until they answer differently, and tells how many they answered alike.
pub fn compare<C: House, D: House>(one: &mut C, other: &mut D, transfers: &[Transfer]) -> usize
    ensures compared { Compared (seen C.House.balances C.House.ready one.old) (seen D.House.balances D.House.ready other.old) transfers.now result (seen C.House.balances C.House.ready one.new) (seen D.House.balances D.House.ready other.new) }
    ensures told { C.House.balances one.old ≡ D.House.balances other.old → Told transfers.now result (seen C.House.balances C.House.ready one.new) (seen D.House.balances D.House.ready other.new) }
{
    // not by `position`: nothing is known of what its closure leaves of the two houses
    for (i, transfer) in transfers.iter().enumerate() {
        let here = one.transfer(transfer.from, transfer.to, transfer.amount);
        let there = other.transfer(transfer.from, transfer.to, transfer.amount);
        if here != there {
            return i;
        }
    }
    transfers.len()
}
