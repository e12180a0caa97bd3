// A house that was just made answers what was handed in.
ghost use Rattle.std.specs.Prelude.{◌≡◌, ◌≤◌, length, Ok, vec_len, vec_capacity};
ghost use Rattle.division.specs.Refusals.{answer};
ghost use Rattle.houses.specs.Refusals.{refusal};
ghost use Rattle.houses.specs.Balances.{told};
ghost use Rattle.houses.specs.Openings.{opened, table_verdict, list_verdict};

use houses::{Account, Entry, Fault, House, ListHouse, Opening, TableHouse};

pub fn in_a_table(openings: &[Opening], list: Vec<Account>, account: u64) -> Result<u64, Fault>
    requires checked { table_verdict openings.now ≡ Ok tt }
    requires empty { vec_len list ≡ 0 }
    requires room { length openings.now ≤ vec_capacity list }
    ensures { answer refusal result ≡ told (opened openings.now account) }
{
    let mut house = TableHouse::make(openings, list);
    house.balance(account)
}

pub fn in_a_list(
    openings: &[Opening],
    list: Vec<Entry>,
    room: usize,
    account: u64,
) -> Result<u64, Fault>
    requires checked { list_verdict openings.now room ≡ Ok tt }
    requires empty { vec_len list ≡ 0 }
    requires room { room ≤ vec_capacity list }
    ensures { answer refusal result ≡ told (opened openings.now account) }
{
    let mut house = ListHouse::make(openings, list, room);
    house.balance(account)
}
