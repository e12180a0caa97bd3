// The calls of the table house.
ghost use Rattle.std.specs.Prelude.{◌≡◌, ◌≤◌, true, length, Ok, vec_len, vec_capacity};
ghost use Rattle.division.specs.Refusals.{answer};
ghost use Rattle.houses.specs.Refusals.{refusal};
ghost use Rattle.houses.specs.Openings.{opened, table_verdict};
ghost use Rattle.houses.specs.Table.{kept};

use crate::cash::House;
use crate::faults::Fault;
use crate::keeping::filled;
use crate::openings::{Opening, check};
use crate::table::{Account, carry};
use crate::table_house::TableHouse;
use crate::telling::first_told;
use crate::transfers::Transfer;

// The most accounts of a table house.
pub const ACCOUNTS: usize = 128;

impl TableHouse {
    // Whether a table house can be made with these accounts.
    pub fn check(openings: &[Opening]) -> Result<(), Fault>
        ensures { answer refusal result ≡ table_verdict openings.now }
    {
        check(openings, ACCOUNTS)
    }

    // The house with these accounts, kept in the list, which is empty and has room for them.
    pub fn make(openings: &[Opening], list: Vec<Account>) -> TableHouse
        requires checked { table_verdict openings.now ≡ Ok tt }
        requires empty { vec_len list ≡ 0 }
        requires room { length openings.now ≤ vec_capacity list }
        ensures { kept result.accounts.items ≡ opened openings.now }
    {
        TableHouse {
            accounts: filled(openings, list),
        }
    }
}

impl House for TableHouse {
    ghost balances = { λ x. kept x.accounts.items };

    ghost ready = { λ _. true };

    ghost sound = { λ x. x.sound };

    fn transfer(&mut self, from: u64, to: u64, amount: u64) -> Result<(), Fault> {
        carry(&mut self.accounts, Transfer { from, to, amount })
    }

    fn balance(&mut self, account: u64) -> Result<u64, Fault> {
        first_told(&self.accounts, account).ok_or(Fault::UnknownAccount)
    }
}
