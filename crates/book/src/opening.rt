// The opening of a book, and what can be asked of it.
ghost use Rattle.std.specs.Prelude.{◌≡◌, ◌≤◌, [], Ok, vec_len, vec_capacity};
ghost use Rattle.division.specs.Refusals.{answer, clear};
ghost use Rattle.houses.specs.Balances.{told};
ghost use Rattle.book.specs.Refusals.{refusal};
ghost use Rattle.book.specs.Rows.{shares};
ghost use Rattle.book.specs.States.{opening_checks, opened_over};
ghost use Rattle.book.specs.Books.{view};
ghost use Rattle.book.specs.Histories.{Leads};
ghost use Rattle.book.specs.Laws.{Lawful};

use crate::books::Book;
use crate::faults::Fault;
use crate::rows::Row;
use crate::settling::FUND;
use crate::table::Table;
use houses::House;

impl<C: House> Book<C> {
    // Whether a book can be opened over the house.
    pub fn check(house: &mut C) -> Result<(), Fault>
        ensures answer { answer refusal result ≡ clear (opening_checks (C.balances house.old)) }
        ensures balances { C.balances house.new ≡ C.balances house.old }
        ensures ready { C.ready house.new ≡ C.ready house.old }
    {
        match house.balance(FUND)? {
            0 => Ok(()),
            _ => Err(Fault::FundNotEmpty),
        }
    }

    // The book over the house, its rows kept in the list, which is empty and has room for 64.
    pub fn open(house: C, list: Vec<Row>) -> Book<C>
        requires checked { clear (opening_checks (C.balances house)) ≡ Ok tt }
        requires empty { vec_len list ≡ 0 }
        requires room { 64 ≤ vec_capacity list }
        ensures state { view C.balances result ≡ opened_over (C.balances house) }
        ensures ready { C.ready result.house ≡ C.ready house }
        ensures history { Leads (C.balances house) [] (C.ready result.house) (view C.balances result) }
        ensures lawful { Lawful (C.balances house) [] }
    {
        Book {
            house,
            table: Table { rows: list },
            case: None,
            opened: 0,
        }
    }

    // What all members have in the fund.
    pub fn shares(&self) -> u64
        ensures { result ≡ shares self.now.table.rows.items }
    {
        self.table.shares()
    }

    // The balance of an account of the house.
    pub fn balance(&mut self, account: u64) -> Result<u64, Fault>
        ensures told { answer refusal result ≡ told (C.balances self.old.house account) }
        ensures state { view C.balances self.new ≡ view C.balances self.old }
        ensures ready { C.ready self.new.house ≡ C.ready self.old.house }
    {
        Ok(self.house.balance(account)?)
    }

    // The rows, in order of joining.
    pub fn rows(&self) -> &[Row]
        ensures { result.now ≡ self.now.table.rows.items }
    {
        self.table.rows.as_slice()
    }
}
