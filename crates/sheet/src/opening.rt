// The house of a sheet, and the book over it.
ghost use Rattle.sheet.specs.Desks.{Opened};

use crate::desks::Desk;
use crate::lists::{Limited, Lists};
use book::Book;
use division::Refusal;
use houses::{ACCOUNTS, Opening, TableHouse};

// Makes the house and opens the book.
pub(crate) fn open(openings: &Limited<Opening, ACCOUNTS>, lists: Lists) -> Result<Desk, Refusal>
    ensures { Opened openings.now.list.items result }
{
    let accounts = openings.list.as_slice();
    TableHouse::check(accounts)?;
    let mut house = TableHouse::make(accounts, lists.accounts.list);
    Book::check(&mut house)?;
    Ok(Desk {
        book: Book::open(house, lists.rows.list),
        held: None,
        securities: Limited::new(lists.securities),
        trades: Limited::new(lists.trades),
        own: Limited::new(lists.own),
    })
}
