// Houses with some accounts, and books over them.
use crate::cases::told;
use book::{Book, ROWS};
use contribution::MINIMUM;
use division::Refusal;
use houses::{House, ListHouse, Opening, TableHouse};
use std::alloc::{AllocError, Global};
use std::test::Fail;

// The most that an account holds.
pub(crate) const MOST: u64 = 1_000_000_000_000_000;

// The most entries that a list house takes.
pub(crate) const ROOM: usize = 1_024;

// An account number and its balance.
pub(crate) type Account = (u64, u64);

// The accounts of the worked example of the rules.
pub(crate) const FOUR: &[Account] = &[
    (0, 0),
    (1, 100),
    (10, 2_000_000),
    (11, 3_000_000),
    (12, 2_000_000),
    (13, 2_000_000),
];

// These accounts and 65 members' with the minimum each, one more than a book has rows.
pub(crate) fn with_members(heap: Global, first: &[Account]) -> Result<Vec<Account>, AllocError> {
    first
        .iter()
        .copied()
        .chain((10..75).map(|code| (code, MINIMUM)))
        .collect(heap)
}

fn openings(heap: Global, accounts: &[Account]) -> Result<Vec<Opening>, AllocError> {
    accounts
        .iter()
        .map(|&(account, balance)| Opening { account, balance })
        .collect(heap)
}

pub(crate) fn table(heap: Global, accounts: &[Account]) -> Result<TableHouse, Fail> {
    let openings = openings(heap, accounts)?;
    TableHouse::check(&openings)?;
    let list = Vec::with_capacity(heap, openings.len())?;
    Ok(TableHouse::make(&openings, list))
}

pub(crate) fn list(heap: Global, accounts: &[Account], room: usize) -> Result<ListHouse, Fail> {
    let openings = openings(heap, accounts)?;
    ListHouse::check(&openings, room)?;
    let list = Vec::with_capacity(heap, room)?;
    Ok(ListHouse::make(&openings, list, room))
}

// Whether a book over a table house with the accounts can be opened.
pub(crate) fn opens(heap: Global, accounts: &[Account]) -> Result<Result<(), Refusal>, Fail> {
    let mut house = table(heap, accounts)?;
    Ok(told(Book::check(&mut house)))
}

pub(crate) fn opened<C: House + Drop>(heap: Global, mut house: C) -> Result<Book<C>, Fail> {
    Book::check(&mut house).map_err(|_| Fail::new("no book over this house"))?;
    let rows = Vec::with_capacity(heap, ROWS)?;
    Ok(Book::open(house, rows))
}

// A book over a table house with the accounts.
pub(crate) fn over_table(heap: Global, accounts: &[Account]) -> Result<Book<TableHouse>, Fail> {
    opened(heap, table(heap, accounts)?)
}
