// The opening, incomes, and the limits of the fund.
use crate::calls::Call::*;
use crate::calls::Seen::*;
use crate::calls::{Step, refusal, row};
use crate::lists::Lists;
use crate::making::{FOUR, ROOM, list, opened, opens, table, with_members};
use crate::playing::{kept_out, on_both, plays};
use book::Book;
use book::Standing::*;
use houses::House;
use std::process::Abort;
use std::test::Fail;

const OPENING: &[Step] = &[
    (Rows, Ok(Count(0))),
    (Shares, Ok(Amount(0))),
    (Balance(0), Ok(Amount(0))),
    (Balance(1), Err(refusal!(52, House))),
    (Income(0), Err(refusal!(12, Book))),
    (Income(4_000_000_001), Err(refusal!(12, Book))),
    (Income(1), Err(refusal!(40, Book))),
    (Use(1), Ok(NoCase)),
    (Join(10), Ok(Amount(2_000_000))),
    (Income(4_000_000_001), Err(refusal!(12, Book))),
    (Income(3_998_000_001), Err(refusal!(34, Book))),
    (Income(3_998_000_000), Err(refusal!(52, House))),
];

#[test]
fn a_book_opens_over_an_empty_fund(rt: HostRuntime) -> Result<(), Fail> {
    assert_eq!(rt; opens(rt.alloc(), &[(1, 0)])?, Err(refusal!(52, House)));
    assert_eq!(rt; opens(rt.alloc(), &[(0, 1)])?, Err(refusal!(43, Book)));
    assert_eq!(rt; opens(rt.alloc(), &[(0, 0)])?, Ok(()));
    on_both(&rt, &[(0, 0), (10, 2_000_000)], OPENING)
}

const INCOMES: &[Step] = &[
    (Join(10), Ok(Amount(2_000_000))),
    (Join(11), Ok(Amount(2_000_000))),
    (Join(12), Ok(Amount(2_000_000))),
    (Join(13), Ok(Amount(2_000_000))),
    (Income(101), Err(refusal!(53, House))),
    (Income(100), Ok(Amount(100))),
    (Row(0), row!(10, Active, 2_000_000, 25, 2_000_000, 0)),
    (Row(1), row!(11, Active, 2_000_000, 25, 2_000_000, 0)),
    (Row(2), row!(12, Active, 2_000_000, 25, 2_000_000, 0)),
    (Row(3), row!(13, Active, 2_000_000, 25, 2_000_000, 0)),
    (Shares, Ok(Amount(8_000_100))),
    (Balance(0), Ok(Amount(8_000_100))),
    (Balance(1), Ok(Amount(0))),
    (Balance(11), Ok(Amount(1_000_000))),
    (Income(1), Err(refusal!(53, House))),
];

#[test]
fn income_goes_to_the_reserves(rt: HostRuntime) -> Result<(), Fail> {
    on_both(&rt, FOUR, INCOMES)
}

const LIMITS: &[Step] = &[
    (Join(10), Ok(Amount(2_000_000))),
    (Join(11), Ok(Amount(2_000_000))),
    (Update(10, Lists::RISING), Ok(Amount(5_950_000))),
    (Income(3_996_000_001), Err(refusal!(34, Book))),
    (Income(3_996_000_000), Ok(Amount(3_996_000_000))),
    (Shares, Ok(Amount(4_000_000_000))),
    (Income(1), Err(refusal!(34, Book))),
    (Join(10), Err(refusal!(32, Book))),
    (Join(12), Err(refusal!(34, Book))),
    (Join(13), Err(refusal!(34, Book))),
    (Regulate(10), Err(refusal!(34, Book))),
    (Regulate(11), Ok(Paid(0, 0))),
    (
        Row(0),
        row!(10, Active, 2_000_000, 1_998_000_000, 5_950_000, 0),
    ),
    (
        Row(1),
        row!(11, Active, 2_000_000, 1_998_000_000, 2_000_000, 0),
    ),
    (Balance(0), Ok(Amount(4_000_000_000))),
    (Balance(1), Ok(Amount(4_000_000))),
    (Leave(11), Ok(Amount(2_000_000_000))),
    (Regulate(10), Err(refusal!(53, House))),
    (Join(12), Ok(Amount(2_000_000))),
];

#[test]
fn the_fund_has_a_limit(rt: HostRuntime) -> Result<(), Fail> {
    let accounts = [
        (0, 0),
        (1, 4_000_000_000),
        (10, 2_000_000),
        (11, 2_000_000),
        (12, 2_000_000),
    ];
    on_both(&rt, &accounts, LIMITS)
}

const ALL_ROWS: &[Step] = &[
    (Rows, Ok(Count(64))),
    (Join(10), Err(refusal!(32, Book))),
    (Join(74), Err(refusal!(33, Book))),
    (Join(75), Err(refusal!(33, Book))),
    (Income(3_872_000_000), Ok(Amount(3_872_000_000))),
    (Shares, Ok(Amount(4_000_000_000))),
    (Join(74), Err(refusal!(33, Book))),
    (Leave(42), Ok(Amount(62_500_000))),
    (
        Row(31),
        row!(41, Active, 2_000_000, 60_500_000, 2_000_000, 0),
    ),
    (
        Row(32),
        row!(43, Active, 2_000_000, 60_500_000, 2_000_000, 0),
    ),
    (Join(74), Ok(Amount(2_000_000))),
    (Row(63), row!(74, Active, 2_000_000, 0, 2_000_000, 0)),
];

fn fill<C: House>(rt: &impl Abort, book: &mut Book<C>) {
    assert_eq!(rt; kept_out(book, 10..74), None);
    plays(rt, book, ALL_ROWS);
}

fn crowd<C: House + Drop>(rt: &(impl Abort + AllocGlobal), house: C) -> Result<(), Fail> {
    let mut book = opened(rt.alloc(), house)?;
    fill(rt, &mut book);
    Ok(())
}

#[test]
fn a_book_has_sixty_four_rows(rt: HostRuntime) -> Result<(), Fail> {
    let accounts = with_members(rt.alloc(), &[(0, 0), (1, 4_000_000_000)])?;
    crowd(&rt, table(rt.alloc(), &accounts)?)?;
    crowd(&rt, list(rt.alloc(), &accounts, ROOM)?)
}
