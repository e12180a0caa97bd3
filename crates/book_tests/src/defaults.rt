// Cases, uses and recoveries.
use crate::calls::Call::*;
use crate::calls::Seen::*;
use crate::calls::{Step, refusal, row};
use crate::lists::Lists;
use crate::making::{FOUR, MOST, over_table};
use crate::playing::{on_both, plays};
use crate::strangers::{abroad, beside};
use book::Book;
use book::Standing::*;
use houses::House;
use std::process::Abort;
use std::test::Fail;

const EXAMPLE: &[Step] = &[
    (Join(10), Ok(Amount(2_000_000))),
    (Join(11), Ok(Amount(2_000_000))),
    (Join(12), Ok(Amount(2_000_000))),
    (Join(13), Ok(Amount(2_000_000))),
    (Income(100), Ok(Amount(100))),
    (OpenCase(10), Ok(Number(1))),
    (Use(5_000_000), Ok(Groups(2_000_000, 25, 2_999_975, 0))),
    (Row(0), row!(10, Defaulting, 0, 0, 2_000_000, 2_000_025)),
    (Row(1), row!(11, Active, 1_000_009, 25, 2_000_000, 999_991)),
    (Row(2), row!(12, Active, 1_000_008, 25, 2_000_000, 999_992)),
    (Row(3), row!(13, Active, 1_000_008, 25, 2_000_000, 999_992)),
    (Balance(0), Ok(Amount(3_000_100))),
    (Balance(1), Ok(Amount(5_000_000))),
    (Recover(1_000_000), Ok(Amount(1_000_000))),
    (
        Row(0),
        row!(10, Defaulting, 0, 400_005, 2_000_000, 2_000_025),
    ),
    (
        Row(1),
        row!(11, Active, 1_000_009, 200_023, 2_000_000, 999_991),
    ),
    (
        Row(2),
        row!(12, Active, 1_000_008, 200_023, 2_000_000, 999_992),
    ),
    (
        Row(3),
        row!(13, Active, 1_000_008, 200_024, 2_000_000, 999_992),
    ),
    (Balance(0), Ok(Amount(4_000_100))),
    (Balance(1), Ok(Amount(4_000_000))),
    (Regulate(11), Ok(Paid(999_991, 0))),
    (
        Row(1),
        row!(11, Active, 2_000_000, 200_023, 2_000_000, 999_991),
    ),
    (Shares, Ok(Amount(5_000_091))),
    (Balance(0), Ok(Amount(5_000_091))),
    (Balance(11), Ok(Amount(9))),
    (Close, Ok(Number(1))),
    (Row(0), row!(10, Barred, 0, 400_005, 2_000_000, 0)),
    (Row(1), row!(11, Active, 2_000_000, 200_023, 2_000_000, 0)),
    (Row(2), row!(12, Active, 1_000_008, 200_023, 2_000_000, 0)),
    (Row(3), row!(13, Active, 1_000_008, 200_024, 2_000_000, 0)),
];

#[test]
fn the_worked_example(rt: HostRuntime) -> Result<(), Fail> {
    on_both(&rt, FOUR, EXAMPLE)
}

const NUMBERS: &[Step] = &[
    (Join(10), Ok(Amount(2_000_000))),
    (Join(11), Ok(Amount(2_000_000))),
    (OpenCase(9), Err(refusal!(11, Book))),
    (OpenCase(14), Err(refusal!(31, Book))),
    (OpenCase(10), Ok(Number(1))),
    (Row(0), row!(10, Defaulting, 2_000_000, 0, 2_000_000, 0)),
    (OpenCase(9), Err(refusal!(11, Book))),
    (OpenCase(14), Err(refusal!(31, Book))),
    (OpenCase(10), Err(refusal!(36, Book))),
    (OpenCase(11), Err(refusal!(36, Book))),
    (Close, Ok(Number(1))),
    (OpenCase(10), Err(refusal!(35, Book))),
    (OpenCase(11), Ok(Number(2))),
    (OpenCase(10), Err(refusal!(36, Book))),
    (Close, Ok(Number(2))),
    (Row(0), row!(10, Barred, 2_000_000, 0, 2_000_000, 0)),
    (Row(1), row!(11, Barred, 2_000_000, 0, 2_000_000, 0)),
];

#[test]
fn cases_have_numbers_in_order(rt: HostRuntime) -> Result<(), Fail> {
    on_both(&rt, FOUR, NUMBERS)
}

const BARRED: &[Step] = &[
    (Join(10), Ok(Amount(2_000_000))),
    (Join(11), Ok(Amount(2_000_000))),
    (Join(12), Ok(Amount(2_000_000))),
    (Join(13), Ok(Amount(2_000_000))),
    (OpenCase(10), Ok(Number(1))),
    (Join(10), Err(refusal!(32, Book))),
    (Update(10, Lists::IDLE), Err(refusal!(35, Book))),
    (Regulate(10), Err(refusal!(35, Book))),
    (Leave(10), Err(refusal!(36, Book))),
    (Leave(12), Err(refusal!(36, Book))),
    (Leave(14), Err(refusal!(31, Book))),
    (Close, Ok(Number(1))),
    (Join(10), Err(refusal!(32, Book))),
    (Update(10, Lists::IDLE), Err(refusal!(35, Book))),
    (Regulate(10), Err(refusal!(35, Book))),
    (Income(100), Ok(Amount(100))),
    (Row(0), row!(10, Barred, 2_000_000, 25, 2_000_000, 0)),
    (OpenCase(11), Ok(Number(2))),
    (Use(2_000_028), Ok(Groups(2_000_000, 25, 3, 0))),
    (Row(0), row!(10, Barred, 1_999_999, 25, 2_000_000, 1)),
    (Row(1), row!(11, Defaulting, 0, 0, 2_000_000, 2_000_025)),
    (Row(2), row!(12, Active, 1_999_999, 25, 2_000_000, 1)),
    (Close, Ok(Number(2))),
    (Leave(10), Ok(Amount(2_000_024))),
    (Join(10), Ok(Amount(2_000_000))),
    (Row(3), row!(10, Active, 2_000_000, 0, 2_000_000, 0)),
    (Update(10, Lists::IDLE), Ok(Amount(2_000_000))),
    (Regulate(10), Ok(Paid(0, 0))),
    (Leave(11), Ok(Amount(0))),
    (OpenCase(10), Ok(Number(3))),
    (Close, Ok(Number(3))),
];

#[test]
fn a_case_bars_until_the_member_leaves(rt: HostRuntime) -> Result<(), Fail> {
    on_both(&rt, FOUR, BARRED)
}

const NOTHING_OUT: &[Step] = &[
    (Join(10), Ok(Amount(2_000_000))),
    (Join(11), Ok(Amount(2_000_000))),
    (Update(10, Lists::RISING), Ok(Amount(5_950_000))),
    (Update(11, Lists::RISING), Ok(Amount(5_950_000))),
    (Regulate(10), Ok(Paid(3_950_000, 0))),
    (Regulate(11), Ok(Paid(3_950_000, 0))),
    (Update(10, Lists::IDLE), Ok(Amount(2_000_000))),
    (OpenCase(10), Ok(Number(1))),
    (Regulate(10), Err(refusal!(35, Book))),
    (Update(11, Lists::IDLE), Ok(Amount(2_000_000))),
    (Regulate(11), Err(refusal!(36, Book))),
    (Leave(11), Err(refusal!(36, Book))),
    (Close, Ok(Number(1))),
    (Regulate(11), Ok(Paid(0, 3_950_000))),
    (Row(0), row!(10, Barred, 5_950_000, 0, 2_000_000, 0)),
    (Row(1), row!(11, Active, 2_000_000, 0, 2_000_000, 0)),
    (Balance(0), Ok(Amount(7_950_000))),
    (Balance(11), Ok(Amount(4_000_000))),
];

#[test]
fn nothing_is_paid_out_during_a_case(rt: HostRuntime) -> Result<(), Fail> {
    on_both(
        &rt,
        &[(0, 0), (10, 6_000_000), (11, 6_000_000)],
        NOTHING_OUT,
    )
}

const USES: &[Step] = &[
    (Join(10), Ok(Amount(2_000_000))),
    (Join(11), Ok(Amount(2_000_000))),
    (Join(12), Ok(Amount(2_000_000))),
    (Join(13), Ok(Amount(2_000_000))),
    (Income(100), Ok(Amount(100))),
    (Use(1), Ok(NoCase)),
    (OpenCase(10), Ok(Number(1))),
    (Use(0), Err(refusal!(12, Book))),
    (Use(4_000_000_001), Err(refusal!(12, Book))),
    (Use(4_000_000_000), Err(refusal!(38, Book))),
    (Use(8_000_101), Err(refusal!(38, Book))),
    (Use(8_000_100), Ok(Groups(2_000_000, 25, 6_000_000, 75))),
    (Shares, Ok(Amount(0))),
    (Row(0), row!(10, Defaulting, 0, 0, 2_000_000, 2_000_025)),
    (Row(3), row!(13, Active, 0, 0, 2_000_000, 2_000_025)),
    (Balance(0), Ok(Amount(0))),
    (Balance(1), Ok(Amount(8_000_100))),
    (Use(1), Err(refusal!(38, Book))),
    (Income(1), Err(refusal!(40, Book))),
    (Recover(8_000_101), Err(refusal!(41, Book))),
    (Recover(8_000_100), Ok(Amount(8_000_100))),
    (Income(1), Err(refusal!(40, Book))),
    (
        Row(0),
        row!(10, Defaulting, 0, 2_000_025, 2_000_000, 2_000_025),
    ),
    (Row(3), row!(13, Active, 0, 2_000_025, 2_000_000, 2_000_025)),
    (Close, Ok(Number(1))),
    (Shares, Ok(Amount(8_000_100))),
];

#[test]
fn a_use_takes_up_to_all_shares(rt: HostRuntime) -> Result<(), Fail> {
    on_both(&rt, FOUR, USES)
}

const NO_SETTLEMENT: &[Step] = &[
    (Join(10), Ok(Amount(2_000_000))),
    (OpenCase(10), Ok(Number(1))),
    (Use(2_000_001), Err(refusal!(38, Book))),
    (Use(2_000_000), Err(refusal!(52, House))),
    (Recover(1), Err(refusal!(41, Book))),
    (Close, Ok(Number(1))),
    (Row(0), row!(10, Barred, 2_000_000, 0, 2_000_000, 0)),
];

const FULL_SETTLEMENT: &[Step] = &[
    (Join(10), Ok(Amount(2_000_000))),
    (OpenCase(10), Ok(Number(1))),
    (Use(2_000_001), Err(refusal!(38, Book))),
    (Use(11), Err(refusal!(54, House))),
    (Use(10), Ok(Groups(10, 0, 0, 0))),
    (Use(1), Err(refusal!(54, House))),
    (Row(0), row!(10, Defaulting, 1_999_990, 0, 2_000_000, 10)),
    (Recover(11), Err(refusal!(41, Book))),
    (Recover(10), Ok(Amount(10))),
    (Recover(1), Err(refusal!(41, Book))),
    (Use(10), Ok(Groups(10, 0, 0, 0))),
    (Row(0), row!(10, Defaulting, 1_999_980, 10, 2_000_000, 20)),
];

#[test]
fn a_use_wants_a_settlement_account(rt: HostRuntime) -> Result<(), Fail> {
    on_both(&rt, &[(0, 0), (10, 2_000_000)], NO_SETTLEMENT)
}

#[test]
fn the_settlement_account_has_a_limit(rt: HostRuntime) -> Result<(), Fail> {
    on_both(
        &rt,
        &[(0, 0), (1, MOST - 10), (10, 2_000_000)],
        FULL_SETTLEMENT,
    )
}

const CHARGED_TO_THE_LIMIT: &[Step] = &[
    (Join(10), Ok(Amount(2_000_000))),
    (Join(11), Ok(Amount(2_000_000))),
    (Income(3_996_000_000), Ok(Amount(3_996_000_000))),
    (OpenCase(10), Ok(Number(1))),
    (
        Use(2_000_000_000),
        Ok(Groups(2_000_000, 1_998_000_000, 0, 0)),
    ),
    (Recover(1_000_000_000), Ok(Amount(1_000_000_000))),
    (Use(3_000_000_001), Err(refusal!(38, Book))),
    (Use(2_000_000_001), Err(refusal!(39, Book))),
    (
        Use(1_500_000_000),
        Ok(Groups(0, 1_000_000_000, 2_000_000, 498_000_000)),
    ),
    (Income(1), Err(refusal!(40, Book))),
    (Join(12), Ok(Amount(2_000_000))),
    (Use(500_000_001), Err(refusal!(39, Book))),
    (Use(500_000_000), Ok(Groups(0, 0, 2_000_000, 498_000_000))),
    (Transfer(14, 1, 996_000_000), Ok(Amount(996_000_000))),
    (Balance(1), Ok(Amount(MOST))),
    (Use(1), Err(refusal!(39, Book))),
    (Row(0), row!(10, Defaulting, 0, 0, 2_000_000, 3_000_000_000)),
    (
        Row(1),
        row!(11, Active, 0, 1_002_000_000, 2_000_000, 998_000_000),
    ),
    (Row(2), row!(12, Active, 0, 0, 2_000_000, 2_000_000)),
    (Recover(3_000_000_001), Err(refusal!(41, Book))),
    (Recover(3_000_000_000), Err(refusal!(34, Book))),
    (Recover(2_998_000_001), Err(refusal!(34, Book))),
    (Recover(2_998_000_000), Ok(Amount(2_998_000_000))),
    (Recover(2_000_001), Err(refusal!(41, Book))),
    (Recover(2_000_000), Err(refusal!(34, Book))),
    (Use(1), Err(refusal!(39, Book))),
    (Close, Ok(Number(1))),
    (Row(0), row!(10, Barred, 0, 2_248_500_000, 2_000_000, 0)),
    (Row(1), row!(11, Active, 0, 1_750_001_000, 2_000_000, 0)),
    (Row(2), row!(12, Active, 0, 1_499_000, 2_000_000, 0)),
    (Shares, Ok(Amount(4_000_000_000))),
];

#[test]
fn a_case_is_charged_up_to_the_limit(rt: HostRuntime) -> Result<(), Fail> {
    let accounts = [
        (0, 0),
        (1, MOST),
        (10, 2_000_000),
        (11, 2_000_000),
        (12, 2_000_000),
        (14, 996_000_000),
    ];
    on_both(&rt, &accounts, CHARGED_TO_THE_LIMIT)
}

const RECOVERIES: &[Step] = &[
    (Join(10), Ok(Amount(2_000_000))),
    (Join(11), Ok(Amount(2_000_000))),
    (OpenCase(10), Ok(Number(1))),
    (Recover(0), Err(refusal!(12, Book))),
    (Recover(4_000_000_001), Err(refusal!(12, Book))),
    (Recover(1), Err(refusal!(41, Book))),
    (Use(3_000_000), Ok(Groups(2_000_000, 0, 1_000_000, 0))),
    (Transfer(1, 12, 3_999_000_000), Ok(Amount(3_999_000_000))),
    (Recover(3_000_001), Err(refusal!(41, Book))),
    (Recover(3_000_000), Err(refusal!(53, House))),
    (Transfer(12, 1, 3_999_000_000), Ok(Amount(3_999_000_000))),
    (Recover(3_000_000), Ok(Amount(3_000_000))),
    (
        Row(0),
        row!(10, Defaulting, 0, 2_000_000, 2_000_000, 2_000_000),
    ),
    (
        Row(1),
        row!(11, Active, 1_000_000, 1_000_000, 2_000_000, 1_000_000),
    ),
    (Recover(1), Err(refusal!(41, Book))),
    (Use(1), Ok(Groups(0, 1, 0, 0))),
    (Income(3_996_000_001), Ok(Amount(3_996_000_001))),
    (Balance(1), Ok(Amount(0))),
    (Recover(2), Err(refusal!(41, Book))),
    (Recover(1), Err(refusal!(34, Book))),
    (Close, Ok(Number(1))),
    (Recover(1), Ok(NoCase)),
    (Row(0), row!(10, Barred, 0, 1_999_999, 2_000_000, 0)),
    (
        Row(1),
        row!(11, Active, 1_000_000, 3_997_000_001, 2_000_000, 0),
    ),
];

#[test]
fn recoveries_that_are_refused(rt: HostRuntime) -> Result<(), Fail> {
    let accounts = [
        (0, 0),
        (1, 3_996_000_000),
        (10, 2_000_000),
        (11, 2_000_000),
        (12, 0),
    ];
    on_both(&rt, &accounts, RECOVERIES)
}

const NEWCOMERS: &[Step] = &[
    (Join(10), Ok(Amount(2_000_000))),
    (Join(11), Ok(Amount(2_000_000))),
    (OpenCase(10), Ok(Number(1))),
    (Use(2_000_000), Ok(Groups(2_000_000, 0, 0, 0))),
    (Join(12), Ok(Amount(2_000_000))),
    (Use(1_000_000), Ok(Groups(0, 0, 1_000_000, 0))),
    (Row(1), row!(11, Active, 1_500_000, 0, 2_000_000, 500_000)),
    (Row(2), row!(12, Active, 1_500_000, 0, 2_000_000, 500_000)),
    (Join(13), Ok(Amount(2_000_000))),
    (Recover(300), Ok(Amount(300))),
    (Recover(300), Ok(Amount(300))),
    (Row(0), row!(10, Defaulting, 0, 400, 2_000_000, 2_000_000)),
    (Row(1), row!(11, Active, 1_500_000, 100, 2_000_000, 500_000)),
    (Row(2), row!(12, Active, 1_500_000, 100, 2_000_000, 500_000)),
    (Row(3), row!(13, Active, 2_000_000, 0, 2_000_000, 0)),
    (Close, Ok(Number(1))),
    (Row(0), row!(10, Barred, 0, 400, 2_000_000, 0)),
    (Row(2), row!(12, Active, 1_500_000, 100, 2_000_000, 0)),
    (OpenCase(12), Ok(Number(2))),
    (Recover(1), Err(refusal!(41, Book))),
    (Use(1_500_101), Ok(Groups(1_500_000, 100, 1, 0))),
    (Recover(1_500_101), Ok(Amount(1_500_101))),
];

#[test]
fn newcomers_are_charged_too(rt: HostRuntime) -> Result<(), Fail> {
    on_both(&rt, FOUR, NEWCOMERS)
}

const TWO: &[Step] = &[
    (Join(10), Ok(Amount(2_000_000))),
    (Join(11), Ok(Amount(2_000_000))),
];

const NOT_OPEN: &[Step] = &[
    (Use(0), Err(refusal!(12, Book))),
    (Use(4_000_000_001), Err(refusal!(12, Book))),
    (Use(4_000_000_000), Err(refusal!(37, Book))),
    (Use(1), Err(refusal!(37, Book))),
    (Recover(0), Err(refusal!(12, Book))),
    (Recover(4_000_000_001), Err(refusal!(12, Book))),
    (Recover(1), Err(refusal!(37, Book))),
];

const MINE: &[Step] = &[
    (Row(0), row!(10, Barred, 2_000_000, 0, 2_000_000, 0)),
    (Row(1), row!(11, Barred, 2_000_000, 0, 2_000_000, 0)),
];

const OTHERS: &[Step] = &[
    (Row(0), row!(10, Active, 2_000_000, 0, 2_000_000, 0)),
    (Row(1), row!(11, Barred, 2_000_000, 0, 2_000_000, 0)),
];

fn exchange<C: House>(rt: &impl Abort, book: &mut Book<C>, other: &mut Book<C>) {
    plays(rt, book, TWO);
    plays(rt, other, TWO);
    let shown = abroad(book, other, 10, NOT_OPEN);
    assert_eq!(rt; shown, Ok((None, (Some(refusal!(37, Book)), 1))));
    assert_eq!(rt; beside(other, book, 11, NOT_OPEN), Ok((None, 2)));
    plays(rt, book, MINE);
    plays(rt, other, OTHERS);
}

#[test]
fn a_case_is_good_in_its_own_book(rt: HostRuntime) -> Result<(), Fail> {
    let mut book = over_table(rt.alloc(), FOUR)?;
    let mut other = over_table(rt.alloc(), FOUR)?;
    exchange(&rt, &mut book, &mut other);
    Ok(())
}
