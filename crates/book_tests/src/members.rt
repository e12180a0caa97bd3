// Joins, updates, regulations, leaves, and transfers that are not the fund's.
use crate::calls::Call::*;
use crate::calls::Seen::*;
use crate::calls::{Step, refusal, row};
use crate::cases::told;
use crate::lists::{BAD_SECURITY, BAD_TRADE, Lists};
use crate::making::{FOUR, MOST, over_table};
use crate::playing::on_both;
use book::Standing::*;
use division::Refusal;
use std::alloc::Global;
use std::test::Fail;

const JOINS: &[Step] = &[
    (Join(10), Ok(Amount(2_000_000))),
    (Join(9), Err(refusal!(11, Book))),
    (Join(10_000), Err(refusal!(11, Book))),
    (Join(65_546), Err(refusal!(11, Book))),
    (Join(4_294_967_306), Err(refusal!(11, Book))),
    (Join(10), Err(refusal!(32, Book))),
    (Join(12), Err(refusal!(52, House))),
    (Join(11), Err(refusal!(53, House))),
    (Rows, Ok(Count(1))),
    (Row(0), row!(10, Active, 2_000_000, 0, 2_000_000, 0)),
    (Row(1), Ok(NoRow)),
    (Balance(0), Ok(Amount(2_000_000))),
    (Balance(10), Ok(Amount(3_000_000))),
    (Balance(11), Ok(Amount(1_999_999))),
    (Balance(12), Err(refusal!(52, House))),
];

#[test]
fn joins_that_are_refused(rt: HostRuntime) -> Result<(), Fail> {
    on_both(&rt, &[(0, 0), (10, 5_000_000), (11, 1_999_999)], JOINS)
}

const UPDATES: &[Step] = &[
    (Join(10), Ok(Amount(2_000_000))),
    (Join(11), Ok(Amount(2_000_000))),
    (
        Update(9, Lists::MALFORMED_SECURITY),
        Err(refusal!(11, Book)),
    ),
    (
        Update(10, Lists::MALFORMED_SECURITY),
        Err(refusal!(13, Contribution, 1)),
    ),
    (
        Update(10, Lists::NO_PRICE),
        Err(refusal!(14, Contribution, 1)),
    ),
    (
        Update(10, Lists::LISTED_TWICE),
        Err(refusal!(15, Contribution, 1)),
    ),
    (
        Update(10, Lists::MALFORMED_TRADE),
        Err(refusal!(13, Contribution, 1)),
    ),
    (
        Update(10, Lists::NO_QUANTITY),
        Err(refusal!(16, Contribution, 1)),
    ),
    (
        Update(10, Lists::NOT_LISTED),
        Err(refusal!(17, Contribution, 1)),
    ),
    (
        Update(10, Lists::TOO_LARGE),
        Err(refusal!(18, Contribution, 1)),
    ),
    (Update(10, Lists::HIGH), Err(refusal!(20, Contribution))),
    (Update(12, Lists::HIGH), Err(refusal!(20, Contribution))),
    (Update(12, Lists::IDLE), Err(refusal!(31, Book))),
    (OpenCase(10), Ok(Number(1))),
    (Update(10, Lists::HIGH), Err(refusal!(20, Contribution))),
    (Update(10, Lists::IDLE), Err(refusal!(35, Book))),
    (Update(11, Lists::RISING), Ok(Amount(5_950_000))),
    (Close, Ok(Number(1))),
    (Update(10, Lists::IDLE), Err(refusal!(35, Book))),
    (Row(0), row!(10, Barred, 2_000_000, 0, 2_000_000, 0)),
    (Row(1), row!(11, Active, 2_000_000, 0, 5_950_000, 0)),
    (Balance(0), Ok(Amount(4_000_000))),
];

#[test]
fn updates_that_are_refused(rt: HostRuntime) -> Result<(), Fail> {
    on_both(&rt, &[(0, 0), (10, 2_000_000), (11, 2_000_000)], UPDATES)
}

// The answer to an update with so many securities and trades, none of them well formed.
fn crowded(heap: Global, securities: usize, trades: usize) -> Result<Result<u64, Refusal>, Fail> {
    let mut book = over_table(heap, &[(0, 0)])?;
    let securities = vec![in heap; BAD_SECURITY; securities]?;
    let trades = vec![in heap; BAD_TRADE; trades]?;
    Ok(told(book.update(10, &securities, &trades)))
}

#[test]
fn lists_have_limits(rt: HostRuntime) -> Result<(), Fail> {
    let lists = [(64, 128, 13), (65, 0, 19), (0, 128, 13), (0, 129, 19)];
    for (securities, trades, number) in lists {
        let answer = crowded(rt.alloc(), securities, trades)?;
        assert_eq!(rt; answer, Err(refusal!(number, Contribution)));
    }
    Ok(())
}

const REGULATIONS: &[Step] = &[
    (Join(10), Ok(Amount(2_000_000))),
    (Join(11), Ok(Amount(2_000_000))),
    (Update(10, Lists::RISING), Ok(Amount(5_950_000))),
    (Update(11, Lists::RISING), Ok(Amount(5_950_000))),
    (Regulate(10), Ok(Paid(3_950_000, 0))),
    (Regulate(10), Ok(Paid(0, 0))),
    (Regulate(11), Err(refusal!(53, House))),
    (Regulate(10_000), Err(refusal!(11, Book))),
    (Regulate(12), Err(refusal!(31, Book))),
    (Row(0), row!(10, Active, 5_950_000, 0, 5_950_000, 0)),
    (Row(1), row!(11, Active, 2_000_000, 0, 5_950_000, 0)),
    (Balance(0), Ok(Amount(7_950_000))),
    (Balance(10), Ok(Amount(4_050_000))),
    (Balance(11), Ok(Amount(3_949_999))),
    (Update(10, Lists::IDLE), Ok(Amount(2_000_000))),
    (Row(0), row!(10, Active, 5_950_000, 0, 2_000_000, 0)),
    (Regulate(10), Ok(Paid(0, 3_950_000))),
    (Row(0), row!(10, Active, 2_000_000, 0, 2_000_000, 0)),
    (Row(1), row!(11, Active, 2_000_000, 0, 5_950_000, 0)),
    (Balance(0), Ok(Amount(4_000_000))),
    (Balance(10), Ok(Amount(8_000_000))),
];

#[test]
fn what_is_required_is_regulated(rt: HostRuntime) -> Result<(), Fail> {
    on_both(
        &rt,
        &[(0, 0), (10, 10_000_000), (11, 5_949_999)],
        REGULATIONS,
    )
}

const FULL_ACCOUNT: &[Step] = &[
    (Join(10), Ok(Amount(2_000_000))),
    (Update(10, Lists::RISING), Ok(Amount(5_950_000))),
    (Regulate(10), Ok(Paid(3_950_000, 0))),
    (Transfer(11, 10, 5_950_000), Ok(Amount(5_950_000))),
    (Balance(10), Ok(Amount(MOST))),
    (Update(10, Lists::IDLE), Ok(Amount(2_000_000))),
    (Regulate(10), Err(refusal!(54, House))),
    (Leave(10), Err(refusal!(54, House))),
    (Transfer(11, 10, 1), Err(refusal!(54, House))),
    (Transfer(10, 11, 3_950_000), Ok(Amount(3_950_000))),
    (Regulate(10), Ok(Paid(0, 3_950_000))),
    (Balance(10), Ok(Amount(MOST))),
    (Leave(10), Err(refusal!(54, House))),
    (Transfer(10, 11, 2_000_000), Ok(Amount(2_000_000))),
    (Leave(10), Ok(Amount(2_000_000))),
    (Balance(10), Ok(Amount(MOST))),
    (Balance(0), Ok(Amount(0))),
];

#[test]
fn an_account_has_a_limit(rt: HostRuntime) -> Result<(), Fail> {
    on_both(&rt, &[(0, 0), (10, MOST), (11, 10_000_000)], FULL_ACCOUNT)
}

const LEAVES: &[Step] = &[
    (Join(10), Ok(Amount(2_000_000))),
    (Join(11), Ok(Amount(2_000_000))),
    (Join(12), Ok(Amount(2_000_000))),
    (Join(13), Ok(Amount(2_000_000))),
    (Income(100), Ok(Amount(100))),
    (Leave(11), Ok(Amount(2_000_025))),
    (Leave(11), Err(refusal!(31, Book))),
    (Leave(9), Err(refusal!(11, Book))),
    (Rows, Ok(Count(3))),
    (Row(0), row!(10, Active, 2_000_000, 25, 2_000_000, 0)),
    (Row(1), row!(12, Active, 2_000_000, 25, 2_000_000, 0)),
    (Row(2), row!(13, Active, 2_000_000, 25, 2_000_000, 0)),
    (Balance(0), Ok(Amount(6_000_075))),
    (Balance(11), Ok(Amount(3_000_025))),
    (Join(11), Ok(Amount(2_000_000))),
    (Row(3), row!(11, Active, 2_000_000, 0, 2_000_000, 0)),
    (Shares, Ok(Amount(8_000_075))),
    (Balance(0), Ok(Amount(8_000_075))),
    (Balance(11), Ok(Amount(1_000_025))),
];

#[test]
fn a_member_leaves_and_joins_again(rt: HostRuntime) -> Result<(), Fail> {
    on_both(&rt, FOUR, LEAVES)
}

const TRANSFERS: &[Step] = &[
    (Join(10), Ok(Amount(2_000_000))),
    (Transfer(0, 10, 5), Err(refusal!(21, Book))),
    (Transfer(10, 0, 0), Err(refusal!(21, Book))),
    (Transfer(0, 0, 1), Err(refusal!(21, Book))),
    (Transfer(10, 10, 0), Err(refusal!(12, House))),
    (Transfer(10, 1, 4_000_000_001), Err(refusal!(12, House))),
    (Transfer(10, 10, 1), Err(refusal!(22, House))),
    (Transfer(10, 11, 8), Err(refusal!(52, House))),
    (Transfer(11, 10, 1), Err(refusal!(52, House))),
    (Transfer(10, 12, 8), Err(refusal!(53, House))),
    (Transfer(10, 12, 7), Err(refusal!(54, House))),
    (Transfer(10, 1, 7), Ok(Amount(7))),
    (Row(0), row!(10, Active, 2_000_000, 0, 2_000_000, 0)),
    (Balance(0), Ok(Amount(2_000_000))),
    (Balance(1), Ok(Amount(107))),
    (Balance(10), Ok(Amount(0))),
    (Balance(12), Ok(Amount(MOST))),
];

#[test]
fn other_transfers_leave_the_fund_alone(rt: HostRuntime) -> Result<(), Fail> {
    on_both(
        &rt,
        &[(0, 0), (1, 100), (10, 2_000_007), (12, MOST)],
        TRANSFERS,
    )
}
