// The calls one by one, asked of the book itself: they stand beside the tables, since what the helper that plays a table overlooked would show here.
use crate::calls::refusal;
use crate::cases::{close_elsewhere, told, try_case};
use crate::lists::{BOUGHT, MALFORMED, SHARE, SOLD};
use crate::making::{FOUR, opens, over_table, with_members};
use crate::playing::kept_out;
use book::{Book, Standing};
use contribution::{MINIMUM, Trade};
use houses::{House, TableHouse};
use std::process::Abort;
use std::test::Fail;

// The worked example of the rules: members 10 to 13 join.
fn four(rt: &(impl Abort + AllocGlobal)) -> Result<Book<TableHouse>, Fail> {
    let mut book = over_table(rt.alloc(), FOUR)?;
    assert_eq!(rt; kept_out(&mut book, 10..14), None);
    Ok(book)
}

// The code, the base, the reserve and the required contribution of each row, none of them charged.
fn shows<C: House>(rt: &impl Abort, book: &Book<C>, lines: &[(u16, u64, u64, u64)]) {
    assert_eq!(rt; book.rows().len(), lines.len());
    for (row, line) in book.rows().iter().zip(lines) {
        assert_eq!(rt; (row.code, row.base, row.reserve, row.required), *line);
        assert_eq!(rt; row.charged, 0);
    }
}

// The standings of the rows.
fn stands<C: House>(rt: &impl Abort, book: &Book<C>, standings: &[Standing]) {
    assert_eq!(rt; book.rows().len(), standings.len());
    for (row, standing) in book.rows().iter().zip(standings) {
        assert_eq!(rt; row.standing, *standing);
    }
}

fn holds<C: House>(rt: &impl Abort, book: &mut Book<C>, balances: &[(u64, u64)]) {
    for (account, balance) in balances {
        assert_eq!(rt; told(book.balance(*account)), Ok(*balance));
    }
}

#[test]
fn a_book_opens_over_an_empty_fund(rt: HostRuntime) -> Result<(), Fail> {
    assert_eq!(rt; opens(rt.alloc(), &[(1, 0)])?, Err(refusal!(52, House)));
    assert_eq!(rt; opens(rt.alloc(), &[(0, 1)])?, Err(refusal!(43, Book)));
    let mut book = over_table(rt.alloc(), &[(0, 0)])?;
    shows(&rt, &book, &[]);
    assert_eq!(rt; book.shares(), 0);
    holds(&rt, &mut book, &[(0, 0)]);
    assert_eq!(rt; told(book.balance(1)), Err(refusal!(52, House)));
    assert_eq!(rt; told(book.income(0)), Err(refusal!(12, Book)));
    assert_eq!(rt; told(book.income(1)), Err(refusal!(40, Book)));
    Ok(())
}

#[test]
fn income_goes_to_the_reserves(rt: HostRuntime) -> Result<(), Fail> {
    let mut book = four(&rt)?;
    assert_eq!(rt; told(book.income(100)), Ok(100));
    let lines = [
        (10, MINIMUM, 25, MINIMUM),
        (11, MINIMUM, 25, MINIMUM),
        (12, MINIMUM, 25, MINIMUM),
        (13, MINIMUM, 25, MINIMUM),
    ];
    shows(&rt, &book, &lines);
    stands(&rt, &book, &[Standing::Active; 4]);
    assert_eq!(rt; book.shares(), 8_000_100);
    let balances = [(0, 8_000_100), (1, 0), (10, 0), (11, 1_000_000)];
    holds(&rt, &mut book, &balances);
    assert_eq!(rt; told(book.income(1)), Err(refusal!(53, House)));
    shows(&rt, &book, &lines);
    holds(&rt, &mut book, &balances);
    Ok(())
}

#[test]
fn joins_that_are_refused(rt: HostRuntime) -> Result<(), Fail> {
    let accounts = [(0, 0), (10, 5_000_000), (11, 1_999_999)];
    let mut book = over_table(rt.alloc(), &accounts)?;
    assert_eq!(rt; told(book.join(10)), Ok(MINIMUM));
    let refused = [
        (9, refusal!(11, Book)),
        (10_000, refusal!(11, Book)),
        (65_546, refusal!(11, Book)),
        (4_294_967_306, refusal!(11, Book)),
        (10, refusal!(32, Book)),
        (12, refusal!(52, House)),
        (11, refusal!(53, House)),
    ];
    for (code, refusal) in refused {
        assert_eq!(rt; told(book.join(code)), Err(refusal));
        shows(&rt, &book, &[(10, MINIMUM, 0, MINIMUM)]);
        holds(
            &rt,
            &mut book,
            &[(0, MINIMUM), (10, 3_000_000), (11, 1_999_999)],
        );
    }
    Ok(())
}

#[test]
fn the_fund_has_a_limit(rt: HostRuntime) -> Result<(), Fail> {
    let accounts = [(0, 0), (1, 4_000_000_000), (10, 2_000_000), (11, 2_000_000)];
    let mut book = over_table(rt.alloc(), &accounts)?;
    assert_eq!(rt; told(book.join(10)), Ok(MINIMUM));
    assert_eq!(rt; told(book.income(4_000_000_001)), Err(refusal!(12, Book)));
    assert_eq!(rt; told(book.income(3_998_000_001)), Err(refusal!(34, Book)));
    assert_eq!(rt; told(book.income(3_998_000_000)), Ok(3_998_000_000));
    assert_eq!(rt; told(book.income(1)), Err(refusal!(34, Book)));
    assert_eq!(rt; told(book.join(11)), Err(refusal!(34, Book)));
    assert_eq!(rt; told(book.join(10)), Err(refusal!(32, Book)));
    shows(&rt, &book, &[(10, MINIMUM, 3_998_000_000, MINIMUM)]);
    holds(
        &rt,
        &mut book,
        &[(0, 4_000_000_000), (1, 2_000_000), (11, 2_000_000)],
    );
    Ok(())
}

#[test]
fn what_is_required_is_regulated(rt: HostRuntime) -> Result<(), Fail> {
    let accounts = [(0, 0), (10, 10_000_000), (11, 5_949_999)];
    let mut book = over_table(rt.alloc(), &accounts)?;
    for code in 10..12 {
        assert_eq!(rt; told(book.join(code)), Ok(MINIMUM));
        let required = told(book.update(code, &[SHARE], &[BOUGHT, SOLD]));
        assert_eq!(rt; required, Ok(5_950_000));
    }
    assert_eq!(rt; told(book.regulate(10)), Ok((3_950_000, 0)));
    assert_eq!(rt; told(book.regulate(10)), Ok((0, 0)));
    assert_eq!(rt; told(book.regulate(11)), Err(refusal!(53, House)));
    shows(
        &rt,
        &book,
        &[(10, 5_950_000, 0, 5_950_000), (11, MINIMUM, 0, 5_950_000)],
    );
    holds(
        &rt,
        &mut book,
        &[(0, 7_950_000), (10, 4_050_000), (11, 3_949_999)],
    );
    assert_eq!(rt; told(book.update(10, &[SHARE], &[])), Ok(MINIMUM));
    assert_eq!(rt; told(book.regulate(10)), Ok((0, 3_950_000)));
    shows(
        &rt,
        &book,
        &[(10, MINIMUM, 0, MINIMUM), (11, MINIMUM, 0, 5_950_000)],
    );
    holds(
        &rt,
        &mut book,
        &[(0, 4_000_000), (10, 8_000_000), (11, 3_949_999)],
    );
    Ok(())
}

#[test]
fn updates_that_are_refused(rt: HostRuntime) -> Result<(), Fail> {
    let mut book = over_table(rt.alloc(), &[(0, 0), (10, 2_000_000)])?;
    assert_eq!(rt; told(book.join(10)), Ok(MINIMUM));
    let malformed = refusal!(13, Contribution, 1);
    let bad = [
        BOUGHT,
        Trade {
            isin: MALFORMED,
            ..SOLD
        },
    ];
    assert_eq!(rt;
        told(book.update(9, &[SHARE], &bad)),
        Err(refusal!(11, Book))
    );
    assert_eq!(rt; told(book.update(10, &[SHARE], &bad)), Err(malformed));
    assert_eq!(rt; told(book.update(11, &[SHARE], &bad)), Err(malformed));
    assert_eq!(rt;
        told(book.update(11, &[SHARE], &[BOUGHT])),
        Err(refusal!(31, Book))
    );
    assert_eq!(rt; told(book.regulate(10_000)), Err(refusal!(11, Book)));
    assert_eq!(rt; told(book.regulate(11)), Err(refusal!(31, Book)));
    shows(&rt, &book, &[(10, MINIMUM, 0, MINIMUM)]);
    holds(&rt, &mut book, &[(0, MINIMUM), (10, 0)]);
    Ok(())
}

#[test]
fn a_member_leaves_and_joins_again(rt: HostRuntime) -> Result<(), Fail> {
    let mut book = four(&rt)?;
    assert_eq!(rt; told(book.income(100)), Ok(100));
    assert_eq!(rt; told(book.leave(11)), Ok(2_000_025));
    assert_eq!(rt; told(book.leave(11)), Err(refusal!(31, Book)));
    assert_eq!(rt; told(book.leave(9)), Err(refusal!(11, Book)));
    holds(&rt, &mut book, &[(0, 6_000_075), (11, 3_000_025)]);
    assert_eq!(rt; told(book.join(11)), Ok(MINIMUM));
    let lines = [
        (10, MINIMUM, 25, MINIMUM),
        (12, MINIMUM, 25, MINIMUM),
        (13, MINIMUM, 25, MINIMUM),
        (11, MINIMUM, 0, MINIMUM),
    ];
    shows(&rt, &book, &lines);
    assert_eq!(rt; book.shares(), 8_000_075);
    holds(&rt, &mut book, &[(0, 8_000_075), (11, 1_000_025)]);
    Ok(())
}

#[test]
fn other_transfers_leave_the_fund_alone(rt: HostRuntime) -> Result<(), Fail> {
    let accounts = [(0, 0), (1, 100), (10, 2_000_007)];
    let mut book = over_table(rt.alloc(), &accounts)?;
    assert_eq!(rt; told(book.join(10)), Ok(MINIMUM));
    assert_eq!(rt;
        told(book.other_transfer(0, 10, 5)),
        Err(refusal!(21, Book))
    );
    assert_eq!(rt;
        told(book.other_transfer(10, 0, 0)),
        Err(refusal!(21, Book))
    );
    assert_eq!(rt;
        told(book.other_transfer(10, 1, 0)),
        Err(refusal!(12, House))
    );
    assert_eq!(rt;
        told(book.other_transfer(10, 10, 1)),
        Err(refusal!(22, House))
    );
    assert_eq!(rt;
        told(book.other_transfer(10, 1, 8)),
        Err(refusal!(53, House))
    );
    assert_eq!(rt; told(book.other_transfer(10, 1, 7)), Ok(7));
    shows(&rt, &book, &[(10, MINIMUM, 0, MINIMUM)]);
    holds(&rt, &mut book, &[(0, MINIMUM), (1, 107), (10, 0)]);
    Ok(())
}

#[test]
fn a_book_has_sixty_four_rows(rt: HostRuntime) -> Result<(), Fail> {
    let accounts = with_members(rt.alloc(), &[(0, 0)])?;
    let mut book = over_table(rt.alloc(), &accounts)?;
    assert_eq!(rt; kept_out(&mut book, 10..74), None);
    assert_eq!(rt; told(book.join(10)), Err(refusal!(32, Book)));
    assert_eq!(rt; told(book.join(74)), Err(refusal!(33, Book)));
    assert_eq!(rt; told(book.leave(42)), Ok(MINIMUM));
    assert_eq!(rt; told(book.join(74)), Ok(MINIMUM));
    assert_eq!(rt; book.shares(), 128_000_000);
    Ok(())
}

#[test]
fn cases_have_numbers_in_order(rt: HostRuntime) -> Result<(), Fail> {
    let mut book = four(&rt)?;
    let first = try_case(&mut book, 10, 10)?;
    assert_eq!(rt; (first.number, first.closed), (1, 1));
    assert_eq!(rt; first.standing, Some(Standing::Defaulting));
    assert_eq!(rt; first.answers.update, Err(refusal!(35, Book)));
    assert_eq!(rt; first.answers.regulate, Err(refusal!(35, Book)));
    assert_eq!(rt; first.answers.leave, Err(refusal!(36, Book)));
    assert_eq!(rt; first.answers.open_case, refusal!(36, Book));
    for (code, number) in [(9, 11), (14, 31), (10, 35)] {
        assert_eq!(rt;
            try_case(&mut book, code, 10).err(),
            Some(refusal!(number, Book))
        );
    }
    let second = try_case(&mut book, 11, 10)?;
    assert_eq!(rt; (second.number, second.closed), (2, 2));
    assert_eq!(rt; second.answers.update, Err(refusal!(35, Book)));
    assert_eq!(rt; second.answers.open_case, refusal!(36, Book));
    let standings = [
        Standing::Barred,
        Standing::Barred,
        Standing::Active,
        Standing::Active,
    ];
    stands(&rt, &book, &standings);
    Ok(())
}

#[test]
fn a_case_bars_until_the_member_leaves(rt: HostRuntime) -> Result<(), Fail> {
    let mut book = four(&rt)?;
    let _tried = try_case(&mut book, 10, 12)?;
    assert_eq!(rt; told(book.update(10, &[], &[])), Err(refusal!(35, Book)));
    assert_eq!(rt; told(book.regulate(10)), Err(refusal!(35, Book)));
    assert_eq!(rt; told(book.join(10)), Err(refusal!(32, Book)));
    assert_eq!(rt; told(book.leave(10)), Ok(MINIMUM));
    assert_eq!(rt; told(book.join(10)), Ok(MINIMUM));
    stands(&rt, &book, &[Standing::Active; 4]);
    assert_eq!(rt; told(book.update(10, &[], &[])), Ok(MINIMUM));
    Ok(())
}

#[test]
fn nothing_is_paid_out_during_a_case(rt: HostRuntime) -> Result<(), Fail> {
    let accounts = [(0, 0), (10, 2_000_000), (11, 6_000_000)];
    let mut book = over_table(rt.alloc(), &accounts)?;
    assert_eq!(rt; told(book.join(10)), Ok(MINIMUM));
    assert_eq!(rt; told(book.join(11)), Ok(MINIMUM));
    let required = told(book.update(11, &[SHARE], &[BOUGHT, SOLD]));
    assert_eq!(rt; required, Ok(5_950_000));
    assert_eq!(rt; told(book.regulate(11)), Ok((3_950_000, 0)));
    let tried = try_case(&mut book, 10, 11)?;
    assert_eq!(rt; tried.answers.update, Ok(MINIMUM));
    assert_eq!(rt; tried.answers.regulate, Err(refusal!(36, Book)));
    assert_eq!(rt; tried.answers.leave, Err(refusal!(36, Book)));
    shows(
        &rt,
        &book,
        &[(10, MINIMUM, 0, MINIMUM), (11, 5_950_000, 0, MINIMUM)],
    );
    assert_eq!(rt; told(book.regulate(11)), Ok((0, 3_950_000)));
    holds(&rt, &mut book, &[(0, 4_000_000), (10, 0), (11, 4_000_000)]);
    Ok(())
}

#[test]
fn a_case_closes_in_its_own_book(rt: HostRuntime) -> Result<(), Fail> {
    let mut book = four(&rt)?;
    let mut other = four(&rt)?;
    let closed = close_elsewhere(&mut book, &mut other, 10);
    assert_eq!(rt; closed, Ok((Some(refusal!(37, Book)), 1)));
    let standings = [
        Standing::Barred,
        Standing::Active,
        Standing::Active,
        Standing::Active,
    ];
    stands(&rt, &book, &standings);
    stands(&rt, &other, &[Standing::Active; 4]);
    Ok(())
}
