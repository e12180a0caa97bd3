// Days over houses that are not ready, and a long one.
use crate::calls::Call::*;
use crate::calls::Seen::*;
use crate::calls::{Step, refusal, row};
use crate::cases::end;
use crate::lists::Lists;
use crate::making::{list, over_table, table};
use crate::playing::{over, plays};
use book::Book;
use book::Standing::*;
use division::Refusal;
use houses::House;
use houses_tests::Shut;
use std::process::Abort;
use std::test::Fail;

const FILLED_UP: &[Step] = &[
    (Join(10), Ok(Amount(2_000_000))),
    (Join(11), Ok(Amount(2_000_000))),
    (OpenCase(10), Ok(Number(1))),
    (Use(2_000_000), Ok(Groups(2_000_000, 0, 0, 0))),
    (Join(9), Err(refusal!(11, Book))),
    (Join(12), Err(refusal!(51, House))),
    (Join(13), Err(refusal!(51, House))),
    (Income(0), Err(refusal!(12, Book))),
    (Income(1), Err(refusal!(51, House))),
    (Use(2_000_001), Err(refusal!(38, Book))),
    (Use(1), Err(refusal!(51, House))),
    (Recover(2_000_001), Err(refusal!(41, Book))),
    (Recover(1), Err(refusal!(51, House))),
    (Transfer(11, 0, 1), Err(refusal!(21, Book))),
    (Transfer(11, 11, 0), Err(refusal!(12, House))),
    (Transfer(11, 11, 1), Err(refusal!(22, House))),
    (Transfer(13, 14, 1), Err(refusal!(51, House))),
    (Regulate(11), Ok(Paid(0, 0))),
    (Update(11, Lists::RISING), Ok(Amount(5_950_000))),
    (Regulate(11), Err(refusal!(51, House))),
    (Leave(11), Err(refusal!(36, Book))),
    (Close, Ok(Number(1))),
    (Leave(11), Err(refusal!(51, House))),
    (Leave(10), Ok(Amount(0))),
    (OpenCase(11), Ok(Number(2))),
    (Close, Ok(Number(2))),
    (Rows, Ok(Count(1))),
    (Row(0), row!(11, Barred, 2_000_000, 0, 5_950_000, 0)),
    (Balance(0), Ok(Amount(2_000_000))),
    (Balance(1), Ok(Amount(2_000_000))),
    (Balance(11), Ok(Amount(0))),
    (Balance(13), Err(refusal!(52, House))),
];

#[test]
fn a_list_fills_up(rt: HostRuntime) -> Result<(), Fail> {
    let accounts = [(0, 0), (1, 0), (10, 2_000_000), (11, 2_000_000), (12, 0)];
    over(&rt, list(rt.alloc(), &accounts, 8)?, FILLED_UP)
}

const NEVER_READY: &[Step] = &[
    (Join(9), Err(refusal!(11, Book))),
    (Join(10), Err(refusal!(51, House))),
    (Join(11), Err(refusal!(51, House))),
    (Transfer(10, 0, 1), Err(refusal!(21, Book))),
    (Transfer(10, 10, 1), Err(refusal!(22, House))),
    (Transfer(10, 1, 1), Err(refusal!(51, House))),
    (Income(1), Err(refusal!(40, Book))),
    (Update(10, Lists::IDLE), Err(refusal!(31, Book))),
    (Regulate(10), Err(refusal!(31, Book))),
    (OpenCase(10), Err(refusal!(31, Book))),
    (Leave(10), Err(refusal!(31, Book))),
    (Rows, Ok(Count(0))),
    (Balance(10), Ok(Amount(2_000_000))),
    (Balance(11), Err(refusal!(52, House))),
];

#[test]
fn a_house_may_never_be_ready(rt: HostRuntime) -> Result<(), Fail> {
    let accounts = [(0, 0), (1, 0), (10, 2_000_000)];
    over(&rt, Shut(table(rt.alloc(), &accounts)?), NEVER_READY)?;
    over(&rt, list(rt.alloc(), &accounts, 3)?, NEVER_READY)
}

fn open_and_close<C: House>(book: &mut Book<C>, code: u64) -> Result<u16, Refusal> {
    let case = book.open_case(code)?;
    Ok(end(case, book))
}

const ALL_NUMBERS: &[Step] = &[
    (OpenCase(10), Err(refusal!(35, Book))),
    (Leave(10), Ok(Amount(2_000_000))),
    (Join(10), Ok(Amount(2_000_000))),
    (OpenCase(9), Err(refusal!(11, Book))),
    (OpenCase(11), Err(refusal!(31, Book))),
    (OpenCase(10), Err(refusal!(42, Book))),
];

fn use_up<C: House>(rt: &impl Abort, book: &mut Book<C>) {
    for number in 1..=65_535 {
        let _ = book.leave(10);
        let _ = book.join(10);
        assert_eq!(rt; open_and_close(book, 10), Ok(number));
    }
    plays(rt, book, ALL_NUMBERS);
}

#[test]
fn the_numbers_of_cases_run_out(rt: HostRuntime) -> Result<(), Fail> {
    let mut book = over_table(rt.alloc(), &[(0, 0), (10, 2_000_000)])?;
    use_up(&rt, &mut book);
    Ok(())
}
