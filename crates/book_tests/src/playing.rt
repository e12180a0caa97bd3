// Days that are played from tables.
use crate::calls::{Step, Wrong};
use crate::cases::told;
use crate::desk::Desk;
use crate::making::{Account, ROOM, list, opened, table};
use book::Book;
use contribution::MINIMUM;
use division::Refusal;
use houses::House;
use std::ops::Range;
use std::process::Abort;
use std::test::Fail;

// The first step with an answer that is not due. A case that is held at the end is closed.
fn play<C: House>(book: &mut Book<C>, steps: &[Step]) -> Option<Wrong> {
    let mut desk = Desk::new(book);
    let wrong = steps
        .iter()
        .enumerate()
        .find_map(|(i, step)| Some((i, desk.wrong(step)?)));
    desk.close();
    wrong
}

pub(crate) fn plays<C: House>(rt: &impl Abort, book: &mut Book<C>, steps: &[Step]) {
    assert_eq!(rt; play(book, steps), None);
}

// The first of these codes whose member does not join with the minimum, and what it was answered.
pub(crate) fn kept_out<C: House>(
    book: &mut Book<C>,
    codes: Range<u64>,
) -> Option<(u64, Result<u64, Refusal>)> {
    codes
        .map(|code| (code, told(book.join(code))))
        .find(|(_, answer)| *answer != Ok(MINIMUM))
}

// A day over the house.
pub(crate) fn over<C: House + Drop>(
    rt: &(impl Abort + AllocGlobal),
    house: C,
    steps: &[Step],
) -> Result<(), Fail> {
    let mut book = opened(rt.alloc(), house)?;
    plays(rt, &mut book, steps);
    Ok(())
}

// A day over a table house, and the same over a list house.
pub(crate) fn on_both(
    rt: &(impl Abort + AllocGlobal),
    accounts: &[Account],
    steps: &[Step],
) -> Result<(), Fail> {
    over(rt, table(rt.alloc(), accounts)?, steps)?;
    over(rt, list(rt.alloc(), accounts, ROOM)?, steps)
}
