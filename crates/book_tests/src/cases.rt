// What is asked of a book while a case is open; the case is closed in the end.
ghost use Rattle.std.specs.Prelude.{◌≡◌, ◌+◌, true, is_some, IfOk};
ghost use Rattle.division.specs.Refusals.{answer};
ghost use Rattle.book.specs.Refusals.{refusal};
ghost use Rattle.book.specs.States.{is_open};

use book::{Book, Case, Fault, Standing};
use division::Refusal;
use houses::House;

// An answer, its fault as it is told.
pub(crate) fn told<T>(given: Result<T, Fault>) -> Result<T, Refusal>
    ensures { result ≡ answer refusal given }
{
    Ok(given?)
}

// Ends the open case.
pub(crate) fn end<C: House>(case: Case, book: &mut Book<C>) -> u16
    requires { is_open book.old.case case.number ≡ true }
    ensures { result ≡ case.number }
{
    match case.close(book) {
        Ok(number) => number,
        Err(_) => unreachable(),
    }
}

// The refusal of a second case.
pub(crate) fn second<C: House>(book: &mut Book<C>, code: u64) -> Refusal
    requires { is_some book.old.case ≡ true }
    ensures { book.new.case ≡ book.old.case }
{
    match book.open_case(code) {
        Ok(_) => unreachable(),
        Err(fault) => fault.refusal(),
    }
}

// What the book answers about a member while a case is open.
#[derive(Drop)]
pub(crate) struct Answers {
    pub(crate) update: Result<u64, Refusal>,
    pub(crate) regulate: Result<(u64, u64), Refusal>,
    pub(crate) leave: Result<u64, Refusal>,
    pub(crate) open_case: Refusal,
}

fn ask<C: House>(book: &mut Book<C>, code: u64) -> Answers
    requires { is_some book.old.case ≡ true }
    ensures { book.new.case ≡ book.old.case }
{
    Answers {
        update: told(book.update(code, &[], &[])),
        regulate: told(book.regulate(code)),
        leave: told(book.leave(code)),
        open_case: second(book, code),
    }
}

fn standing<C: House>(book: &Book<C>, code: u64) -> Option<Standing> {
    let row = book.rows().iter().find(|row| u64::from(row.code) == code)?;
    Some(row.standing)
}

// A case from its opening to its close, and what was answered between about some member.
#[derive(Drop)]
pub(crate) struct Tried {
    pub(crate) number: u16,
    pub(crate) standing: Option<Standing>,
    pub(crate) answers: Answers,
    pub(crate) closed: u16,
}

pub(crate) fn try_case<C: House>(
    book: &mut Book<C>,
    code: u64,
    asked: u64,
) -> Result<Tried, Refusal>
    ensures next { IfOk result (λ t. t.number ≡ book.old.opened + 1) }
    ensures closed { IfOk result (λ t. t.closed ≡ t.number) }
{
    let case = book.open_case(code)?;
    let number = case.number();
    let standing = standing(book, code);
    let answers = ask(book, asked);
    let closed = end(case, book);
    Ok(Tried {
        number,
        standing,
        answers,
        closed,
    })
}

// Ends the open case, which another book is asked to end first: that book's refusal, if it refuses, and the case's number.
pub(crate) fn end_elsewhere<C: House>(
    case: Case,
    book: &mut Book<C>,
    other: &mut Book<C>,
) -> (Option<Refusal>, u16)
    requires { is_open book.old.case case.number ≡ true }
    ensures { result.1 ≡ case.number }
{
    match case.close(other) {
        Ok(number) => (None, number),
        Err((fault, back)) => (Some(fault.refusal()), end(back, book)),
    }
}

// A case that is first closed in another book.
pub(crate) fn close_elsewhere<C: House>(
    book: &mut Book<C>,
    other: &mut Book<C>,
    code: u64,
) -> Result<(Option<Refusal>, u16), Refusal>
    ensures { IfOk result (λ r. r.1 ≡ book.old.opened + 1) }
{
    let case = book.open_case(code)?;
    Ok(end_elsewhere(case, book, other))
}
