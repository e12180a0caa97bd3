// A case in the hands of another book.
ghost use Rattle.std.specs.Prelude.{◌≡◌};
ghost use Rattle.book_tests.specs.Holding.{open_number};

use crate::asking::{look, shown, wrong};
use crate::calls::{Step, Wrong};
use crate::cases::{end, end_elsewhere};
use book::{Book, Case};
use division::Refusal;
use houses::House;

// The first step with an answer that is not due, the case being shown for each. A `for`, since no clause of `find_map` says what its closure leaves of the book.
fn show<C: House>(book: &mut Book<C>, case: &Case, steps: &[Step]) -> Option<Wrong>
    ensures { open_number book.new.case ≡ open_number book.old.case }
{
    for (i, &(call, due)) in steps.iter().enumerate() {
        let before = look(book);
        let answer = shown(book, case, call);
        if let Some(answer) = wrong(book, before, answer, due) {
            return Some((i, answer));
        }
    }
    None
}

// A case of one book is shown to another for the steps and for its close: what that other refuses of the close, and the case's number.
pub(crate) fn abroad<C: House>(
    book: &mut Book<C>,
    other: &mut Book<C>,
    code: u64,
    steps: &[Step],
) -> Result<(Option<Wrong>, (Option<Refusal>, u16)), Refusal> {
    let case = book.open_case(code)?;
    let wrong = show(other, &case, steps);
    Ok((wrong, end_elsewhere(case, book, other)))
}

// A case of one book is shown to another for the steps, and closed where it was opened.
fn visit<C: House>(
    book: &mut Book<C>,
    other: &mut Book<C>,
    code: u64,
    steps: &[Step],
) -> Result<Option<Wrong>, Refusal>
    ensures { open_number other.new.case ≡ open_number other.old.case }
{
    let case = book.open_case(code)?;
    let wrong = show(other, &case, steps);
    end(case, book);
    Ok(wrong)
}

// The same while the other has a case of its own, whose number its close answers.
pub(crate) fn beside<C: House>(
    book: &mut Book<C>,
    other: &mut Book<C>,
    code: u64,
    steps: &[Step],
) -> Result<(Option<Wrong>, u16), Refusal> {
    let own = other.open_case(code)?;
    let wrong = visit(book, other, code, steps);
    let closed = end(own, other);
    Ok((wrong?, closed))
}
