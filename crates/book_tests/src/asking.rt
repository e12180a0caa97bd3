// A book is asked, and what can be seen of it is looked at.
ghost use Rattle.std.specs.Prelude.{◌≡◌};
ghost use Rattle.book_tests.specs.Holding.{open_number};

use crate::calls::Call::*;
use crate::calls::Seen::{Amount, Count, Groups, Member, NoCase, NoRow, Paid};
use crate::calls::{Answer, Call};
use book::{Book, Case};
use houses::House;

// What is looked at.
fn see<C: House>(book: &mut Book<C>, call: Call) -> Answer
    ensures { book.new.case ≡ book.old.case }
{
    Ok(match call {
        Row(place) => match book.rows().get(place) {
            Some(row) => Member(*row),
            None => NoRow,
        },
        Rows => Count(book.rows().len()),
        Shares => Amount(book.shares()),
        Balance(account) => Amount(book.balance(account)?),
        _ => NoCase,
    })
}

// What needs no case.
pub(crate) fn plain<C: House>(book: &mut Book<C>, call: Call) -> Answer
    ensures { book.new.case ≡ book.old.case }
{
    Ok(match call {
        Join(code) => Amount(book.join(code)?),
        Update(code, lists) => Amount(book.update(code, lists.securities, lists.trades)?),
        Regulate(code) => {
            let (inward, out) = book.regulate(code)?;
            Paid(inward, out)
        }
        Income(sum) => Amount(book.income(sum)?),
        Leave(code) => Amount(book.leave(code)?),
        Transfer(from, to, sum) => Amount(book.other_transfer(from, to, sum)?),
        _ => return see(book, call),
    })
}

// What the case is only shown for. It stays open or not.
pub(crate) fn shown<C: House>(book: &mut Book<C>, case: &Case, call: Call) -> Answer
    ensures { open_number book.new.case ≡ open_number book.old.case }
{
    Ok(match call {
        Use(sum) => {
            let (base, reserve, bases, reserves) = book.use_fund(case, sum)?;
            Groups(base, reserve, bases, reserves)
        }
        Recover(sum) => Amount(book.recover(case, sum)?),
        _ => return plain(book, call),
    })
}

// What is looked at before and after a refusal.
const SIGHTS: [Call; 13] = [
    Rows,
    Row(0),
    Row(1),
    Row(2),
    Row(3),
    Row(4),
    Balance(0),
    Balance(1),
    Balance(10),
    Balance(11),
    Balance(12),
    Balance(13),
    Balance(14),
];

// What was seen of each.
pub(crate) type View = [Answer; 13];

// A `for`, since no clause of `map` says what its closure leaves of the book.
pub(crate) fn look<C: House>(book: &mut Book<C>) -> View
    ensures { book.new.case ≡ book.old.case }
{
    let mut seen = [Ok(NoRow); 13];
    for (seen, sight) in seen.iter_mut().zip(SIGHTS) {
        *seen = plain(book, sight);
    }
    seen
}

// The answer, if it is not the due one, or if it is a refusal after which anything that can be seen differs.
pub(crate) fn wrong<C: House>(
    book: &mut Book<C>,
    before: View,
    answer: Answer,
    due: Answer,
) -> Option<Answer>
    ensures { book.new.case ≡ book.old.case }
{
    let right = answer == due && (answer.is_ok() || look(book) == before);
    (!right).then_some(answer)
}
