// The end of a day.
ghost use Rattle.std.specs.Prelude.{◌≡◌};
ghost use Rattle.houses.specs.Balances.{held};
ghost use Rattle.sheet.specs.Days.{ended, finish};
ghost use Rattle.sheet.specs.Desks.{ledger, day_of, Written};

use crate::asking::end;
use crate::desks::Desk;
use crate::entries::{End, Entry, Output, Subject};
use crate::lines::Request;
use book::{Book, FUND};
use houses::TableHouse;

// What the fund's account holds.
fn fund(book: &mut Book<TableHouse>) -> u64
    ensures balance { result ≡ held ((ledger book.old).balances 0) }
    ensures book { ledger book.new ≡ ledger book.old }
{
    book.balance(FUND).unwrap_or(0)
}

// Prints the last line.
fn say_end(book: &mut Book<TableHouse>, out: &mut Output)
    ensures { Written out.old (ended (ledger book.old)) out.new }
{
    let fund = fund(book);
    out.say(&End {
        shares: book.shares(),
        fund,
        rows: book.rows().len(),
    });
}

impl Desk {
    // Closes the case that is held, as line n, and ends the day.
    pub(crate) fn finish(self, n: usize, out: &mut Output)
        ensures { Written out.old (finish n (day_of self)) out.new }
    {
        let Desk {
            mut book,
            held,
            securities: _securities,
            trades: _trades,
            own: _own,
        } = self;
        if let Some(case) = held {
            out.say(&Entry {
                line: n,
                subject: Subject::Call(Request::Close),
                outcome: Ok(end(case, &mut book)),
            });
        }
        say_end(&mut book, out);
    }
}
