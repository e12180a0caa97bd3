// The calls that a sheet asks for.
ghost use Rattle.std.specs.Prelude.{◌≡◌, true, Some, Ok};
ghost use Rattle.std.specs.Option.{option_map};
ghost use Rattle.book.specs.Calls.{said, next};
ghost use Rattle.book.specs.Calls as call;
ghost use Rattle.sheet.specs.declared.lines.Request.TheVariants.{Update, OpenCase, Use, Recover, Close};
ghost use Rattle.sheet.specs.Days.{answered, asked};
ghost use Rattle.sheet.specs.Desks.{ledger, day_of};

use crate::desks::Desk;
use crate::lines::Request;
use crate::trades::collect;
use book::{Answer, Book, Case, Fault};
use division::Refusal;
use houses::TableHouse;

// Ends the case, which is the open one.
pub(crate) fn end(case: Case, book: &mut Book<TableHouse>) -> Answer
    requires { Some case.number ≡ option_map (λ c. c.number) book.old.case }
    ensures answer { Ok result ≡ said (call.Close case.number) true (ledger book.old) }
    ensures book { ledger book.new ≡ next (call.Close case.number) true (ledger book.old) }
{
    match case.close(book) {
        Ok(number) => Answer::Number(number),
        Err(_) => unreachable(),
    }
}

impl Desk {
    // A case is opened only while none is held.
    fn open(&mut self, code: u64) -> Result<Answer, Refusal>
        ensures answer { result ≡ answered (OpenCase code) (day_of self.old) }
        ensures day { day_of self.new ≡ asked (OpenCase code) (day_of self.old) }
    {
        let case = self.book.open_case(code)?;
        let number = case.number();
        match self.held.replace(case) {
            None => Ok(Answer::Number(number)),
            Some(_) => unreachable(),
        }
    }

    fn use_fund(&mut self, amount: u64) -> Result<Answer, Refusal>
        ensures answer { result ≡ answered (Use amount) (day_of self.old) }
        ensures day { day_of self.new ≡ asked (Use amount) (day_of self.old) }
    {
        let case = self.held.as_ref().ok_or(Fault::OtherCase)?;
        let (base, reserve, bases, reserves) = self.book.use_fund(case, amount)?;
        Ok(Answer::Groups(base, reserve, bases, reserves))
    }

    fn recover(&mut self, amount: u64) -> Result<Answer, Refusal>
        ensures answer { result ≡ answered (Recover amount) (day_of self.old) }
        ensures day { day_of self.new ≡ asked (Recover amount) (day_of self.old) }
    {
        let case = self.held.as_ref().ok_or(Fault::OtherCase)?;
        Ok(Answer::Amount(self.book.recover(case, amount)?))
    }

    fn close(&mut self) -> Result<Answer, Refusal>
        ensures answer { result ≡ answered Close (day_of self.old) }
        ensures day { day_of self.new ≡ asked Close (day_of self.old) }
    {
        let case = self.held.take().ok_or(Fault::OtherCase)?;
        Ok(end(case, &mut self.book))
    }

    // The member's update, by all securities so far and its own trades.
    fn update(&mut self, code: u64) -> Result<Answer, Refusal>
        ensures answer { result ≡ answered (Update code) (day_of self.old) }
        ensures day { day_of self.new ≡ asked (Update code) (day_of self.old) }
    {
        collect(&self.trades, code, &mut self.own);
        let (securities, own) = (&self.securities, &self.own);
        Ok(Answer::Amount(
            self.book
                .update(code, securities.list.as_slice(), own.list.as_slice())?,
        ))
    }

    // Makes the call that a line asks for.
    pub(crate) fn ask(&mut self, request: Request) -> Result<Answer, Refusal>
        ensures answer { result ≡ answered request (day_of self.old) }
        ensures day { day_of self.new ≡ asked request (day_of self.old) }
    {
        match request {
            Request::Join(code) => Ok(Answer::Amount(self.book.join(code)?)),
            Request::Update(code) => self.update(code),
            Request::Regulate(code) => {
                let (paid_in, paid_out) = self.book.regulate(code)?;
                Ok(Answer::Paid(paid_in, paid_out))
            }
            Request::OpenCase(code) => self.open(code),
            Request::Leave(code) => Ok(Answer::Amount(self.book.leave(code)?)),
            Request::Income(amount) => Ok(Answer::Amount(self.book.income(amount)?)),
            Request::Use(amount) => self.use_fund(amount),
            Request::Recover(amount) => self.recover(amount),
            Request::Close => self.close(),
            Request::Transfer { from, to, amount } => {
                Ok(Answer::Amount(self.book.other_transfer(from, to, amount)?))
            }
        }
    }
}
