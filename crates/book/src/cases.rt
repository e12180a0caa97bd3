// The case: opened by the book, and ended by its close alone.
ghost use Rattle.std.specs.Prelude.{◌≡◌, ◌+◌, ◌<◌, [], ◌∷◌, IfOk, IfErr, OnOk};
ghost use Rattle.std.specs.Option.{unwrap_or};
ghost use Rattle.division.specs.Refusals.{answer, after, checked};
ghost use Rattle.book.specs.Refusals.{refusal};
ghost use Rattle.book.specs.Rows.{place, Stands};
ghost use Rattle.book.specs.States.{open_checks, case_opened, other_case, closed};
ghost use Rattle.book.specs.Books.{view};
ghost use Rattle.book.specs.Calls.{Close, Number, entered};
ghost use Rattle.book.specs.Calls as call;
ghost use Rattle.book.specs.Laws.{GoesOn};

use crate::books::Book;
use crate::faults::Fault;
use crate::rows::OpenCase;
use crate::standings::Event;
use houses::House;

// The most cases of a book.
const CASES: u16 = 65_535;

// The right to act in an open case. It is not let go: it ends in its close.
pub struct Case {
    pub(crate) number: u16,
}

impl<C: House> Book<C> {
    // The place of a member against whom a case can be opened.
    fn opens(&self, code: u64) -> Result<usize, Fault>
        ensures answer { answer refusal result ≡ checked (open_checks (view C.balances self.now) code) (unwrap_or (place self.now.table.rows.items code) 0) }
        ensures stands { IfOk result (Stands self.now.table.rows.items code) }
        ensures room { OnOk result (self.now.opened < 65535) }
    {
        let (i, row) = self.member(code)?;
        if self.case.is_some() {
            return Err(Fault::CaseOpen);
        }
        let mut standing = row.standing;
        standing.turn(Event::OpenCase)?;
        if self.opened >= CASES {
            return Err(Fault::NoNumber);
        }
        Ok(i)
    }

    // The member becomes defaulting, and the case gets the next number.
    pub fn open_case(&mut self, code: u64) -> Result<Case, Fault>
        ensures answer { answer refusal result ≡ checked (open_checks (view C.balances self.old) code) (record { number = self.old.opened + 1 }) }
        ensures state { view C.balances self.new ≡ after result (case_opened (view C.balances self.old) code) (view C.balances self.old) }
        ensures ready { C.ready self.new.house ≡ C.ready self.old.house }
        ensures history { GoesOn (call.OpenCase code) (entered (λ c. Number c.number) (answer refusal result)) (C.ready self.old.house) (view C.balances self.old) (C.ready self.new.house) (view C.balances self.new) }
    {
        let i = self.opens(code)?;
        let number = self.opened + 1;
        self.table.rows[i].standing.turn(Event::OpenCase).unwrap();
        self.case = Some(OpenCase {
            number,
            charged: 0,
            recovered: 0,
        });
        self.opened = number;
        Ok(Case { number })
    }
}

impl Case {
    pub fn number(&self) -> u16
        ensures { result ≡ self.now.number }
    {
        self.number
    }

    // Ends the case; a book in which it is not the open one hands it back.
    pub fn close<C: House>(self, book: &mut Book<C>) -> Result<u16, (Fault, Case)>
        ensures answer { answer (λ e. refusal e.0) result ≡ checked (other_case (view C.balances book.old) self.number ∷ []) self.number }
        ensures back { IfErr result (λ e. e.1.number ≡ self.number) }
        ensures state { view C.balances book.new ≡ after result (closed (view C.balances book.old)) (view C.balances book.old) }
        ensures ready { C.ready book.new.house ≡ C.ready book.old.house }
        ensures history { GoesOn (Close self.number) (entered Number (answer (λ e. refusal e.0) result)) (C.ready book.old.house) (view C.balances book.old) (C.ready book.new.house) (view C.balances book.new) }
    {
        let Case { number } = self;
        if book.open_with(number).is_none() {
            return Err((Fault::OtherCase, Case { number }));
        }
        book.table.close();
        book.case = None;
        Ok(number)
    }
}
