// A book whose calls are answered, and the case that it hands out is held.
ghost use Rattle.book_tests.specs.Holding.{Holding};

use crate::asking::{look, plain, shown, wrong};
use crate::calls::Call::{Close, OpenCase};
use crate::calls::Seen::{NoCase, Number};
use crate::calls::{Answer, Call, Step};
use crate::cases::{end, second};
use book::{Book, Case};
use houses::House;

// A book, and the case of it that is held. It is not let go: it ends in its close.
pub(crate) struct Desk<'a, C: House> {
    book: &'a mut Book<C>,
    held: Option<Case>,
    ghost holding: { Holding held book.now.case },
}

impl<'a, C: House> Desk<'a, C> {
    pub(crate) fn new(book: &'a mut Book<C>) -> Desk<'a, C> {
        Desk { book, held: None }
    }

    fn open(&mut self, code: u64) -> Answer {
        if self.held.is_some() {
            return Err(second(self.book, code));
        }
        let case = self.book.open_case(code)?;
        let number = case.number();
        match self.held.replace(case) {
            None => Ok(Number(number)),
            Some(_) => unreachable(),
        }
    }

    fn end(&mut self) -> Answer {
        match self.held.take() {
            Some(case) => Ok(Number(end(case, self.book))),
            None => Ok(NoCase),
        }
    }

    fn ask(&mut self, call: Call) -> Answer {
        match (call, &self.held) {
            (OpenCase(code), _) => self.open(code),
            (Close, _) => self.end(),
            (_, Some(case)) => shown(self.book, case, call),
            (_, None) => plain(self.book, call),
        }
    }

    // What a step answers, where that is not due.
    pub(crate) fn wrong(&mut self, step: &Step) -> Option<Answer> {
        let (call, due) = *step;
        let before = look(self.book);
        let answer = self.ask(call);
        wrong(self.book, before, answer, due)
    }

    // Ends the case that is held, if one is, and hands the book back.
    pub(crate) fn close(self) -> &'a mut Book<C> {
        let Desk { book, held } = self;
        if let Some(case) = held {
            end(case, book);
        }
        book
    }
}
