// How the lines of the output are written.
ghost use Rattle.std.specs.Prelude.{◌≡◌, Some, IfSome};
ghost use Rattle.sheet.specs.Days.{printed, ending, letter_of};
ghost use Rattle.sheet.specs.Letters.{letter};
ghost use Rattle.sheet.specs.Desks.{Written};

use crate::entries::{End, Entry, Output, Subject};
use crate::lines::Request;
use book::Answer;
use std::fmt;
use std::fmt::Write;

impl Request {
    fn letter(self) -> char
        ensures { result ≡ letter_of self }
    {
        match self {
            Request::Join(_) => 'J',
            Request::Update(_) => 'U',
            Request::Regulate(_) => 'R',
            Request::OpenCase(_) => 'D',
            Request::Leave(_) => 'L',
            Request::Income(_) => 'I',
            Request::Use(_) => 'W',
            Request::Recover(_) => 'B',
            Request::Close => 'C',
            Request::Transfer { .. } => 'X',
        }
    }
}

impl Subject {
    fn letter(self) -> char
        ensures { result ≡ letter self }
    {
        match self {
            Subject::Sheet => '?',
            Subject::Opening => 'O',
            Subject::Call(request) => request.letter(),
        }
    }
}

impl fmt::Display for Entry {
    ghost output = { λ e. Some (printed e.line (letter e.subject) e.outcome) };

    fn fmt<W: fmt::Write>(&self, f: &mut fmt::Formatter<W>) -> fmt::Result {
        let line = self.line;
        let letter = self.subject.letter();
        match self.outcome {
            Ok(Answer::Amount(n)) => write!(f, "{line} {letter} {n}\n"),
            Ok(Answer::Paid(paid_in, paid_out)) => {
                write!(f, "{line} {letter} {paid_in} {paid_out}\n")
            }
            Ok(Answer::Groups(base, reserve, bases, reserves)) => {
                write!(f, "{line} {letter} {base} {reserve} {bases} {reserves}\n")
            }
            Ok(Answer::Number(n)) => write!(f, "{line} {letter} {n}\n"),
            Err(refusal) => {
                let number = refusal.number;
                let layer = refusal.layer;
                write!(f, "{line} {letter} N {number} {layer}\n")
            }
        }
    }
}

impl fmt::Display for End {
    ghost output = { λ e. Some (ending e.shares e.fund e.rows) };

    fn fmt<W: fmt::Write>(&self, f: &mut fmt::Formatter<W>) -> fmt::Result {
        let shares = self.shares;
        let fund = self.fund;
        let rows = self.rows;
        write!(f, "end {shares} {fund} {rows}\n")
    }
}

impl Output {
    // One line more; nothing where memory ran out, now or before.
    pub(crate) fn say<T: fmt::Display>(&mut self, line: &T)
        ensures { IfSome (T.output line.now) (λ text. Written self.old text self.new) }
    {
        if let Ok(text) = &mut self.text {
            if let Err(error) = write!(text, "{line}") {
                self.text = Err(error);
            }
        }
    }
}
