// The run of a sheet.
ghost use Rattle.std.specs.Prelude.{◌≡◌, ◌++◌, IfOk, string_bytes};
ghost use Rattle.sheet.specs.Lines.{items};
ghost use Rattle.sheet.specs.Days.{stopped, no_book, opening, body, run};
ghost use Rattle.sheet.specs.Desks.{day_of, Written};
ghost use Rattle.sheet.specs.Files.{Faithful};

use crate::desks::Desk;
use crate::entries::{End, Entry, Output, Subject};
use crate::faults::Stop;
use crate::heading::{Head, read_sheet};
use crate::lists::{Lists, Reserved};
use crate::numbering::Numbered;
use crate::opening::open;
use houses::{ACCOUNTS, Opening};
use std::alloc::{AllocError, Global};

// What is printed without a book.
const NO_BOOK: End = End {
    shares: 0,
    fund: 0,
    rows: 0,
};

impl Output {
    // The sheet itself is refused.
    fn stop(&mut self, stop: Stop)
        ensures { Written self.old (stopped stop.line stop.fault) self.new }
    {
        self.say(&Entry {
            line: stop.line,
            subject: Subject::Sheet,
            outcome: Err(stop.fault.refusal(stop.line)),
        });
    }

    // The sheet itself is refused before there is a book.
    fn refuse(&mut self, stop: Stop)
        ensures { Written self.old (stopped stop.line stop.fault ++ no_book) self.new }
    {
        self.stop(stop);
        self.say(&NO_BOOK);
    }
}

// The lines below the head.
fn run_body(mut desk: Desk, mut lines: Numbered<'_>, out: &mut Output)
    ensures { Written out.old (body (items lines.entry.lines.rest.now) lines.entry.number (day_of desk)) out.new }
{
    while let Some((line, said)) = lines.next_line() {
        if let Err(fault) = desk.take(line, said, out) {
            out.stop(Stop { line, fault });
            return desk.finish(lines.number, out);
        }
    }
    desk.finish(lines.number, out);
}

// From the opening on, which is asked for before the line behind the head is looked at.
fn run_day(head: Head<'_>, lists: Lists, out: &mut Output)
    ensures { Written out.old (opening head.entry.lines.number head.entry.accounts.list.items (items head.entry.lines.lines.rest.now)) out.new }
{
    match open(&head.accounts, lists) {
        Ok(desk) => run_body(desk, head.lines, out),
        Err(refusal) => {
            out.say(&Entry {
                line: head.lines.number,
                subject: Subject::Opening,
                outcome: Err(refusal),
            });
            out.say(&NO_BOOK);
        }
    }
}

// Prints what the sheet says.
fn run_sheet(sheet: &[u8], openings: Reserved<Opening, ACCOUNTS>, lists: Lists, out: &mut Output)
    ensures { Written out.old (run sheet.now) out.new }
{
    match read_sheet(sheet, openings) {
        Ok(head) => run_day(head, lists, out),
        Err(stop) => out.refuse(stop),
    }
}

// What running the sheet prints, unless memory runs out.
pub fn run(heap: Global, sheet: &[u8]) -> Result<String, AllocError>
    ensures printed { IfOk result (λ text. string_bytes text ≡ run sheet.now) }
    ensures faithful { IfOk result (λ text. Faithful sheet.now (string_bytes text)) }
{
    let openings = Reserved::new(heap)?;
    let lists = Lists::reserve(heap)?;
    let mut out = Output {
        text: Ok(String::new(heap)),
    };
    run_sheet(sheet, openings, lists, &mut out);
    out.text
}
