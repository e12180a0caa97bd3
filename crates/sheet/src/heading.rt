// The head of a sheet: the lines of accounts directly below its first line.
ghost use Rattle.std.specs.Prelude.{◌≡◌, []};
ghost use Rattle.sheet.specs.Lines.{items, said};
ghost use Rattle.sheet.specs.Days.{head, run};
ghost use Rattle.sheet.specs.Desks.{in_head, Headed};

use crate::faults::{Fault, Stop};
use crate::lines::{BadLine, Line};
use crate::lists::{Limited, Reserved};
use crate::numbering::Numbered;
use crate::reader::Lines;
use houses::{ACCOUNTS, Opening};

// The accounts of a sheet, and the lines below them.
#[derive(Drop)]
pub(crate) struct Head<'a> {
    pub(crate) accounts: Limited<Opening, ACCOUNTS>,
    pub(crate) lines: Numbered<'a>,
}

// The account in the line, nothing where the head ends, or the fault of an account that is not well formed.
fn in_head(line: Result<Line<'_>, BadLine>) -> Result<Option<Opening>, Fault>
    ensures { result ≡ in_head (said line.entry) }
{
    match line {
        Ok(Line::Account(opening)) => Ok(Some(opening)),
        Err(BadLine::Account) => Err(Fault::BadLine),
        _ => Ok(None),
    }
}

// Reads the accounts into the list.
fn read_head<'a>(
    mut lines: Numbered<'a>,
    list: Reserved<Opening, ACCOUNTS>,
) -> Result<Head<'a>, Stop>
    ensures { Headed (head (items lines.entry.lines.rest.now) lines.entry.number []) result }
{
    let mut accounts = Limited::new(list);
    let mut behind = lines;
    while let Some((n, line)) = behind.next_line() {
        let stop = |fault| Stop { line: n, fault };
        let Some(opening) = in_head(line).map_err(stop)? else {
            break;
        };
        accounts.push(opening).map_err(stop)?;
        lines = behind;
    }
    Ok(Head { accounts, lines })
}

// The most bytes of a sheet.
pub const BYTES: usize = 65_536;

// Looks at the size and the first line, and reads the head below it.
pub(crate) fn read_sheet<'a>(
    sheet: &'a [u8],
    list: Reserved<Opening, ACCOUNTS>,
) -> Result<Head<'a>, Stop>
    ensures { Headed (run sheet.now) result }
{
    if sheet.len() > BYTES {
        return Err(Stop {
            line: 1,
            fault: Fault::TooMany,
        });
    }
    let rest = sheet.strip_prefix(b"AFG 1\n").ok_or(Stop {
        line: 1,
        fault: Fault::NoMark,
    })?;
    read_head(Numbered::new(2, Lines::new(rest)), list)
}
