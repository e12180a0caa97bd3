// The lines of a sheet, read one after the other.
ghost use Rattle.std.specs.Prelude.{◌≡◌, length, Err};
ghost use Rattle.std.specs.Option.{option_map};
ghost use Rattle.sheet.specs.Lines.{account, security, trade, transfer, told, by_letter, malformed, read, said, Stepped};
ghost use Rattle.std.specs.Iterator.{at_most};

use crate::fields::{Fields, isin, length_before, number, side};
use crate::lines::{BadLine, Line, Request};
use houses::Opening;

fn account(mut fields: Fields<'_>) -> Option<Line<'_>>
    ensures { option_map told result ≡ account fields.entry.rest.now }
{
    let account = fields.next(number)?;
    let balance = fields.next(number)?;
    fields.end()?;
    Some(Line::Account(Opening { account, balance }))
}

fn security(mut fields: Fields<'_>) -> Option<Line<'_>>
    ensures { option_map told result ≡ security fields.entry.rest.now }
{
    let isin = fields.next(isin)?;
    let price = fields.next(number)?;
    let risk = fields.next(number)?;
    let rate = fields.next(number)?;
    fields.end()?;
    Some(Line::Security {
        isin,
        price,
        risk,
        rate,
    })
}

fn trade(mut fields: Fields<'_>) -> Option<Line<'_>>
    ensures { option_map told result ≡ trade fields.entry.rest.now }
{
    let code = fields.next(number)?;
    let isin = fields.next(isin)?;
    let side = fields.next(side)?;
    let quantity = fields.next(number)?;
    let price = fields.next(number)?;
    fields.end()?;
    Some(Line::Trade {
        code,
        isin,
        side,
        quantity,
        price,
    })
}

fn transfer(mut fields: Fields<'_>) -> Option<Line<'_>>
    ensures { option_map told result ≡ transfer fields.entry.rest.now }
{
    let from = fields.next(number)?;
    let to = fields.next(number)?;
    let amount = fields.next(number)?;
    fields.end()?;
    Some(Line::Call(Request::Transfer { from, to, amount }))
}

fn by_letter(letter: u8, fields: Fields<'_>) -> Option<Line<'_>>
    ensures { option_map told result ≡ by_letter letter fields.entry.rest.now }
{
    let request = match char::from(letter) {
        'H' => return account(fields),
        'P' => return security(fields),
        'T' => return trade(fields),
        'J' => Request::Join(fields.only()?),
        'U' => Request::Update(fields.only()?),
        'R' => Request::Regulate(fields.only()?),
        'D' => Request::OpenCase(fields.only()?),
        'L' => Request::Leave(fields.only()?),
        'I' => Request::Income(fields.only()?),
        'W' => Request::Use(fields.only()?),
        'B' => Request::Recover(fields.only()?),
        'C' => {
            fields.end()?;
            Request::Close
        }
        'X' => return transfer(fields),
        _ => return None,
    };
    Some(Line::Call(request))
}

fn malformed(text: &[u8]) -> BadLine
    ensures { said (Err result) ≡ malformed text.now }
{
    if text.starts_with(b"H") {
        BadLine::Account
    } else {
        BadLine::Other
    }
}

// The line that `text` holds.
fn parse(text: &[u8]) -> Result<Line<'_>, BadLine>
    ensures { said result ≡ read text.now }
{
    let (letter, rest) = text.split_first().ok_or(BadLine::Other)?;
    by_letter(*letter, Fields::new(rest)).ok_or_else(|| malformed(text))
}

// The lines that are left of a sheet.
#[derive(Clone, Copy)]
pub struct Lines<'a> {
    rest: &'a [u8],
}

impl<'a> Lines<'a> {
    pub fn new(bytes: &'a [u8]) -> Lines<'a>
        ensures { result.rest.now ≡ bytes.now }
    {
        Lines { rest: bytes }
    }

    // The next line; one that no byte 10 ends is not well formed.
    pub fn next_line(&mut self) -> Option<Result<Line<'a>, BadLine>>
        ensures { Stepped self.old.rest.now result self.new.rest.now }
    {
        if self.rest.is_empty() {
            return None;
        }
        let (text, rest) = self.rest.split_at(length_before(self.rest, b'\n'));
        let Some((_, after)) = rest.split_first() else {
            self.rest = rest;
            return Some(Err(malformed(text)));
        };
        self.rest = after;
        Some(parse(text))
    }
}

impl<'a> Iterator for Lines<'a> {
    type Item = Result<Line<'a>, BadLine>;

    ghost next_gives = { λ s r t. Stepped s.rest.now r t.rest.now };

    ghost remaining = { λ s. at_most (length s.rest.now) };

    fn next(&mut self) -> Option<Result<Line<'a>, BadLine>> {
        self.next_line()
    }
}
