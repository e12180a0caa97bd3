// What a line of a day sheet can be.
use contribution::Side;
use houses::Opening;

// A line that asks for a call on the book.
#[derive(Clone, Copy)]
pub enum Request {
    Join(u64),
    Update(u64),
    Regulate(u64),
    OpenCase(u64),
    Leave(u64),
    Income(u64),
    Use(u64),
    Recover(u64),
    Close,
    Transfer { from: u64, to: u64, amount: u64 },
}

// A well_formed line; the ISIN of a security or a trade is a part of the sheet.
#[derive(Clone, Copy)]
pub enum Line<'a> {
    Account(Opening),
    Security {
        isin: &'a [u8; 12],
        price: u64,
        risk: u64,
        rate: u64,
    },
    Trade {
        code: u64,
        isin: &'a [u8; 12],
        side: Side,
        quantity: u64,
        price: u64,
    },
    Call(Request),
}

// A line that is not well formed, told by whether it begins as an account's does.
#[derive(Clone, Copy)]
pub enum BadLine {
    Account,
    Other,
}
