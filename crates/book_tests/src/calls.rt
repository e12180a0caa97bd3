// What is asked of a book, and what it answers.
use crate::lists::Lists;
use book::Row;
use division::Refusal;

// The ten calls, where the case of a use, a recovery or a close is the one that is held, and what can be looked at.
#[derive(Clone, Copy)]
pub(crate) enum Call {
    Join(u64),
    Update(u64, Lists),
    Regulate(u64),
    Income(u64),
    OpenCase(u64),
    Use(u64),
    Recover(u64),
    Close,
    Leave(u64),
    Transfer(u64, u64, u64),
    // the row at a place
    Row(usize),
    Rows,
    Shares,
    Balance(u64),
}

// What a call answers where it is not refused.
#[derive(Clone, Copy, PartialEq, Eq, Debug)]
pub(crate) enum Seen {
    Amount(u64),
    // paid in and paid out
    Paid(u64, u64),
    // by each of the four groups
    Groups(u64, u64, u64, u64),
    // of a case
    Number(u16),
    // how many rows
    Count(usize),
    Member(Row),
    NoRow,
    // the call is for a case, and none is held
    NoCase,
}

pub(crate) type Answer = Result<Seen, Refusal>;

// A call, with what it is to answer.
pub(crate) type Step = (Call, Answer);

// The place of a step, and its answer.
pub(crate) type Wrong = (usize, Answer);

// A refusal by its number, its layer and, where it is not 0, its place. It is a macro since a table is a constant, which calls no function.
macro_rules! refusal {
    ($number:expr, $layer:ident) => {
        refusal!($number, $layer, 0)
    };
    ($number:expr, $layer:ident, $place:expr) => {
        division::Refusal {
            number: $number,
            layer: division::Layer::$layer,
            place: $place,
        }
    };
}

pub(crate) use refusal;

// The answer, with its `Ok`, that is the row of a member, by its fields in their order: one line of a table.
macro_rules! row {
    ($code:expr, $standing:expr, $base:expr, $reserve:expr, $required:expr, $charged:expr) => {
        Ok($crate::calls::Seen::Member(book::Row {
            code: $code,
            standing: $standing,
            base: $base,
            reserve: $reserve,
            required: $required,
            charged: $charged,
        }))
    };
}

pub(crate) use row;
