// The lines of the output.
use crate::lines::Request;
use book::Answer;
use division::Refusal;
use std::alloc::AllocError;

// What a line of the output is about.
#[derive(Clone, Copy)]
pub(crate) enum Subject {
    // the sheet itself, where the run stops
    Sheet,
    // the house and the book that could not be opened
    Opening,
    Call(Request),
}

// What came of a line of the sheet.
#[derive(Clone, Copy)]
pub(crate) struct Entry {
    pub(crate) line: usize,
    pub(crate) subject: Subject,
    pub(crate) outcome: Result<Answer, Refusal>,
}

// The last line: all shares, the fund's balance and the number of rows.
#[derive(Clone, Copy)]
pub(crate) struct End {
    pub(crate) shares: u64,
    pub(crate) fund: u64,
    pub(crate) rows: usize,
}

// What was printed so far, unless memory ran out.
#[derive(Drop)]
pub(crate) struct Output {
    pub(crate) text: Result<String, AllocError>,
}
