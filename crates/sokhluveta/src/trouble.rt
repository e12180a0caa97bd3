// Why a task has no answer.
use division::Refusal;
use std::alloc::{AllocError, AllocFailed};
use std::error::Error;
use std::fmt;

#[derive(Debug, Drop)]
pub(crate) enum Trouble {
    NoAmount,
    // the word at this place, counted from 1
    NotANumber(usize),
    // the line at this place, counted from 1
    BadLine(usize),
    NotDivided(division::Fault),
    NotAssessed(contribution::Fault),
    Memory,
}

impl From<AllocError> for Trouble {
    fn from(_: AllocError) -> Self {
        Trouble::Memory
    }
}

impl<T: Drop> From<AllocFailed<T>> for Trouble {
    fn from(_: AllocFailed<T>) -> Self {
        Trouble::Memory
    }
}

impl From<division::Fault> for Trouble {
    fn from(fault: division::Fault) -> Self {
        Trouble::NotDivided(fault)
    }
}

impl From<contribution::Fault> for Trouble {
    fn from(fault: contribution::Fault) -> Self {
        Trouble::NotAssessed(fault)
    }
}

fn show<W: fmt::Write, F: fmt::Display>(
    f: &mut fmt::Formatter<W>,
    refusal: Refusal,
    fault: &F,
) -> fmt::Result {
    let number = refusal.number;
    let layer = refusal.layer;
    let place = refusal.place;
    write!(f, "refused {number} {layer} at {place}: {fault}")
}

impl fmt::Display for Trouble {
    fn fmt<W: fmt::Write>(&self, f: &mut fmt::Formatter<W>) -> fmt::Result {
        match *self {
            Trouble::NoAmount => write!(f, "no amount: write an amount and then the weights"),
            Trouble::NotANumber(place) => write!(f, "word {place} is not a whole number"),
            Trouble::BadLine(place) => write!(
                f,
                "line {place} is none of: P ISIN price risk rate; T ISIN K|S quantity price; M last"
            ),
            Trouble::NotDivided(fault) => show(f, fault.refusal(), &fault),
            Trouble::NotAssessed(fault) => show(f, fault.refusal(), &fault),
            Trouble::Memory => write!(f, "out of memory"),
        }
    }
}

impl Error for Trouble {}
