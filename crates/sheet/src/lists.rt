// Lists whose memory is asked for before the sheet is read.
ghost use Rattle.std.specs.Prelude.{◌≡◌, ◌≤◌, [], ◌∷◌, ◌++◌, length, vec_len, vec_capacity, if◌then◌else◌, Ok, Err, nat_le};
ghost use Rattle.sheet.specs.declared.faults.Fault.TheVariants.{TooMany};

use crate::faults::Fault;
use crate::trades::MemberTrade;
use book::{ROWS, Row};
use contribution::{Security, Trade};
use houses::{ACCOUNTS, Account};
use std::alloc::{AllocError, Global};

// The most securities and trades of a sheet.
pub(crate) const SECURITIES: usize = 64;

pub(crate) const TRADES: usize = 512;

// An empty list with room for N items.
#[derive(Drop)]
pub(crate) struct Reserved<T, const N: usize> {
    pub(crate) list: Vec<T>,
    ghost empty: { vec_len list ≡ 0 },
    ghost room: { N ≤ vec_capacity list },
}

impl<T: Drop, const N: usize> Reserved<T, N> {
    pub(crate) fn new(heap: Global) -> Result<Reserved<T, N>, AllocError> {
        Ok(Reserved {
            list: Vec::with_capacity(heap, N)?,
        })
    }
}

// A list of at most N items, which asks for no more memory.
#[derive(Drop)]
pub(crate) struct Limited<T, const N: usize> {
    pub(crate) list: Vec<T>,
    ghost few: { vec_len list ≤ N },
    ghost room: { N ≤ vec_capacity list },
}

impl<T: Drop, const N: usize> Limited<T, N> {
    pub(crate) fn new(reserved: Reserved<T, N>) -> Limited<T, N>
        ensures { result.list.items ≡ [] }
    {
        Limited {
            list: reserved.list,
        }
    }

    // One item more, or the fault.
    pub(crate) fn push(&mut self, item: T) -> Result<(), Fault>
        ensures stop { result ≡ (if nat_le N (length self.old.list.items) then Err TooMany else Ok tt) }
        ensures items { self.new.list.items ≡ (if nat_le N (length self.old.list.items) then self.old.list.items else self.old.list.items ++ item ∷ []) }
    {
        if self.list.len() >= N {
            return Err(Fault::TooMany);
        }
        self.list.push_reserved(item);
        Ok(())
    }
}

// The lists of the head, the house, the book and the desk.
#[derive(Drop)]
pub(crate) struct Lists {
    pub(crate) accounts: Reserved<Account, ACCOUNTS>,
    pub(crate) rows: Reserved<Row, ROWS>,
    pub(crate) securities: Reserved<Security, SECURITIES>,
    pub(crate) trades: Reserved<MemberTrade, TRADES>,
    pub(crate) own: Reserved<Trade, TRADES>,
}

impl Lists {
    pub(crate) fn reserve(heap: Global) -> Result<Lists, AllocError> {
        Ok(Lists {
            accounts: Reserved::new(heap)?,
            rows: Reserved::new(heap)?,
            securities: Reserved::new(heap)?,
            trades: Reserved::new(heap)?,
            own: Reserved::new(heap)?,
        })
    }
}
