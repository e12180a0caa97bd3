// What comes in for all members, divided among them.
ghost use Rattle.std.specs.Prelude.{◌≡◌, ◌+◌, ◌<◌, ◌≤◌, length, take, sum, vec_len, OnErr};
ghost use Rattle.division.specs.Division.{parts_of};
ghost use Rattle.division.specs.Refusals.{answer, after, checked, clear};
ghost use Rattle.houses.specs.Balances as house;
ghost use Rattle.houses.specs.Balances.{moved};
ghost use Rattle.book.specs.Refusals.{refusal};
ghost use Rattle.book.specs.Rows.{shares, credited};
ghost use Rattle.book.specs.Groups.{weights};
ghost use Rattle.book.specs.States.{earning, income_checks, earned, with_rows};
ghost use Rattle.book.specs.Books.{view};
ghost use Rattle.book.specs.Calls.{Income, Amount, entered};
ghost use Rattle.book.specs.Laws.{GoesOn};

use crate::books::Book;
use crate::checks::check_amount;
use crate::faults::Fault;
use crate::groups::{Basis, weight};
use crate::members::ROWS;
use crate::rows::Row;
use crate::settling::{FUND, SETTLEMENT};
use crate::table::Table;
use division::divide;
use houses::House;

// What the rows weigh, at the front of the list.
fn weigh(rows: &[Row], basis: Basis, list: &mut [u64])
    requires { length rows.now ≤ length list.old }
    ensures { take (length rows.now) list.new ≡ weights basis rows.now }
{
    // by index: after a `zip` with `iter_mut()` nothing is known of what was written
    for (i, row) in rows.iter().enumerate() {
        list[i] = weight(basis, row);
    }
}

// Adds the parts to the reserves.
fn credit(rows: &mut [Row], parts: &[u64])
    requires long { length parts.now ≡ length rows.old }
    requires limit { shares rows.old + sum parts.now ≤ 4000000000 }
    ensures { rows.new ≡ credited rows.old parts.now }
{
    // by index: after a `zip` with `iter_mut()` nothing is known of what was written
    for (i, part) in parts.iter().enumerate() {
        rows[i].reserve += *part;
    }
}

// What the rows weigh together.
fn total(rows: &[Row], basis: Basis) -> u64
    requires { sum (weights basis rows.now) ≤ 4000000000 }
    ensures { result ≡ sum (weights basis rows.now) }
{
    rows.iter().map(|row| weight(basis, row)).sum()
}

impl Table {
    // What the rows weigh together.
    pub(crate) fn total(&self, basis: Basis) -> u64
        ensures { result ≡ sum (weights basis self.now.rows.items) }
    {
        total(self.rows.as_slice(), basis)
    }

    // The amount divided over the rows: a part for each, at the front of the list.
    pub(crate) fn parts(&self, basis: Basis, amount: u64) -> [u64; ROWS]
        requires some { 0 < sum (weights basis self.now.rows.items) }
        requires amount { amount ≤ 4000000000 }
        ensures { take (vec_len self.now.rows) result ≡ parts_of amount (weights basis self.now.rows.items) }
    {
        let count = self.rows.len();
        // arrays: no memory is asked for after a book is opened
        let mut weights = [0; ROWS];
        weigh(self.rows.as_slice(), basis, &mut weights);
        let mut parts = [0; ROWS];
        divide(amount, &weights[0..count], &mut parts[0..count]).unwrap();
        parts
    }

    // Divides the amount over the rows, onto their reserves.
    fn distribute(&mut self, basis: Basis, amount: u64)
        requires some { 0 < sum (weights basis self.old.rows.items) }
        requires limit { shares self.old.rows.items + amount ≤ 4000000000 }
        ensures { self.new.rows.items ≡ credited self.old.rows.items (parts_of amount (weights basis self.old.rows.items)) }
    {
        let parts = self.parts(basis, amount);
        let count = self.rows.len();
        credit(&mut self.rows, &parts[0..count]);
    }
}

impl<C: House> Book<C> {
    // The amount comes from the settlement account and is divided onto the reserves.
    pub(crate) fn receive(&mut self, basis: Basis, amount: u64) -> Result<(), Fault>
        requires some { 0 < sum (weights basis self.old.table.rows.items) }
        requires limit { shares self.old.table.rows.items + amount ≤ 4000000000 }
        ensures answer { answer refusal result ≡ clear (house.checks (C.ready self.old.house) (C.balances self.old.house) 1 0 amount) }
        ensures state { view C.balances self.new ≡ after result (with_rows (view C.balances self.old) (credited self.old.table.rows.items (parts_of amount (weights basis self.old.table.rows.items))) (moved (C.balances self.old.house) 1 0 amount)) (view C.balances self.old) }
        ensures ready { OnErr result (C.ready self.new.house ≡ C.ready self.old.house) }
    {
        self.house.transfer(SETTLEMENT, FUND, amount)?;
        self.table.distribute(basis, amount);
        Ok(())
    }

    // Whether an income can be shared, as far as the book knows.
    fn earns(&self, amount: u64) -> Result<(), Fault>
        ensures { answer refusal result ≡ clear (earning (view C.balances self.now) amount) }
    {
        check_amount(amount)?;
        if self.table.total(Basis::Base) == 0 {
            return Err(Fault::NoBase);
        }
        self.check_room(amount)
    }

    // The amount comes from the settlement account and is divided by base onto the reserves.
    pub fn income(&mut self, amount: u64) -> Result<u64, Fault>
        ensures answer { answer refusal result ≡ checked (income_checks (C.ready self.old.house) (view C.balances self.old) amount) amount }
        ensures state { view C.balances self.new ≡ after result (earned (view C.balances self.old) amount) (view C.balances self.old) }
        ensures ready { OnErr result (C.ready self.new.house ≡ C.ready self.old.house) }
        ensures history { GoesOn (Income amount) (entered Amount (answer refusal result)) (C.ready self.old.house) (view C.balances self.old) (C.ready self.new.house) (view C.balances self.new) }
    {
        self.earns(amount)?;
        self.receive(Basis::Base, amount)?;
        Ok(amount)
    }
}
