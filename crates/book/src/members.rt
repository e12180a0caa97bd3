// The calls about one member, and transfers that are not the fund's.
ghost use Rattle.std.specs.Prelude.{◌≡◌, ◌+◌, [], ◌∷◌, IfOk, OnErr};
ghost use Rattle.division.specs.Refusals.{answer, after, checked, clear};
ghost use Rattle.contribution.specs.Steps.{minimum};
ghost use Rattle.book.specs.Refusals.{refusal};
ghost use Rattle.book.specs.Rows.{share, row_of, found, Stands};
ghost use Rattle.book.specs.States.{newcomer, no_row, forbidden, admission, join_checks, joined, update_checks, updated_to, updated, missing, excess, regulation, regulate_checks, regulated, departure, leave_checks, left, other_checks, transferred};
ghost use Rattle.book.specs.Books.{view};
ghost use Rattle.book.specs.Calls.{Join, Update, Regulate, Leave, OtherTransfer, Amount, Paid, entered};
ghost use Rattle.book.specs.Laws.{GoesOn};

use crate::books::Book;
use crate::checks::check_code;
use crate::faults::Fault;
use crate::rows::{Row, Standing};
use crate::settling::{FUND, settle};
use crate::standings::Event;
use contribution::{MINIMUM, Security, Trade, contribution};
use houses::{House, Number};

// The most rows of a book.
pub const ROWS: usize = 64;

impl<C: House> Book<C> {
    // Whether a member can join, as far as the book knows.
    fn admits(&self, code: u64) -> Result<(), Fault>
        ensures { answer refusal result ≡ clear (admission (view C.balances self.now) code) }
    {
        check_code(code)?;
        if self.table.find(code).is_some() {
            return Err(Fault::HasRow);
        }
        if self.table.rows.len() >= ROWS {
            return Err(Fault::Full);
        }
        self.check_room(MINIMUM)
    }

    // The member pays the minimum and gets a row.
    pub fn join(&mut self, code: u64) -> Result<u64, Fault>
        ensures answer { answer refusal result ≡ checked (join_checks (C.ready self.old.house) (view C.balances self.old) code) minimum }
        ensures state { view C.balances self.new ≡ after result (joined (view C.balances self.old) code) (view C.balances self.old) }
        ensures ready { OnErr result (C.ready self.new.house ≡ C.ready self.old.house) }
        ensures history { GoesOn (Join code) (entered Amount (answer refusal result)) (C.ready self.old.house) (view C.balances self.old) (C.ready self.new.house) (view C.balances self.new) }
    {
        self.admits(code)?;
        self.house.transfer(code, FUND, MINIMUM)?;
        self.table.push(newcomer(code as Number));
        Ok(MINIMUM)
    }

    // What the member is required to contribute follows from the securities and its trades.
    pub fn update(
        &mut self,
        code: u64,
        securities: &[Security],
        trades: &[Trade],
    ) -> Result<u64, Fault>
        ensures answer { answer refusal result ≡ checked (update_checks (view C.balances self.old) code securities.now trades.now) (updated_to (view C.balances self.old) code securities.now trades.now) }
        ensures state { view C.balances self.new ≡ after result (updated (view C.balances self.old) code securities.now trades.now) (view C.balances self.old) }
        ensures ready { C.ready self.new.house ≡ C.ready self.old.house }
        ensures history { GoesOn (Update code securities.now trades.now) (entered Amount (answer refusal result)) (C.ready self.old.house) (view C.balances self.old) (C.ready self.new.house) (view C.balances self.new) }
    {
        check_code(code)?;
        let last = self.table.find(code).map_or(0, |(_, row)| row.required);
        let required = contribution(securities, trades, last)?.required;
        let (i, _) = self.allowed(code, Event::Update)?;
        self.table.rows[i].required = required;
        Ok(required)
    }

    // The member's row with its place, where its standing allows the call.
    fn allowed(&self, code: u64, event: Event) -> Result<(usize, Row), Fault>
        ensures answer { answer refusal result ≡ checked (no_row (view C.balances self.now) code ∷ forbidden event (view C.balances self.now) code ∷ []) (found self.now.table.rows.items code) }
        ensures stands { IfOk result (λ p. Stands self.now.table.rows.items code p.0) }
    {
        let (i, row) = self.table.find(code).ok_or(Fault::NoRow)?;
        let mut standing = row.standing;
        standing.turn(event)?;
        Ok((i, row))
    }

    // A row that can be regulated, with its place, as far as the book knows.
    fn regulates(&self, code: u64) -> Result<(usize, Row), Fault>
        ensures answer { answer refusal result ≡ checked (regulation (view C.balances self.now) code) (found self.now.table.rows.items code) }
        ensures stands { IfOk result (λ p. Stands self.now.table.rows.items code p.0) }
    {
        check_code(code)?;
        let (i, row) = self.allowed(code, Event::Regulate)?;
        if self.case.is_some() && row.base > row.required {
            return Err(Fault::CaseOpen);
        }
        self.check_room(row.required.saturating_sub(row.base))?;
        Ok((i, row))
    }

    // What is required above the base is paid in, what the base is above that is paid out: both amounts are answered.
    pub fn regulate(&mut self, code: u64) -> Result<(u64, u64), Fault>
        ensures answer { answer refusal result ≡ checked (regulate_checks (C.ready self.old.house) (view C.balances self.old) code) (missing (view C.balances self.old) code, excess (view C.balances self.old) code) }
        ensures state { view C.balances self.new ≡ after result (regulated (view C.balances self.old) code) (view C.balances self.old) }
        ensures ready { OnErr result (C.ready self.new.house ≡ C.ready self.old.house) }
        ensures unpaid { missing (view C.balances self.old) code + excess (view C.balances self.old) code ≡ 0 → C.ready self.new.house ≡ C.ready self.old.house }
        ensures history { GoesOn (Regulate code) (entered (λ p. Paid p.0 p.1) (answer refusal result)) (C.ready self.old.house) (view C.balances self.old) (C.ready self.new.house) (view C.balances self.new) }
    {
        let (i, row) = self.regulates(code)?;
        let paid_in = row.required.saturating_sub(row.base);
        let paid_out = row.base.saturating_sub(row.required);
        settle(&mut self.house, code, paid_in, paid_out)?;
        self.table.rows[i].base = row.required;
        Ok((paid_in, paid_out))
    }

    // The row of a member that may leave, with its place, as far as the book knows.
    fn departs(&self, code: u64) -> Result<(usize, Row), Fault>
        ensures answer { answer refusal result ≡ checked (departure (view C.balances self.now) code) (found self.now.table.rows.items code) }
        ensures stands { IfOk result (λ p. Stands self.now.table.rows.items code p.0) }
    {
        let (i, row) = self.member(code)?;
        if self.case.is_some() {
            return Err(Fault::CaseOpen);
        }
        Ok((i, row))
    }

    // The member is paid what it has in the fund, and its row is taken out.
    pub fn leave(&mut self, code: u64) -> Result<u64, Fault>
        ensures answer { answer refusal result ≡ checked (leave_checks (C.ready self.old.house) (view C.balances self.old) code) (share (row_of self.old.table.rows.items code)) }
        ensures state { view C.balances self.new ≡ after result (left (view C.balances self.old) code) (view C.balances self.old) }
        ensures ready { OnErr result (C.ready self.new.house ≡ C.ready self.old.house) }
        ensures unpaid { share (row_of self.old.table.rows.items code) ≡ 0 → C.ready self.new.house ≡ C.ready self.old.house }
        ensures history { GoesOn (Leave code) (entered Amount (answer refusal result)) (C.ready self.old.house) (view C.balances self.old) (C.ready self.new.house) (view C.balances self.new) }
    {
        let (i, row) = self.departs(code)?;
        let paid_out = row.base + row.reserve;
        settle(&mut self.house, code, 0, paid_out)?;
        self.table.remove(i);
        Ok(paid_out)
    }

    // A transfer between two accounts that are not the fund's.
    pub fn other_transfer(&mut self, from: u64, to: u64, amount: u64) -> Result<u64, Fault>
        ensures answer { answer refusal result ≡ checked (other_checks (C.ready self.old.house) (view C.balances self.old) from to amount) amount }
        ensures state { view C.balances self.new ≡ after result (transferred (view C.balances self.old) from to amount) (view C.balances self.old) }
        ensures ready { OnErr result (C.ready self.new.house ≡ C.ready self.old.house) }
        ensures history { GoesOn (OtherTransfer from to amount) (entered Amount (answer refusal result)) (C.ready self.old.house) (view C.balances self.old) (C.ready self.new.house) (view C.balances self.new) }
    {
        if from == FUND || to == FUND {
            return Err(Fault::FundNamed);
        }
        self.house.transfer(from, to, amount)?;
        Ok(amount)
    }
}

fn newcomer(code: Number) -> Row
    ensures { result ≡ newcomer code }
{
    Row {
        code,
        standing: Standing::Active,
        base: MINIMUM,
        reserve: 0,
        required: MINIMUM,
        charged: 0,
    }
}
