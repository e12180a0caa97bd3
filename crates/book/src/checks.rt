// What several calls check.
ghost use Rattle.std.specs.Prelude.{◌≡◌, [], ◌∷◌, IfOk, IfSome, Some, is_some};
ghost use Rattle.division.specs.Refusals.{answer, checked, clear};
ghost use Rattle.book.specs.Refusals.{refusal};
ghost use Rattle.book.specs.Rows.{found, Stands};
ghost use Rattle.book.specs.States.{bad_code, bad_amount, no_row, no_room, is_open};
ghost use Rattle.book.specs.Books.{view};

use crate::books::Book;
use crate::faults::Fault;
use crate::rows::{OpenCase, Row};
use crate::settling::LIMIT;
use houses::House;

// Whether a member can have the code.
pub(crate) fn check_code(code: u64) -> Result<(), Fault>
    ensures { answer refusal result ≡ clear (bad_code code ∷ []) }
{
    if matches!(code, 10..=9_999) {
        Ok(())
    } else {
        Err(Fault::Code)
    }
}

// Whether the amount can come in or go out at once.
pub(crate) fn check_amount(amount: u64) -> Result<(), Fault>
    ensures { answer refusal result ≡ clear (bad_amount amount ∷ []) }
{
    if matches!(amount, 1..=LIMIT) {
        Ok(())
    } else {
        Err(Fault::Amount)
    }
}

impl<C: House> Book<C> {
    // The place of the member's row, and the row.
    pub(crate) fn member(&self, code: u64) -> Result<(usize, Row), Fault>
        ensures answer { answer refusal result ≡ checked (bad_code code ∷ no_row (view C.balances self.now) code ∷ []) (found self.now.table.rows.items code) }
        ensures stands { IfOk result (λ p. Stands self.now.table.rows.items code p.0) }
    {
        check_code(code)?;
        self.table.find(code).ok_or(Fault::NoRow)
    }

    // Whether the members may have the amount more in the fund.
    pub(crate) fn check_room(&self, more: u64) -> Result<(), Fault>
        ensures { answer refusal result ≡ clear (no_room (view C.balances self.now) more ∷ []) }
    {
        if more > LIMIT - self.table.shares() {
            return Err(Fault::Limit);
        }
        Ok(())
    }

    // The open case, if it has the number.
    pub(crate) fn open_with(&self, number: u16) -> Option<OpenCase>
        ensures open { is_some result ≡ is_open self.now.case number }
        ensures case { IfSome result (λ c. self.now.case ≡ Some c) }
    {
        self.case.filter(|open| open.number == number)
    }
}
