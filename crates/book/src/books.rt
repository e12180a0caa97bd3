// The book over a house.
ghost use Rattle.std.specs.Prelude.{◌≡◌};
ghost use Rattle.book.specs.Rows.{charges};
ghost use Rattle.book.specs.States.{charged_of};

use crate::rows::OpenCase;
use crate::table::Table;
use houses::House;

#[derive(Drop)]
pub struct Book<C: House> {
    pub(crate) house: C,
    pub(crate) table: Table,
    pub(crate) case: Option<OpenCase>,
    pub(crate) opened: u16,
    ghost tally: { charges table.rows.items ≡ charged_of case },
}
