// The house that keeps the balances themselves.
ghost use Rattle.houses.specs.Balances.{Sound};
ghost use Rattle.houses.specs.Table.{kept};

use crate::table::Account;

#[derive(Drop)]
pub struct TableHouse {
    pub(crate) accounts: Vec<Account>,
    ghost sound: { Sound (kept accounts.items) },
}
