// A house that hands every call down to another.
use houses::{Fault, House};

#[derive(Drop)]
pub struct Passing<C>(pub C);

impl<C: House> House for Passing<C> {
    ghost balances = { λ x. C.House.balances x.0 };

    ghost ready = { λ x. C.House.ready x.0 };

    ghost sound = { λ x. C.House.sound x.0 };

    fn transfer(&mut self, from: u64, to: u64, amount: u64) -> Result<(), Fault> {
        self.0.transfer(from, to, amount)
    }

    fn balance(&mut self, account: u64) -> Result<u64, Fault> {
        self.0.balance(account)
    }
}
