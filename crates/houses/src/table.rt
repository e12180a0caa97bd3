// A table of accounts with their balances, and what is written into it.
ghost use Rattle.std.specs.Prelude.{◌≡◌, true, is_some, refl};
ghost use Rattle.division.specs.Refusals.{answer, after};
ghost use Rattle.houses.specs.Refusals.{refusal};
ghost use Rattle.houses.specs.Balances.{verdict, moved, rewritten};
ghost use Rattle.houses.specs.Table.{account_of, has, kept};

use crate::faults::Fault;
use crate::judging::judge;
use crate::keeping::Keeps;
use crate::numbers::Number;
use crate::openings::Opening;
use crate::telling::{Tells, first_told};
use crate::transfers::Transfer;

#[derive(Clone, Copy)]
pub struct Account {
    pub number: Number,
    pub balance: u64,
}

impl Tells for Account {
    ghost tells = { has };

    fn tells(&self, account: u64) -> Option<u64> {
        (account == u64::from(self.number)).then_some(self.balance)
    }
}

impl Keeps for Account {
    ghost kept_of = { account_of };

    ghost same = { λ o k. refl };

    fn keep(opening: &Opening) -> Account {
        Account {
            number: opening.account as Number,
            balance: opening.balance,
        }
    }
}

// Gives the account another balance.
fn write(accounts: &mut [Account], number: u64, balance: u64)
    requires { is_some (kept accounts.old number) ≡ true }
    ensures { kept accounts.new ≡ rewritten (kept accounts.old) number balance }
{
    if let Some(i) = accounts
        .iter()
        .position(|account| u64::from(account.number) == number)
    {
        accounts[i].balance = balance;
    }
}

// Makes the transfer, or refuses it.
pub(crate) fn carry(accounts: &mut [Account], transfer: Transfer) -> Result<(), Fault>
    ensures verdict { answer refusal result ≡ verdict true (kept accounts.old) transfer.from transfer.to transfer.amount }
    ensures balances { kept accounts.new ≡ after result (moved (kept accounts.old) transfer.from transfer.to transfer.amount) (kept accounts.old) }
{
    let payer = first_told(accounts, transfer.from);
    let receiver = first_told(accounts, transfer.to);
    let (less, more) = judge(true, payer, receiver, transfer)?;
    write(accounts, transfer.from, less);
    write(accounts, transfer.to, more);
    Ok(())
}
