// The entries of a list house, and what is read off them.
ghost use Rattle.std.specs.Prelude.{◌≡◌, ◌≤◌, length, refl};
ghost use Rattle.houses.specs.Balances.{Sound};
ghost use Rattle.houses.specs.Entries.{entry_of, opens, brings, takes, Covered, booked};

use crate::keeping::Keeps;
use crate::numbers::Number;
use crate::openings::Opening;
use crate::telling::{Tells, first_told};

#[derive(Clone, Copy)]
pub enum Entry {
    Opening {
        account: Number,
        balance: u64,
    },
    Transfer {
        from: Number,
        to: Number,
        amount: u64,
    },
}

impl Tells for Entry {
    ghost tells = { opens };

    fn tells(&self, account: u64) -> Option<u64> {
        match *self {
            Entry::Opening {
                account: number,
                balance,
            } if account == u64::from(number) => Some(balance),
            _ => None,
        }
    }
}

impl Keeps for Entry {
    ghost kept_of = { entry_of };

    ghost same = { λ o k. refl };

    fn keep(opening: &Opening) -> Entry {
        Entry::Opening {
            account: opening.account as Number,
            balance: opening.balance,
        }
    }
}

impl Entry {
    // What the entry brings to the account.
    fn brings(&self, account: u64) -> u64
        ensures { result ≡ brings account self.now }
    {
        match *self {
            Entry::Transfer { to, amount, .. } if to as u64 == account => amount,
            _ => 0,
        }
    }

    // What the entry takes from the account.
    fn takes(&self, account: u64) -> u64
        ensures { result ≡ takes account self.now }
    {
        match *self {
            Entry::Transfer { from, amount, .. } if from as u64 == account => amount,
            _ => 0,
        }
    }
}

// The balance of the account: what it opened with and what was paid in, less what was paid out.
pub(crate) fn balance_from(entries: &[Entry], account: u64) -> Option<u64>
    requires few { length entries.now ≤ 1024 }
    requires covered { Covered entries.now }
    requires sound { Sound (booked entries.now) }
    ensures { result ≡ booked entries.now account }
{
    let opening = first_told(entries, account)?;
    // one loop for both sums, since each call reads all entries
    let mut paid_in: u128 = 0;
    let mut paid_out: u128 = 0;
    for entry in entries {
        paid_in += u128::from(entry.brings(account));
        paid_out += u128::from(entry.takes(account));
    }
    Some((u128::from(opening) + paid_in - paid_out) as u64)
}
