// Whether a transfer can be made, from what a house knows of its two accounts.
ghost use Rattle.std.specs.Prelude.{◌≡◌, ℕ, ◌+◌, ◌-◌, Option};
ghost use Rattle.division.specs.Refusals.{answer, checked};
ghost use Rattle.houses.specs.Refusals.{refusal};
ghost use Rattle.houses.specs.Balances.{checks, held};

use crate::faults::Fault;
use crate::transfers::Transfer;

// The most that a transfer moves.
const AMOUNT: u64 = 4_000_000_000;

// The most that an account holds.
pub const BALANCE: u64 = 1_000_000_000_000_000;

// The balances of the payer and the receiver after the transfer.
pub(crate) fn judge(
    ready: bool,
    payer: Option<u64>,
    receiver: Option<u64>,
    transfer: Transfer,
) -> Result<(u64, u64), Fault>
    ensures { (b : ℕ → Option ℕ) → b transfer.from ≡ payer → b transfer.to ≡ receiver → answer refusal result ≡ checked (checks ready b transfer.from transfer.to transfer.amount) (held (b transfer.from) - transfer.amount, held (b transfer.to) + transfer.amount) }
{
    let Transfer { from, to, amount } = transfer;
    if amount == 0 || amount > AMOUNT {
        return Err(Fault::Amount);
    }
    if from == to {
        return Err(Fault::SameAccount);
    }
    if !ready {
        return Err(Fault::NotReady);
    }
    let (Some(payer), Some(receiver)) = (payer, receiver) else {
        return Err(Fault::UnknownAccount);
    };
    if payer < amount {
        return Err(Fault::PayerShort);
    }
    if receiver > BALANCE - amount {
        return Err(Fault::ReceiverFull);
    }
    Ok((payer - amount, receiver + amount))
}
