// What a house is: its accounts with their balances, whether it is ready, and how it answers.
ghost use Rattle.std.specs.Prelude.{◌≡◌, ℕ, Bool, Option, OnErr};
ghost use Rattle.division.specs.Refusals.{answer, after};
ghost use Rattle.houses.specs.Refusals.{refusal};
ghost use Rattle.houses.specs.Balances.{Sound, verdict, moved, told, money};

use crate::faults::Fault;

pub trait House {
    ghost balances: { Self → ℕ → Option ℕ };

    ghost ready: { Self → Bool };

    // Moves the amount from one account to another, or refuses and leaves everything as it was.
    fn transfer(&mut self, from: u64, to: u64, amount: u64) -> Result<(), Fault>
        ensures verdict { answer refusal result ≡ verdict (ready self.old) (balances self.old) from to amount }
        ensures balances { balances self.new ≡ after result (moved (balances self.old) from to amount) (balances self.old) }
        ensures ready { OnErr result (ready self.new ≡ ready self.old) }
        ensures whole { money (balances self.new) ≡ money (balances self.old) };

    // The balance of the account.
    fn balance(&mut self, account: u64) -> Result<u64, Fault>
        ensures told { answer refusal result ≡ told (balances self.old account) }
        ensures balances { balances self.new ≡ balances self.old }
        ensures ready { ready self.new ≡ ready self.old };

    // numbers up to 9,999 and balances up to 10^15
    ghost sound: { (x : Self) → Sound (balances x) };
}
