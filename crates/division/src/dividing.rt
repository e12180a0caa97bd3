// The division: each thing's part is what the amount comes to at the weights up to and with its own, less what it comes to at those before.
ghost use Rattle.std.specs.Prelude.{◌≡◌, ℕ, ◌*◌, ◌/◌, ◌<◌, ◌≤◌, map, length, sum, OnOk};
ghost use Rattle.division.specs.Refusals.{answer, refusal, after};
ghost use Rattle.division.specs.Division.{verdict, parts_of};
ghost use Rattle.division.specs.Fairness.{Fair};

use crate::faults::Fault;

// The most that an amount, and the weights in sum, may be.
const LIMIT: u64 = 4_000_000_000;

// The most things that an amount is divided over.
const THINGS: usize = 64;

// What tells a weight.
pub trait Weighted {
    ghost weight: { Self → ℕ };

    fn weight(&self) -> u64
        ensures { result ≡ weight self.now };
}

// A number weighs what it is.
impl Weighted for u64 {
    ghost weight = { λ w. w };

    fn weight(&self) -> u64 {
        *self
    }
}

fn total<T: Weighted>(things: &[T]) -> u128
    requires { length things.now ≤ 64 }
    ensures { result ≡ sum (map T.weight things.now) }
{
    things.iter().map(|thing| u128::from(thing.weight())).sum()
}

// What the weights come to of the amount, rounded down.
fn due(amount: u64, weights: u64, all: u64) -> u64
    requires amount { amount ≤ 4000000000 }
    requires weights { weights ≤ 4000000000 }
    requires some { 0 < all }
    ensures { result ≡ amount * weights / all }
{
    amount * weights / all
}

fn fill<T: Weighted>(amount: u64, all: u64, things: &[T], parts: &mut [u64])
    requires amount { amount ≤ 4000000000 }
    requires weights { all ≤ 4000000000 }
    requires some { 0 < all }
    requires all { all ≡ sum (map T.weight things.now) }
    requires long { length parts.old ≡ length things.now }
    ensures { parts.new ≡ parts_of amount (map T.weight things.now) }
{
    let mut weights: u64 = 0;
    let mut paid: u64 = 0;
    // by index: after a `zip` with `iter_mut()` nothing is known of what was written
    for (i, thing) in things.iter().enumerate() {
        let reached = weights + thing.weight();
        let part = due(amount, reached, all) - paid;
        parts[i] = part;
        paid += part;
        weights = reached;
    }
}

// Divides the amount over the things by weight into the list of parts, or refuses and leaves the list as it was.
pub fn divide<T: Weighted>(amount: u64, things: &[T], parts: &mut [u64]) -> Result<(), Fault>
    ensures verdict { answer refusal result ≡ verdict amount (map T.weight things.now) (length parts.old) }
    ensures parts { parts.new ≡ after result (parts_of amount (map T.weight things.now)) parts.old }
    ensures fair { OnOk result (Fair amount (map T.weight things.now) parts.new) }
{
    if things.len() > THINGS || parts.len() != things.len() {
        return Err(Fault::Things);
    }
    let all = total(things);
    if all > u128::from(LIMIT) {
        return Err(Fault::Things);
    }
    let all = all as u64;
    if amount > LIMIT {
        return Err(Fault::Amount);
    }
    if all == 0 {
        return Err(Fault::NoWeight);
    }
    fill(amount, all, things, parts);
    Ok(())
}
