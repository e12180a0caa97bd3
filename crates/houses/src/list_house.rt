// The house that keeps entries only, from which the balances are read.
ghost use Rattle.std.specs.Prelude.{◌≤◌, vec_len, vec_capacity};
ghost use Rattle.houses.specs.Balances.{Sound, Same};
ghost use Rattle.houses.specs.Entries.{Covered, booked, carried};

use crate::entries::Entry;

#[derive(Drop)]
pub struct ListHouse {
    pub(crate) entries: Vec<Entry>,
    pub(crate) room: usize,
    ghost few: { room ≤ 1024 },
    ghost within: { vec_len entries ≤ room },
    ghost reserved: { room ≤ vec_capacity entries },
    ghost covered: { Covered entries.items },
    ghost sound: { Sound (booked entries.items) },
    ghost ordered: { Same (booked entries.items) (carried entries.items) },
}
