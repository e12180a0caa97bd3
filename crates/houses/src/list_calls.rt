// The calls of the list house.
ghost use Rattle.std.specs.Prelude.{◌≡◌, ◌≤◌, [], ◌∷◌, ◌++◌, map, length, Ok, vec_len, vec_capacity, OnErr, nat_lt};
ghost use Rattle.division.specs.Refusals.{answer, after};
ghost use Rattle.houses.specs.Refusals.{refusal};
ghost use Rattle.houses.specs.Balances.{verdict, moved, money};
ghost use Rattle.houses.specs.Openings.{opened, list_verdict};
ghost use Rattle.houses.specs.Entries.{entry_of, booked, carried};

use crate::cash::House;
use crate::entries::{Entry, balance_from};
use crate::faults::Fault;
use crate::judging::judge;
use crate::keeping::filled;
use crate::list_house::ListHouse;
use crate::numbers::Number;
use crate::openings::{Opening, check};
use crate::transfers::Transfer;

// The most entries of a list house.
const ENTRIES: usize = 1_024;

impl ListHouse {
    // Whether a list house of so many entries can be made with these accounts.
    pub fn check(openings: &[Opening], room: usize) -> Result<(), Fault>
        ensures { answer refusal result ≡ list_verdict openings.now room }
    {
        if room > ENTRIES {
            return Err(Fault::TooMany);
        }
        check(openings, room)
    }

    // The house with these accounts, whose entries are kept in the list, which is empty and has room for all of them.
    pub fn make(openings: &[Opening], list: Vec<Entry>, room: usize) -> ListHouse
        requires checked { list_verdict openings.now room ≡ Ok tt }
        requires empty { vec_len list ≡ 0 }
        requires room { room ≤ vec_capacity list }
        ensures balances { booked result.entries.items ≡ opened openings.now }
        ensures ready { nat_lt (vec_len result.entries) result.room ≡ nat_lt (length openings.now) room }
        ensures entries { result.entries.items ≡ map entry_of openings.now }
        ensures room { result.room ≡ room }
    {
        let entries = filled(openings, list);
        ListHouse { entries, room }
    }

    // The entries: the openings and then each transfer that was made, from which the balances follow in either way.
    pub fn entries(&self) -> &[Entry]
        ensures entries { result.now ≡ self.now.entries.items }
        ensures ordered { booked result.now ≡ carried result.now }
    {
        self.entries.as_slice()
    }
}

impl House for ListHouse {
    ghost balances = { λ x. booked x.entries.items };

    ghost ready = { λ x. nat_lt (vec_len x.entries) x.room };

    ghost sound = { λ x. x.sound };

    fn transfer(&mut self, from: u64, to: u64, amount: u64) -> Result<(), Fault>
        ensures verdict { answer refusal result ≡ verdict (nat_lt (vec_len self.old.entries) self.old.room) (booked self.old.entries.items) from to amount }
        ensures balances { booked self.new.entries.items ≡ after result (moved (booked self.old.entries.items) from to amount) (booked self.old.entries.items) }
        ensures ready { OnErr result (nat_lt (vec_len self.new.entries) self.new.room ≡ nat_lt (vec_len self.old.entries) self.old.room) }
        ensures whole { money (booked self.new.entries.items) ≡ money (booked self.old.entries.items) }
        ensures entries { self.new.entries.items ≡ after result (self.old.entries.items ++ Entry.Transfer from to amount ∷ []) self.old.entries.items }
        ensures room { self.new.room ≡ self.old.room }
    {
        let payer = balance_from(&self.entries, from);
        let receiver = balance_from(&self.entries, to);
        let free = self.entries.len() < self.room;
        judge(free, payer, receiver, Transfer { from, to, amount })?;
        // both numbers fit: the house has the accounts
        self.entries.push_reserved(Entry::Transfer {
            from: from as Number,
            to: to as Number,
            amount,
        });
        Ok(())
    }

    fn balance(&mut self, account: u64) -> Result<u64, Fault> {
        balance_from(&self.entries, account).ok_or(Fault::UnknownAccount)
    }
}
