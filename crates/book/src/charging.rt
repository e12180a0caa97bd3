// What a case takes from the members, group after group, and what it gives back.
ghost use Rattle.std.specs.Prelude.{◌≡◌, ℕ, ◌+◌, ◌<◌, ◌≤◌, length, sum, OnErr, slice_index, slice_index_or};
ghost use Rattle.division.specs.Refusals.{answer, after, checked};
ghost use Rattle.book.specs.Refusals.{refusal};
ghost use Rattle.book.specs.Rows.{charges, nobody};
ghost use Rattle.book.specs.Groups.{in_group, charged_in, charged_all, pays, Levy, used_rows};
ghost use Rattle.book.specs.declared.groups.Group.TheVariants.{OwnBase, OwnReserve, OtherBases, OtherReserves};
ghost use Rattle.book.specs.States.{more_charged, usage, use_checks, group_sums, used, more_recovered, recovery, recover_checks, recovered};
ghost use Rattle.book.specs.Books.{view};
ghost use Rattle.book.specs.Calls.{Use, Recover, Amount, Groups, entered};
ghost use Rattle.book.specs.Laws.{GoesOn};

use crate::books::Book;
use crate::cases::Case;
use crate::checks::check_amount;
use crate::faults::Fault;
use crate::groups::{Basis, Group};
use crate::rows::{OpenCase, Row, Standing};
use crate::settling::{FUND, LIMIT, SETTLEMENT};
use crate::table::Table;
use houses::House;

// Charges the part to what of the row is in the group.
fn charge_row(row: &mut Row, group: Group, part: u64)
    requires within { part ≤ in_group group row.old }
    requires limit { row.old.charged + part ≤ 4000000000 }
    ensures { row.new ≡ charged_in group row.old part }
{
    match (group, row.standing) {
        (Group::OwnBase, Standing::Defaulting)
        | (Group::OtherBases, Standing::Active | Standing::Barred) => row.base -= part,
        (Group::OwnReserve, Standing::Defaulting)
        | (Group::OtherReserves, Standing::Active | Standing::Barred) => row.reserve -= part,
        _ => {}
    }
    row.charged += part;
}

// Charges each row its part.
fn charge(rows: &mut [Row], group: Group, parts: &[u64])
    requires long { length parts.now ≡ length rows.old }
    requires within { (k : ℕ) → k < length rows.old → slice_index parts.now k ≤ in_group group (slice_index_or rows.old k nobody) }
    requires limit { charges rows.old + sum parts.now ≤ 4000000000 }
    ensures { rows.new ≡ charged_all group rows.old parts.now }
{
    // by index: after a `zip` with `iter_mut()` nothing is known of what was written
    for (i, part) in parts.iter().enumerate() {
        charge_row(&mut rows[i], group, *part);
    }
}

impl Table {
    // Takes from the group what it can pay of the rest, divided over its shares.
    fn levy(&mut self, group: Group, rest: u64) -> u64
        requires { charges self.old.rows.items + rest ≤ 4000000000 }
        ensures { Levy group rest self.old.rows.items result self.new.rows.items }
    {
        let paid = rest.min(self.total(Basis::Group(group)));
        if paid > 0 {
            let parts = self.parts(Basis::Group(group), paid);
            let count = self.rows.len();
            charge(&mut self.rows, group, &parts[0..count]);
        }
        paid
    }

    // Takes the amount from the four groups, each in its turn what the earlier ones left, and tells what each paid.
    fn charge_groups(&mut self, amount: u64) -> (u64, u64, u64, u64)
        requires { charges self.old.rows.items + amount ≤ 4000000000 }
        ensures paid { result ≡ (pays OwnBase self.old.rows.items amount, pays OwnReserve self.old.rows.items amount, pays OtherBases self.old.rows.items amount, pays OtherReserves self.old.rows.items amount) }
        ensures rows { self.new.rows.items ≡ used_rows self.old.rows.items amount }
    {
        let own_base = self.levy(Group::OwnBase, amount);
        let rest = amount - own_base;
        let own_reserve = self.levy(Group::OwnReserve, rest);
        let rest = rest - own_reserve;
        let bases = self.levy(Group::OtherBases, rest);
        let reserves = self.levy(Group::OtherReserves, rest - bases);
        (own_base, own_reserve, bases, reserves)
    }
}

impl<C: House> Book<C> {
    // The case as a use of the amount leaves it, where the book lets the use pass.
    fn usable(&self, number: u16, amount: u64) -> Result<Option<OpenCase>, Fault>
        ensures { answer refusal result ≡ checked (usage (view C.balances self.now) number amount) (more_charged amount self.now.case) }
    {
        check_amount(amount)?;
        let open = self.open_with(number).ok_or(Fault::OtherCase)?;
        if amount > self.table.shares() {
            return Err(Fault::AboveShares);
        }
        let charged = open.charged + amount;
        if charged > LIMIT {
            return Err(Fault::ChargedLimit);
        }
        Ok(Some(OpenCase { charged, ..open }))
    }

    // The amount is charged in the four groups and goes to the settlement account; what each group paid is answered.
    pub fn use_fund(&mut self, case: &Case, amount: u64) -> Result<(u64, u64, u64, u64), Fault>
        ensures answer { answer refusal result ≡ checked (use_checks (C.ready self.old.house) (view C.balances self.old) case.now.number amount) (group_sums (view C.balances self.old) amount) }
        ensures state { view C.balances self.new ≡ after result (used (view C.balances self.old) amount) (view C.balances self.old) }
        ensures ready { OnErr result (C.ready self.new.house ≡ C.ready self.old.house) }
        ensures history { GoesOn (Use case.now.number amount) (entered (λ g. Groups g.0 g.1 g.2 g.3) (answer refusal result)) (C.ready self.old.house) (view C.balances self.old) (C.ready self.new.house) (view C.balances self.new) }
    {
        let next = self.usable(case.number, amount)?;
        self.house.transfer(FUND, SETTLEMENT, amount)?;
        let paid = self.table.charge_groups(amount);
        self.case = next;
        Ok(paid)
    }

    // The case as a recovery of the amount leaves it, where the book lets the recovery pass.
    fn recoverable(&self, number: u16, amount: u64) -> Result<Option<OpenCase>, Fault>
        ensures { answer refusal result ≡ checked (recovery (view C.balances self.now) number amount) (more_recovered amount self.now.case) }
    {
        check_amount(amount)?;
        let open = self.open_with(number).ok_or(Fault::OtherCase)?;
        if amount > open.charged.saturating_sub(open.recovered) {
            return Err(Fault::AboveCharged);
        }
        self.check_room(amount)?;
        let recovered = open.recovered + amount;
        Ok(Some(OpenCase { recovered, ..open }))
    }

    // The amount comes from the settlement account and is divided by charged onto the reserves.
    pub fn recover(&mut self, case: &Case, amount: u64) -> Result<u64, Fault>
        ensures answer { answer refusal result ≡ checked (recover_checks (C.ready self.old.house) (view C.balances self.old) case.now.number amount) amount }
        ensures state { view C.balances self.new ≡ after result (recovered (view C.balances self.old) amount) (view C.balances self.old) }
        ensures ready { OnErr result (C.ready self.new.house ≡ C.ready self.old.house) }
        ensures history { GoesOn (Recover case.now.number amount) (entered Amount (answer refusal result)) (C.ready self.old.house) (view C.balances self.old) (C.ready self.new.house) (view C.balances self.new) }
    {
        let next = self.recoverable(case.number, amount)?;
        self.receive(Basis::Charged, amount)?;
        self.case = next;
        Ok(amount)
    }
}
