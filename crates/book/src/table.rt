// The table of rows, in order of joining.
ghost use Rattle.std.specs.Prelude.{◌≡◌, ◌+◌, ◌<◌, ◌≤◌, [], ◌∷◌, ◌++◌, map, IfSome, vec_len, vec_capacity};
ghost use Rattle.std.specs.Option.{MatchOption};
ghost use Rattle.std.specs.List.{remove};
ghost use Rattle.book.specs.Rows.{place, share, shares, charges, row_of, Stands, case_closed};

use crate::rows::Row;
use crate::standings::Event;

#[derive(Drop)]
pub(crate) struct Table {
    pub(crate) rows: Vec<Row>,
    ghost few: { vec_len rows ≤ 64 },
    ghost room: { 64 ≤ vec_capacity rows },
    ghost limit: { shares rows.items ≤ 4000000000 },
    ghost charged: { charges rows.items ≤ 4000000000 },
}

// Where the row of the member stands.
fn place(rows: &[Row], code: u64) -> Option<usize>
    ensures place { result ≡ place rows.now code }
    ensures stands { IfSome result (Stands rows.now code) }
{
    rows.iter().position(|row| u64::from(row.code) == code)
}

// What all members have in the fund.
fn sum(rows: &[Row]) -> u64
    requires { shares rows.now ≤ 4000000000 }
    ensures { result ≡ shares rows.now }
{
    rows.iter().map(|row| row.base + row.reserve).sum()
}

// Ends the case in each row.
fn close(rows: &mut [Row])
    ensures { rows.new ≡ map case_closed rows.old }
{
    for row in rows.iter_mut() {
        row.standing.turn(Event::CloseCase).unwrap();
        row.charged = 0;
    }
}

impl Table {
    // The place of the member's row, and the row.
    pub(crate) fn find(&self, code: u64) -> Option<(usize, Row)>
        ensures { MatchOption result (place self.now.rows.items code ≡ None) (λ p. Stands self.now.rows.items code p.0 × (p.1 ≡ row_of self.now.rows.items code)) }
    {
        let i = place(self.rows.as_slice(), code)?;
        Some((i, self.rows[i]))
    }

    // What all members have in the fund.
    pub(crate) fn shares(&self) -> u64
        ensures { result ≡ shares self.now.rows.items }
    {
        sum(self.rows.as_slice())
    }

    // Puts the row after the others.
    pub(crate) fn push(&mut self, row: Row)
        requires few { vec_len self.old.rows < 64 }
        requires limit { shares self.old.rows.items + share row ≤ 4000000000 }
        requires charged { charges self.old.rows.items + row.charged ≤ 4000000000 }
        ensures { self.new.rows.items ≡ self.old.rows.items ++ row ∷ [] }
    {
        self.rows.push_reserved(row);
    }

    // Takes the row out.
    pub(crate) fn remove(&mut self, i: usize)
        requires { i < vec_len self.old.rows }
        ensures { self.new.rows.items ≡ remove self.old.rows.items i }
    {
        self.rows.remove(i);
    }

    // Ends the case in all rows.
    pub(crate) fn close(&mut self)
        ensures { self.new.rows.items ≡ map case_closed self.old.rows.items }
    {
        close(&mut self.rows);
    }
}
