// What an accepted call answered, whichever it was.

#[derive(Clone, Copy, PartialEq, Eq, Debug)]
pub enum Answer {
    // join, update, income, recover, leave, other transfer
    Amount(u64),
    // regulate: paid in and paid out
    Paid(u64, u64),
    // use: the defaulter's base, his reserve, the others' bases, their reserves
    Groups(u64, u64, u64, u64),
    // open case, close
    Number(u16),
}
