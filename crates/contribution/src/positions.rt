// What the trades of a member come to in one security.

// Quantities bought and sold, and the money paid and received for them.
#[derive(Clone, Copy, PartialEq, Eq, Debug)]
pub struct Position {
    pub bought: u64,
    pub sold: u64,
    pub paid: u64,
    pub received: u64,
}
