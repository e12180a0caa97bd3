// A transfer as it is asked for, between accounts by any numbers.

// A house's `transfer` takes the three apart, since most who ask name them in place.
#[derive(Clone, Copy)]
pub struct Transfer {
    pub from: u64,
    pub to: u64,
    pub amount: u64,
}
