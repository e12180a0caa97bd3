// What a contribution answers.
use crate::positions::Position;

// The positions in the securities, in their order and flat past them, and the steps that follow from them.
#[derive(Clone, Copy)]
pub struct Assessment {
    pub positions: [Position; 64],
    // WW
    pub provisional: u64,
    // W
    pub calculated: u64,
    // the new contribution
    pub required: u64,
}
