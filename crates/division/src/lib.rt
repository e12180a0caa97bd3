// The division of an amount over things that tell a weight, and what a refusal of any layer tells.
#![tactic(auto)]

mod dividing;
mod faults;
mod refusals;

pub use dividing::{Weighted, divide};
pub use faults::Fault;
pub use refusals::{Layer, Refusal};
