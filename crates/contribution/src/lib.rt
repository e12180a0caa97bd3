// What a member must contribute, from the securities of the day and the member's trades.
#![tactic(auto)]

mod assess;
mod assessments;
mod checks;
mod faults;
mod isins;
mod positions;
mod sums;
mod terms;

pub use assess::{MINIMUM, contribution};
pub use assessments::Assessment;
pub use faults::Fault;
pub use positions::Position;
pub use terms::{Isin, Security, Side, Trade, UnknownSide};
