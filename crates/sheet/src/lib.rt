// The day sheet: what its lines say, and what running it prints.
#![tactic(auto)]

mod asking;
mod desks;
mod entries;
mod faults;
mod fields;
mod finishing;
mod heading;
mod lines;
mod lists;
mod numbering;
mod opening;
mod printing;
mod reader;
mod running;
mod taking;
mod trades;

pub use faults::Fault;
pub use heading::BYTES;
pub use lines::{BadLine, Line, Request};
pub use reader::Lines;
pub use running::run;
pub use trades::MemberTrade;
